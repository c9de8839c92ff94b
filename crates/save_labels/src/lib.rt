// A save's labels in use, and with them the label that each tree carries and the last label given: out of its octets, in either form, into
// the memory that holds its trees.
// With them the table is whole but for the counts, which are worked out.
#![tactic(auto)]

ghost use Rattle.std.specs.Prelude.{◌≡◌, true, List, map, ℕ, ◌+◌, ◌-◌, ◌<◌, length, drop, set};
ghost use Rattle.meaning.specs.Octets.{all, four_at};
ghost use Rattle.meaning.specs.Card.{with_trees, with_labels, with_last, tree_at, label_count, tree_limit};
ghost use Rattle.meaning_save.specs.Save.{form_of, last_place, use_read, uses_read, all_labelled, same_name, same_root, once_each, holds_right, table_in, highest_used, last_in};
ghost use Rattle.memory.specs.Sizes.{Numbers, Names};
ghost use Rattle.memory.specs.Memory.{card_of, base_in, tree_count, label_in, label_before};
ghost use Rattle.save_tags.specs.Tags.{Tagged, hint_count};
ghost use Rattle.save_rows.specs.Stages.{rows_read, labels_begin};
ghost use Rattle.save_labels.specs.Labels.{Unlabelled, given, OfBlock};

use meaning::{LABEL_COUNT, LAST_PLACE, TREE_LIMIT, USE_BESIDE};
use memory::{LABEL_NAMES, LABELS, NAME_SPACE, NEIGHBOURS, NOBODY};
use save_tags::HINT_COUNT;

// ---- labels in use

fn read_use(octets: &[u8], at: usize, second: bool, numbers: &mut [u64], names: &mut [u8])
    requires { Numbers numbers.old × Names names.old × (at < 1000000000) × Unlabelled (card_of numbers.old names.old) }
    ensures { let c = card_of numbers.old names.old in
        card_of numbers.new names.new ≡ with_labels (set c.labels (four_at (drop at octets.now) 3 - c.base) (use_read (form_of second) (drop at octets.now))) c }
{
    let label = octets::four_at(octets, at + 3);
    let p = label.saturating_sub(memory::base(numbers));
    if LABELS <= p {
        return;
    }
    let place = p as usize;
    save_fields::lay_name(
        octets,
        at + 9,
        second,
        names,
        LABEL_NAMES + place * NAME_SPACE,
    );
    let held = octets::at(octets, at + 7) == 1;
    let neighbour = octets::at(octets, at + 8) % NEIGHBOURS;
    memory_marks::enter_use(numbers, place, held, neighbour);
}

fn read_uses(
    octets: &[u8],
    from: usize,
    second: bool,
    n: usize,
    numbers: &mut [u64],
    names: &mut [u8],
)
    requires { Numbers numbers.old × Names names.old × (n < 65536) × (from < 65536) × Unlabelled (card_of numbers.old names.old) }
    ensures { let c = card_of numbers.old names.old in
        card_of numbers.new names.new ≡ with_labels (uses_read (form_of second) c.base n (drop from octets.now) c.labels) c }
{
    let mut at = from;
    for _ in 0..n {
        read_use(octets, at, second, numbers, names);
        let e = save_fields::extent_at(octets, at + 9, second);
        at = at + (USE_BESIDE + e);
    }
}

// ---- the label that each tree carries

// The tree of the name that the label at place p is mapped for carries it from now on, unless it carries one already.
fn give_label(numbers: &mut [u64], names: &[u8], tags: &[u32], hints: &[u8], p: usize)
    requires { let c = card_of numbers.old names.now in Numbers numbers.old × Names names.now × (length tags.now ≡ tree_limit) × Tagged tags.now (tree_count numbers.old) names.now × (p < label_count) × (once_each same_name c.trees ≡ true)
        × ((j : ℕ) → j < tree_count numbers.old → (tree_at j c).label ≡ base_in numbers.old + p → ⊥) × (length hints.now ≡ hint_count) }
    ensures { let c = card_of numbers.old names.now in
        card_of numbers.new names.now ≡ with_trees (map (given (base_in numbers.old + p) (label_in numbers.old names.now p)) c.trees) c }
{
    if memory_labels::mapped_at(numbers, p) == NOBODY {
        return;
    }
    let i = save_tags::tagged_near(
        numbers,
        names,
        tags,
        hints,
        memory_labels::label_name(names, p),
    );
    if memory::tree_count(numbers) <= i {
        return;
    }
    if memory_trees::tree_label(numbers, i) != 0 {
        return;
    }
    memory_marks::attach(numbers, i, p);
}

fn label_trees(numbers: &mut [u64], names: &[u8])
    requires { let c = card_of numbers.old names.now in Numbers numbers.old × Names names.now × Unlabelled c × (once_each same_name c.trees ≡ true) }
    ensures { let c = card_of numbers.old names.now in
        card_of numbers.new names.now ≡ with_trees (all_labelled c.base c.labels c.trees) c }
{
    let mut tags = [0u32; TREE_LIMIT];
    save_tags::tree_tags(numbers, names, &mut tags);
    let mut hints = [0u8; HINT_COUNT];
    save_tags::tree_hints(numbers, &tags, &mut hints);
    for p in 0..LABEL_COUNT {
        give_label(numbers, names, &tags, &hints, p);
    }
}

// ---- the last label given

// The place after that of the highest label in use; 0 where none is in use.
fn above_used(numbers: &[u64]) -> usize
    requires { Numbers numbers.now }
    ensures { (os : List ℕ) → label_before (base_in numbers.now) result ≡ highest_used (base_in numbers.now) (card_of numbers.now os).labels }
{
    for p in (0..LABEL_COUNT).rev() {
        if !memory_labels::is_free(numbers, p) {
            return p + 1;
        }
    }
    0
}

// The place after that of the last label given: in the new form the head says which, in the old one the highest in use is taken for it.
fn turn_after(octets: &[u8], second: bool, numbers: &[u64]) -> usize
    requires { Numbers numbers.now × (second ≡ true → OfBlock (base_in numbers.now) (four_at octets.now last_place)) }
    ensures { (os : List ℕ) → label_before (base_in numbers.now) result ≡ last_in (form_of second) octets.now (base_in numbers.now) (card_of numbers.now os).labels }
{
    if !second {
        return above_used(numbers);
    }
    let last = octets::four_at(octets, LAST_PLACE);
    if last == 0 {
        return 0;
    }
    (last - memory::base(numbers)) as usize + 1
}

fn settle(octets: &[u8], second: bool, numbers: &mut [u64])
    requires { Numbers numbers.old × (second ≡ true → OfBlock (base_in numbers.old) (four_at octets.now last_place)) }
    ensures { (os : List ℕ) → (let c = card_of numbers.old os in
        card_of numbers.new os ≡ with_last (last_in (form_of second) octets.now c.base c.labels) c) }
{
    let v = turn_after(octets, second, numbers);
    memory::set_turn(numbers, v);
}

// The labels, whose records begin at a place, where no two trees have one name and no two routes one root. Whether each tree then holds a
// label for whom it is to; where one does not, the table may not be whole.
pub fn read_labels(
    octets: &[u8],
    at: usize,
    second: bool,
    numbers: &mut [u64],
    names: &mut [u8],
) -> bool
    requires { let c = card_of numbers.old names.old in Numbers numbers.old × Names names.old × (at < 65536) × (drop at octets.now ≡ labels_begin (form_of second) octets.now)
        × (c ≡ rows_read (form_of second) octets.now) × (once_each same_name c.trees ≡ true) × (once_each same_root c.routes ≡ true)
        × (second ≡ true → OfBlock (four_at octets.now 3) (four_at octets.now last_place)) }
    ensures { let t = table_in (form_of second) octets.now in
        (result ≡ all (holds_right t) t.trees) × (result ≡ true → card_of numbers.new names.new ≡ t) }
{
    let labels = octets::two_at(octets, 13) as usize;
    read_uses(octets, at, second, labels, numbers, names);
    label_trees(numbers, names);
    settle(octets, second, numbers);
    save_counts::work_out_all(numbers, names)
}
