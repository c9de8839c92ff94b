// Labels in use: one given to a tree, and one as a save has it, with the tree that carries it.
#![tactic(auto)]

ghost use Rattle.std.specs.Prelude.{◌≡◌, true, List, ℕ, ◌+◌, ◌*◌, ◌-◌, ◌<◌, set};
ghost use Rattle.meaning.specs.Octets.{pick};
ghost use Rattle.meaning.specs.Wire.{name_limit};
ghost use Rattle.meaning.specs.Card.{with_labels, tree_at, mapped, awaiting, label_count, neighbour_count};
ghost use Rattle.meaning.specs.Events.{set_use, set_label};
ghost use Rattle.memory.specs.Sizes.{name_space, label_names, Numbers, Names};
ghost use Rattle.memory.specs.Memory.{Placed, card_of, base_in, tree_count, is_free_at, is_mapped_at, StandsAt};

use memory::{LABEL_NAMES, MARK_COLUMN, NAME_SPACE, NEIGHBOURS, NOWHERE, OWN_COLUMN};

// The label at place p of the block, which is free, is mapped to neighbour n for the tree at place i, which carries it from now on.
pub fn map_label(numbers: &mut [u64], names: &mut [u8], p: usize, i: usize, n: u64)
    requires { Numbers numbers.old × Names names.old × (p < label_count) × (n < neighbour_count) × (is_free_at numbers.old p ≡ true) × StandsAt numbers.old i }
    ensures { let c = card_of numbers.old names.old in card_of numbers.new names.new
        ≡ set_label i (base_in numbers.old + p) (set_use (base_in numbers.old + p) (mapped n (tree_at i c).name) c) }
{
    let used = memory::used_octets(names, i);
    octets::copy_within(names, i * NAME_SPACE, LABEL_NAMES + p * NAME_SPACE, used);
    memory_free::set_taken(numbers, p);
    numbers[MARK_COLUMN + p] = n + 256 * i as u64;
    numbers[OWN_COLUMN + i] = p as u64;
}

// The number of a use: mapped to neighbour n, or awaiting release from it.
fn use_of(held: bool, n: u64) -> u64
    requires { n < neighbour_count }
    ensures { (result ≡ pick held n (n + neighbour_count)) × (result < 2 * neighbour_count) }
{
    if held { n } else { n + NEIGHBOURS }
}

// The label at that place of the block, which no tree carries, is from now on mapped to neighbour n for the name that stands in its space
// already, or awaits release from n. Its mark names place 64, where no tree stands.
pub fn enter_use(numbers: &mut [u64], place: usize, held: bool, n: u64)
    requires { Numbers numbers.old × (place < label_count) × (n < neighbour_count) }
    ensures { (os qs name : List ℕ) → Placed name_limit (label_names + place * name_space) name os qs → (let c = card_of numbers.old os in
        ((j : ℕ) → j < tree_count numbers.old → (tree_at j c).label ≡ base_in numbers.old + place → ⊥)
        → card_of numbers.new qs ≡ with_labels (set c.labels place (pick held (mapped n name) (awaiting n name))) c) }
{
    memory_free::set_taken(numbers, place);
    numbers[MARK_COLUMN + place] = use_of(held, n) + NOWHERE;
}

// The tree at place i carries from now on the label at place p of the block, which is mapped and which no tree carries.
pub fn attach(numbers: &mut [u64], i: usize, p: usize)
    requires { Numbers numbers.old × (p < label_count) × (is_mapped_at numbers.old p ≡ true)
        × ((os : List ℕ) (j : ℕ) → j < tree_count numbers.old → (tree_at j (card_of numbers.old os)).label ≡ base_in numbers.old + p → ⊥) × StandsAt numbers.old i }
    ensures { (os : List ℕ) → card_of numbers.new os ≡ set_label i (base_in numbers.old + p) (card_of numbers.old os) }
{
    numbers[MARK_COLUMN + p] = numbers[MARK_COLUMN + p] % 256 + 256 * i as u64;
    numbers[OWN_COLUMN + i] = p as u64;
}
