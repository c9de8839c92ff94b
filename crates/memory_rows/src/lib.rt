// Trees that come and go in the card's memory, and the fresh card.
#![tactic(auto)]

ghost use Rattle.std.specs.Prelude.{◌≡◌, List, [], ◌∷◌, ◌++◌, ℕ, ◌+◌, ◌*◌, ◌-◌, ◌≤◌, ◌<◌, length};
ghost use Rattle.meaning.specs.Octets.{cut};
ghost use Rattle.meaning.specs.Wire.{name_limit, least_label};
ghost use Rattle.meaning.specs.Card.{fresh, with_trees, bare, tree_limit, most_base};
ghost use Rattle.memory.specs.Sizes.{name_space, Numbers, Names};
ghost use Rattle.memory.specs.Memory.{Placed, card_of, tree_count, StandsAt};
ghost use Rattle.memory_rows.specs.Lower.{Lowered, LoweredOne, NamesLowered};

use memory::{
    FOURTH_WORD, MARK_COLUMN, NAME_SPACE, NO_LABEL, OWN_COLUMN, ROW_COLUMN, ROW_WIDTH, SECOND_WORD,
    THIRD_WORD, TURN_PLACE, WORD_COLUMN,
};

// ---- trees

// The row of a tree comes, with neither branch nor leaf nor label: the newest, whose name stands in its space already.
pub fn enter_row(numbers: &mut [u64], n: usize)
    requires { Numbers numbers.old × (n ≡ tree_count numbers.old) × (n < tree_limit) }
    ensures { (os qs name : List ℕ) → Placed name_limit (n * name_space) name os qs → (let c = card_of numbers.old os in
        card_of numbers.new qs ≡ with_trees (c.trees ++ (bare name ∷ [])) c) }
{
    memory::clear(numbers, ROW_COLUMN + n * ROW_WIDTH, ROW_WIDTH);
    numbers[OWN_COLUMN + n] = NO_LABEL;
    numbers[3] = (n + 1) as u64;
}

// A tree comes with its name.
pub fn enter_tree(numbers: &mut [u64], names: &mut [u8], name: &[u8])
    requires { Numbers numbers.old × Names names.old × (tree_count numbers.old < tree_limit) × (length name.now ≤ name_limit) }
    ensures { let c = card_of numbers.old names.old in card_of numbers.new names.new
        ≡ with_trees (c.trees ++ (bare name.now ∷ [])) c }
{
    let n = memory::tree_count(numbers);
    memory::set_text(names, n * NAME_SPACE, name);
    enter_row(numbers, n);
}

// The tree at place j + 1 is to stand at place j: the mark of its label names that place. Where it does not carry the label that
// it has for its own it has none from now on, so that it cannot come to carry that one.
fn lower_one(numbers: &mut [u64], j: usize)
    requires { Numbers numbers.old × (j + 1 < tree_limit) }
    ensures { LoweredOne j numbers.old numbers.new }
{
    let t = j + 1;
    if memory_trees::own_counts(numbers, t) {
        let k = MARK_COLUMN + numbers[OWN_COLUMN + t] as usize;
        numbers[k] = numbers[k] - 256;
        return;
    }
    numbers[OWN_COLUMN + t] = NO_LABEL;
}

// Each of the n trees that stands behind place i is to stand one place lower.
fn lower_behind(numbers: &mut [u64], i: usize, n: usize)
    requires { Numbers numbers.old × (i < n) × (n ≤ tree_limit) }
    ensures { Lowered i (n - 1) numbers.old numbers.new }
{
    for j in i..n - 1 {
        lower_one(numbers, j);
    }
}

// The name at place j + 1 is to stand at place j: its own octets move, and not its space.
fn lower_name(names: &mut [u8], j: usize)
    requires { Names names.old × (j + 1 < tree_limit) }
    ensures { NamesLowered j (j + 1) names.old names.new }
{
    let t = j + 1;
    let used = memory::used_octets(names, t);
    memory::close_octets(names, j * NAME_SPACE, t * NAME_SPACE + used, NAME_SPACE);
}

// The name of each of the n trees that stands behind place i is to stand one place lower.
fn lower_names(names: &mut [u8], i: usize, n: usize)
    requires { Names names.old × (i < n) × (n ≤ tree_limit) }
    ensures { NamesLowered i (n - 1) names.old names.new }
{
    for j in i..n - 1 {
        lower_name(names, j);
    }
}

// A tree goes, and the gap is closed.
pub fn remove_tree(numbers: &mut [u64], names: &mut [u8], i: usize)
    requires { Numbers numbers.old × Names names.old × StandsAt numbers.old i }
    ensures { let c = card_of numbers.old names.old in card_of numbers.new names.new ≡ with_trees (cut c.trees i) c }
{
    let n = memory::tree_count(numbers);
    lower_behind(numbers, i, n);
    memory::close_numbers(numbers, OWN_COLUMN + i, OWN_COLUMN + n, 1);
    memory::close_numbers(
        numbers,
        ROW_COLUMN + i * ROW_WIDTH,
        ROW_COLUMN + n * ROW_WIDTH,
        ROW_WIDTH,
    );
    lower_names(names, i, n);
    numbers[3] = (n - 1) as u64;
}

// ---- the start

// A fresh card, whatever the memory held: what no count and no bit speaks of may hold anything, and is left as it is.
pub fn start_fresh(numbers: &mut [u64], base: u64)
    requires { Numbers numbers.old × (least_label ≤ base) × (base ≤ most_base) }
    ensures { (os : List ℕ) → card_of numbers.new os ≡ fresh base }
{
    numbers[0] = base;
    numbers[1] = 1;
    numbers[2] = 0;
    numbers[3] = 0;
    numbers[TURN_PLACE] = 0;
    numbers[WORD_COLUMN] = 0xffff_ffff_ffff_ffff;
    numbers[SECOND_WORD] = 0xffff_ffff_ffff_ffff;
    numbers[THIRD_WORD] = 0xffff_ffff_ffff_ffff;
    numbers[FOURTH_WORD] = 0xffff_ffff_ffff_ffff;
}
