// Trees in the card's memory: what changes in one place, a branch, the leaf mark or the label that ends.
#![tactic(auto)]

ghost use Rattle.std.specs.Prelude.{◌≡◌, List, ℕ, ◌<◌, set};
ghost use Rattle.meaning.specs.Card.{with_trees, with_branch, with_leaf, tree_at, use_of, neighbour_count};
ghost use Rattle.meaning.specs.Events.{set_use, set_label, ended};
ghost use Rattle.memory.specs.Sizes.{Numbers};
ghost use Rattle.memory.specs.Memory.{card_of, StandsAt};

use memory::{BRANCH_COLUMN, MARK_COLUMN, NEIGHBOURS, OWN_COLUMN, ROW_COLUMN, ROW_WIDTH};

pub fn set_branch(numbers: &mut [u64], i: usize, n: usize, label: u64)
    requires { Numbers numbers.old × (n < neighbour_count) × StandsAt numbers.old i }
    ensures { (os : List ℕ) → (let c = card_of numbers.old os in card_of numbers.new os
        ≡ with_trees (set c.trees i (with_branch n label (tree_at i c))) c) }
{
    numbers[BRANCH_COLUMN + i * ROW_WIDTH + n] = label;
}

pub fn set_leaf(numbers: &mut [u64], i: usize, leaf: bool)
    requires { Numbers numbers.old × StandsAt numbers.old i }
    ensures { (os : List ℕ) → (let c = card_of numbers.old os in card_of numbers.new os
        ≡ with_trees (set c.trees i (with_leaf leaf (tree_at i c))) c) }
{
    numbers[ROW_COLUMN + i * ROW_WIDTH] = u64::from(leaf);
}

// The label that the tree carries awaits release from now on, and the tree carries none: a label that is not mapped has no carrier.
pub fn end_label(numbers: &mut [u64], i: usize)
    requires { Numbers numbers.old × ((os : List ℕ) → (tree_at i (card_of numbers.old os)).label ≡ 0 → ⊥) × StandsAt numbers.old i }
    ensures { (os : List ℕ) → (let c = card_of numbers.old os in card_of numbers.new os
        ≡ set_label i 0 (set_use (tree_at i c).label (ended (use_of (tree_at i c).label c)) c)) }
{
    let k = MARK_COLUMN + numbers[OWN_COLUMN + i] as usize;
    numbers[k] = numbers[k] % 256 + NEIGHBOURS;
}
