// What the events of one tree share: for whom it is to hold a label, what refuses it, and how it ends.
#![tactic(auto)]

ghost use Rattle.std.specs.Prelude.{◌≡◌, List, ℕ, ◌+◌, ◌*◌, ◌≤◌, ◌<◌, length, leb, ltb};
ghost use Rattle.meaning.specs.Octets.{◌when◌else◌};
ghost use Rattle.meaning.specs.Wire.{root_in, records, record_limit};
ghost use Rattle.meaning.specs.Card.{tree_at, route_place, with_branch, with_leaf, bare, free_labels, tree_limit, neighbour_count, this_node, nobody};
ghost use Rattle.meaning.specs.Events.{relabel, take_up, need_move, need, labels_short, holder_of};
ghost use Rattle.refusals.specs.Refusals.{answer_of};
ghost use Rattle.memory.specs.Sizes.{Numbers, Names};
ghost use Rattle.memory.specs.Memory.{card_of, StandsAt};
ghost use Rattle.event_holder.specs.Move.{relabel_size};
ghost use Rattle.event_tree.specs.End.{Ended, then_cut};

use meaning::TREE_LIMIT;
use memory::{NO_NEIGHBOUR, NOBODY};
use refusals::Refusal;

// ---- for whom it is to hold a label

// The neighbour that the tree at place i, whose root's place is k, holds a label for, once neighbour n's branch is x; 17 for none.
pub fn branch_holder(numbers: &[u64], i: usize, k: usize, n: usize, x: u64) -> u64
    requires { Numbers numbers.now × StandsAt numbers.now i }
    ensures { ((os : List ℕ) → (let c = card_of numbers.now os in k ≡ route_place (root_in (tree_at i c).name) c → result ≡ holder_of c (with_branch n x (tree_at i c)))) × (result ≤ nobody) × (result ≡ this_node → ⊥) }
{
    let u = event_holder::upstream_at(numbers, k);
    event_holder::holder_then(numbers, i, n, x, memory_trees::is_leaf(numbers, i), u)
}

// The same, once its leaf mark is `leaf`.
pub fn leaf_holder(numbers: &[u64], i: usize, k: usize, leaf: bool) -> u64
    requires { Numbers numbers.now × StandsAt numbers.now i }
    ensures { ((os : List ℕ) → (let c = card_of numbers.now os in k ≡ route_place (root_in (tree_at i c).name) c → result ≡ holder_of c (with_leaf leaf (tree_at i c)))) × (result ≤ nobody) × (result ≡ this_node → ⊥) }
{
    let u = event_holder::upstream_at(numbers, k);
    event_holder::holder_then(numbers, i, NO_NEIGHBOUR, 0, leaf, u)
}

// The neighbour that a new tree, whose root's place is k, holds a label for, where its only branch is that of neighbour n; 17 for none.
pub fn new_holder(numbers: &[u64], k: usize, n: usize) -> u64
    requires { Numbers numbers.now × (n < neighbour_count) }
    ensures { ((os a : List ℕ) (l : ℕ) → (let c = card_of numbers.now os in k ≡ route_place (root_in a) c → 0 < l → result ≡ holder_of c (with_branch n l (bare a)))) × (result ≤ nobody) × (result ≡ this_node → ⊥) }
{
    let u = event_holder::upstream_at(numbers, k);
    if u == n as u64 { NOBODY } else { u }
}

// ---- what refuses it

// LabelsShort and NoRoom for the tree at place i, which is to hold a label for u; `first` octets are written before its own records.
pub fn check_standing(
    numbers: &[u64],
    names: &[u8],
    i: usize,
    u: u64,
    first: usize,
    room: usize,
) -> Result<(), Refusal>
    requires { Numbers numbers.now × Names names.now × (first ≤ record_limit) × StandsAt numbers.now i }
    ensures { let c = card_of numbers.now names.now in answer_of result ≡ 12 when labels_short c (need c (tree_at i c) u)
        else 16 when ltb room (first + relabel_size c (tree_at i c) u) else 0 }
{
    if event_holder::no_label_for(numbers, i, u) {
        Err(Refusal::LabelsShort)
    } else if room < first + event_holder::relabel_size(numbers, names, i, u) {
        Err(Refusal::NoRoom)
    } else {
        Ok(())
    }
}

// TreesFull, LabelsShort and NoRoom for a new tree that is to hold a label for u.
pub fn check_new(numbers: &[u64], u: u64, size: usize, room: usize) -> Result<(), Refusal>
    requires { Numbers numbers.now }
    ensures { (os : List ℕ) → (let c = card_of numbers.now os in answer_of result ≡ 11 when leb tree_limit (length c.trees)
        else 12 when ltb (free_labels c) (need_move u) else 16 when ltb room (need_move u * size) else 0) }
{
    if TREE_LIMIT <= memory::tree_count(numbers) {
        Err(Refusal::TreesFull)
    } else if u == NOBODY {
        Ok(())
    } else if memory_free::none_free(numbers) {
        Err(Refusal::LabelsShort)
    } else if room < size {
        Err(Refusal::NoRoom)
    } else {
        Ok(())
    }
}

// ---- how it ends

// The tree at place i is as it is to be, but for its label; where it is empty it goes.
pub fn settle(
    numbers: &mut [u64],
    names: &mut [u8],
    i: usize,
    u: u64,
    empty: bool,
    out: &mut [u8],
    at: usize,
    id: u32,
) -> usize
    requires { let c = card_of numbers.old names.old in Numbers numbers.old × Names names.old × (u ≤ nobody) × (u ≡ this_node → ⊥)
        × (need c (tree_at i c) u ≤ free_labels c)
        × (at + relabel_size c (tree_at i c) u ≤ length out.old) × StandsAt numbers.old i }
    ensures { Ended (then_cut empty i (relabel i u (card_of numbers.old names.old))) id at out.old out.new (card_of numbers.new names.new) result }
{
    let w = event_move::relabel(numbers, names, i, u, out, at, id);
    let next = w.id;
    let end = w.at;
    if empty {
        memory_rows::remove_tree(numbers, names, i);
    }
    memory::set_next_id(numbers, next);
    end
}

// The newest tree, at place i, is given its label.
pub fn grow(
    numbers: &mut [u64],
    names: &mut [u8],
    i: usize,
    u: u64,
    out: &mut [u8],
    id: u32,
) -> usize
    requires { let c = card_of numbers.old names.old in Numbers numbers.old × Names names.old × (u ≤ nobody) × (u ≡ this_node → ⊥)
        × (need_move u ≤ free_labels c)
        × (length (records id (take_up i u c).sent) ≤ length out.old) × StandsAt numbers.old i }
    ensures { Ended (take_up i u (card_of numbers.old names.old)) id 0 out.old out.new (card_of numbers.new names.new) result }
{
    let w = event_move::take_up(numbers, names, i, u, out, 0, id);
    let next = w.id;
    memory::set_next_id(numbers, next);
    w.at
}
