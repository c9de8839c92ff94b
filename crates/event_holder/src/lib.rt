// For whom a tree holds its label, and what it takes to move it: labels, and octets of output.
#![tactic(auto)]

ghost use Rattle.std.specs.Prelude.{◌≡◌, List, ℕ, ◌+◌, ◌*◌, ◌≤◌, ◌<◌};
ghost use Rattle.meaning.specs.Wire.{root_in, record_limit};
ghost use Rattle.meaning.specs.Card.{with_branch, with_leaf, tree_at, route_of, route_place, this_node, nobody};
ghost use Rattle.meaning.specs.Events.{need, labels_short, upstream, holder};
ghost use Rattle.memory.specs.Sizes.{Numbers, Names};
ghost use Rattle.memory.specs.Memory.{card_of, StandsAt};
ghost use Rattle.event_holder.specs.Move.{move_size, relabel_size};

use meaning::RECORD_BESIDE;
use memory::{NEIGHBOURS, NO_NEIGHBOUR, NOBODY};

// How many octets the records of a move have.
pub fn move_size(numbers: &[u64], names: &[u8], i: usize, u: u64) -> usize
    requires { Numbers numbers.now × Names names.now × StandsAt numbers.now i }
    ensures { (result ≡ move_size (tree_at i (card_of numbers.now names.now)) u) × (result ≤ 2 * record_limit) }
{
    let size = RECORD_BESIDE + memory_trees::tree_name(names, i).len();
    if memory_trees::tree_label(numbers, i) == 0 {
        if u == NOBODY { 0 } else { size }
    } else if u == NOBODY {
        size
    } else {
        2 * size
    }
}

pub fn relabel_size(numbers: &[u64], names: &[u8], i: usize, u: u64) -> usize
    requires { Numbers numbers.now × Names names.now × StandsAt numbers.now i }
    ensures { let c = card_of numbers.now names.now in (result ≡ relabel_size c (tree_at i c) u) × (result ≤ 2 * record_limit) }
{
    if memory_trees::held_for(numbers, i) == u {
        0
    } else {
        move_size(numbers, names, i, u)
    }
}

// 12: no label is free for the tree at place i, which is to hold one for u.
pub fn no_label_for(numbers: &[u64], i: usize, u: u64) -> bool
    requires { Numbers numbers.now × StandsAt numbers.now i }
    ensures { (os : List ℕ) → (let c = card_of numbers.now os in result ≡ labels_short c (need c (tree_at i c) u)) }
{
    if memory_trees::held_for(numbers, i) == u {
        return false;
    }
    if u == NOBODY {
        return false;
    }
    memory_free::none_free(numbers)
}

// The neighbour that a route leads to; 17 for none.
pub fn upstream_via(via: u64) -> u64
    ensures { (result ≡ upstream via) × (result ≤ nobody) × (result ≡ this_node → ⊥) }
{
    if via < NEIGHBOURS { via } else { NOBODY }
}

// The upstream of the trees whose root's place is k; 17 for none.
pub fn upstream_at(numbers: &[u64], k: usize) -> u64
    requires { Numbers numbers.now }
    ensures { ((os root : List ℕ) → (let c = card_of numbers.now os in k ≡ route_place root c → result ≡ upstream (route_of root c))) × (result ≤ nobody) × (result ≡ this_node → ⊥) }
{
    upstream_via(memory_routes::route_at(numbers, k))
}

// The neighbour that a tree of this name, if it is not empty, holds a label for; 17 for none.
pub fn upstream_of(numbers: &[u64], names: &[u8], name: &[u8]) -> u64
    requires { Numbers numbers.now × Names names.now }
    ensures { (result ≡ upstream (route_of (root_in name.now) (card_of numbers.now names.now))) × (result ≤ nobody) × (result ≡ this_node → ⊥) }
{
    upstream_via(memory_routes::route_of(numbers, names, wire_name::root_of(name)))
}

// The neighbour for which the tree at place i holds a label where u is its upstream, once neighbour n's branch is x (NO_NEIGHBOUR: nobody's
// changes) and its leaf mark is `leaf`; 17 for none.
pub fn holder_then(numbers: &[u64], i: usize, n: usize, x: u64, leaf: bool, u: u64) -> u64
    requires { Numbers numbers.now × StandsAt numbers.now i }
    ensures { (os : List ℕ) → result ≡ holder u (with_leaf leaf (with_branch n x (tree_at i (card_of numbers.now os)))) }
{
    if leaf {
        return u;
    }
    if memory_trees::any_branch(numbers, i, n, x, u as usize) {
        return u;
    }
    NOBODY
}

// The same of the tree as it is.
pub fn holder(numbers: &[u64], i: usize, u: u64) -> u64
    requires { Numbers numbers.now × StandsAt numbers.now i }
    ensures { (os : List ℕ) → result ≡ holder u (tree_at i (card_of numbers.now os)) }
{
    holder_then(
        numbers,
        i,
        NO_NEIGHBOUR,
        0,
        memory_trees::is_leaf(numbers, i),
        u,
    )
}
