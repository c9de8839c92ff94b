// Where a label or a name leads: the branches are laid into a lent array, and the leaf mark is handed back.
#![tactic(auto)]

ghost use Rattle.std.specs.Prelude.{◌≡◌, List, ℕ, ◌<◌};
ghost use Rattle.meaning.specs.Card.{free_labels, tree_at, feed_of, lookup_label, lookup_name, nothing};
ghost use Rattle.memory.specs.Sizes.{Numbers, Names};
ghost use Rattle.memory.specs.Memory.{card_of, StandsAt};
ghost use Rattle.meaning.specs.Calls.{feed_in};

use meaning::{LABEL_COUNT, NEIGHBOUR_COUNT};
use memory::{NEIGHBOURS, NOBODY, NUMBER_COUNT, OCTET_COUNT};

// Where the tree at place i leads while u is its upstream, whose own branch is held. The one place is cleared where the row
// was laid, and nothing is read again: a load behind a store to a part of what it loads would wait for that store.
fn feed_at(numbers: &[u64], i: usize, u: u64, branches: &mut [u64; NEIGHBOUR_COUNT]) -> bool
    requires { Numbers numbers.now × StandsAt numbers.now i }
    ensures { (os : List ℕ) → feed_in branches.new result ≡ feed_of u (tree_at i (card_of numbers.now os)) }
{
    *branches = memory_trees::branches(numbers, i);
    if u < NEIGHBOURS {
        branches[u as usize] = 0;
    }
    memory_trees::is_leaf(numbers, i)
}

fn no_feed(branches: &mut [u64; NEIGHBOUR_COUNT]) -> bool
    ensures { feed_in branches.new result ≡ nothing }
{
    *branches = [0u64; NEIGHBOUR_COUNT];
    false
}

fn find_label(numbers: &[u64], label: u64, branches: &mut [u64; NEIGHBOUR_COUNT]) -> bool
    requires { Numbers numbers.now }
    ensures { (os : List ℕ) → feed_in branches.new result ≡ lookup_label label (card_of numbers.now os) }
{
    let p = memory_labels::place_in_block(numbers, label);
    if LABEL_COUNT <= p {
        return no_feed(branches);
    }
    let sender = memory_labels::mapped_at(numbers, p);
    if sender == NOBODY {
        return no_feed(branches);
    }
    let i = memory_trees::carrier_at(numbers, p);
    if i < memory::tree_count(numbers) {
        return feed_at(numbers, i, sender, branches);
    }
    no_feed(branches)
}

pub fn find_name(
    numbers: &[u64],
    names: &[u8],
    element: &[u8],
    branches: &mut [u64; NEIGHBOUR_COUNT],
) -> bool
    requires { Numbers numbers.now × Names names.now }
    ensures { feed_in branches.new result ≡ lookup_name element.now (card_of numbers.now names.now) }
{
    if wire_name::check_element(element).is_err() {
        return no_feed(branches);
    }
    let i = memory_trees::tree_place(numbers, names, element);
    if i < memory::tree_count(numbers) {
        let via = memory_routes::route_of(numbers, names, wire_name::root_of(element));
        return feed_at(numbers, i, via, branches);
    }
    no_feed(branches)
}

// ---- the calls: a core lays the branches into a lent array and hands back the leaf mark, a call hands both back by value
// Kept: the leaf mark beside a lent array, in place of a Feed, is the C interface, by which the array is written once.

// Sixteen branch labels, one for each neighbour and 0 for none, and the leaf mark. Nothing is no branch and no leaf.
#[derive(Clone, Copy, PartialEq, Eq)]
pub struct Feed {
    pub leaf: bool,
    pub branches: [u64; NEIGHBOUR_COUNT],
}

pub fn lookup_label_core(
    numbers: &[u64; NUMBER_COUNT],
    label: u32,
    branches: &mut [u64; NEIGHBOUR_COUNT],
) -> bool
    ensures { (os : List ℕ) → feed_in branches.new result ≡ lookup_label label (card_of numbers.now os) }
{
    find_label(numbers, label as u64, branches)
}

pub fn lookup_label(numbers: &[u64; NUMBER_COUNT], label: u32) -> Feed
    ensures { (os : List ℕ) → feed_in result.branches result.leaf ≡ lookup_label label (card_of numbers.now os) }
{
    let mut branches = [0u64; NEIGHBOUR_COUNT];
    let leaf = lookup_label_core(numbers, label, &mut branches);
    Feed { leaf, branches }
}

pub fn lookup_name_core(
    numbers: &[u64; NUMBER_COUNT],
    names: &[u8; OCTET_COUNT],
    element: &[u8],
    branches: &mut [u64; NEIGHBOUR_COUNT],
) -> bool
    ensures { feed_in branches.new result ≡ lookup_name element.now (card_of numbers.now names.now) }
{
    find_name(numbers, names, element, branches)
}

pub fn lookup_name(numbers: &[u64; NUMBER_COUNT], names: &[u8; OCTET_COUNT], element: &[u8]) -> Feed
    ensures { feed_in result.branches result.leaf ≡ lookup_name element.now (card_of numbers.now names.now) }
{
    let mut branches = [0u64; NEIGHBOUR_COUNT];
    let leaf = lookup_name_core(numbers, names, element, &mut branches);
    Feed { leaf, branches }
}

pub fn free_labels(numbers: &[u64; NUMBER_COUNT]) -> u32
    ensures { (os : List ℕ) → result ≡ free_labels (card_of numbers.now os) }
{
    memory_free::free_labels(numbers) as u32
}
