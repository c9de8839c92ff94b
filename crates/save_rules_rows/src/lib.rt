// The rules in force that speak of routes and trees: one function for each rule, and one for what it asks of a row.
#![tactic(auto)]

ghost use Rattle.std.specs.Prelude.{◌≡◌, false, not, List, ℕ, ◌+◌, ◌<◌, drop};
ghost use Rattle.meaning.specs.Octets.{any, all};
ghost use Rattle.meaning.specs.Card.{tree_at, is_empty, is_for, route_limit};
ghost use Rattle.meaning_save.specs.Save.{is_name, once_each, is_route, same_root, is_branch_label, is_tree};
ghost use Rattle.memory.specs.Sizes.{Numbers, Names};
ghost use Rattle.memory.specs.Memory.{card_of, route_in, StandsAt};

use meaning::{LEAST_LABEL, MOST_LABEL, NEIGHBOUR_COUNT};
use memory::NO_NEIGHBOUR;

// ---- routes

fn is_route(numbers: &[u64], names: &[u8], i: usize) -> bool
    requires { Numbers numbers.now × Names names.now × (i < route_limit) }
    ensures { result ≡ is_route (route_in numbers.now names.now i) }
{
    let n = memory_routes::root_name(names, i).len();
    memory_routes::route_via(numbers, i) <= 16 && (n == 4 || n == 16)
}

pub fn routes_good(numbers: &[u64], names: &[u8]) -> bool
    requires { Numbers numbers.now × Names names.now }
    ensures { result ≡ all is_route (card_of numbers.now names.now).routes }
{
    let n = memory::route_count(numbers);
    for i in 0..n {
        if !is_route(numbers, names, i) {
            return false;
        }
    }
    true
}

// Whether a route of that root stands at place `from` or further on.
fn root_from(numbers: &[u64], names: &[u8], from: usize, root: &[u8]) -> bool
    requires { Numbers numbers.now × Names names.now }
    ensures { result ≡ any (is_for root.now) (drop from (card_of numbers.now names.now).routes) }
{
    let n = memory::route_count(numbers);
    for i in from..n {
        if octets::equal(memory_routes::root_name(names, i), root) {
            return true;
        }
    }
    false
}

pub fn roots_once(numbers: &[u64], names: &[u8]) -> bool
    requires { Numbers numbers.now × Names names.now }
    ensures { result ≡ once_each same_root (card_of numbers.now names.now).routes }
{
    let n = memory::route_count(numbers);
    for i in 0..n {
        if root_from(numbers, names, i + 1, memory_routes::root_name(names, i)) {
            return false;
        }
    }
    true
}

// ---- trees

pub fn is_name(name: &[u8]) -> bool
    ensures { result ≡ is_name name.now }
{
    wire_name::check_element(name).is_ok()
}

fn is_branch_label(label: u64) -> bool
    ensures { result ≡ is_branch_label label }
{
    label == 0 || (LEAST_LABEL <= label && label <= MOST_LABEL)
}

fn branches_good(numbers: &[u64], i: usize) -> bool
    requires { Numbers numbers.now × StandsAt numbers.now i }
    ensures { (os : List ℕ) → result ≡ all is_branch_label (tree_at i (card_of numbers.now os)).branches }
{
    for k in 0..NEIGHBOUR_COUNT {
        if !is_branch_label(memory_trees::branch(numbers, i, k)) {
            return false;
        }
    }
    true
}

// Whether the tree at place i has a branch or a leaf.
fn leads_somewhere(numbers: &[u64], i: usize) -> bool
    requires { Numbers numbers.now × StandsAt numbers.now i }
    ensures { (os : List ℕ) → result ≡ not (is_empty (tree_at i (card_of numbers.now os))) }
{
    memory_trees::is_leaf(numbers, i)
        || memory_trees::any_branch(numbers, i, NO_NEIGHBOUR, 0, NO_NEIGHBOUR)
}

fn is_tree(numbers: &[u64], names: &[u8], i: usize) -> bool
    requires { Numbers numbers.now × Names names.now × StandsAt numbers.now i }
    ensures { result ≡ is_tree (tree_at i (card_of numbers.now names.now)) }
{
    is_name(memory_trees::tree_name(names, i))
        && branches_good(numbers, i)
        && leads_somewhere(numbers, i)
}

pub fn trees_good(numbers: &[u64], names: &[u8]) -> bool
    requires { Numbers numbers.now × Names names.now }
    ensures { result ≡ all is_tree (card_of numbers.now names.now).trees }
{
    let n = memory::tree_count(numbers);
    for i in 0..n {
        if !is_tree(numbers, names, i) {
            return false;
        }
    }
    true
}
