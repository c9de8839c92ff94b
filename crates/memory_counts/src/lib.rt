// The counts of a root's trees in the card's memory: what one tree counts, how a change of it is counted, and how all are worked out.
#![tactic(auto)]

ghost use Rattle.std.specs.Prelude.{◌≡◌, true, false, List, ℕ, ◌≤◌, ◌<◌, set};
ghost use Rattle.meaning.specs.Octets.{count, same};
ghost use Rattle.meaning.specs.Wire.{root_in};
ghost use Rattle.meaning.specs.Card.{Tree, with_trees, with_branch, with_leaf, tree_at, is_branch, is_empty, route_place, tree_limit, route_limit, neighbour_count};
ghost use Rattle.meaning.specs.Events.{of_root, total, in_root, one_standing, one_lone, changed, recounted};
ghost use Rattle.memory.specs.Sizes.{Numbers, Names};
ghost use Rattle.memory.specs.Memory.{card_of, tree_count, tree_name, StandsAt};

use meaning::ROOT_LIMIT;
use memory::{NAME_SPACE, NO_NEIGHBOUR};

// How many trees stand, and how many of these are lone.
#[derive(Clone, Copy)]
pub struct Counts {
    pub standing: u64,
    pub lone: u64,
}

// ---- what one tree counts

pub fn is_empty(numbers: &[u64], i: usize) -> bool
    requires { Numbers numbers.now × StandsAt numbers.now i }
    ensures { (os : List ℕ) → result ≡ is_empty (tree_at i (card_of numbers.now os)) }
{
    !memory_trees::is_leaf(numbers, i)
        && !memory_trees::any_branch(numbers, i, NO_NEIGHBOUR, 0, NO_NEIGHBOUR)
}

// What a tree counts that has so many branches, and a leaf or none.
// Kept: by cases; with `u64::from` of the tests a change of a leaf took 125 instructions for 79 (docs/BENCHMARK.md), since the compiler put
// the count of the branches behind the change, and kept all sixteen until then.
fn counts_of(leaf: bool, branches: u64) -> Counts
    ensures { ((t : Tree) → leaf ≡ t.leaf → branches ≡ count is_branch t.branches → (result.standing ≡ one_standing t) × (result.lone ≡ one_lone t))
        × (result.standing ≤ 1) × (result.lone ≤ 1) }
{
    if leaf {
        Counts {
            standing: 1,
            lone: 0,
        }
    } else if branches == 0 {
        Counts {
            standing: 0,
            lone: 0,
        }
    } else if branches == 1 {
        Counts {
            standing: 1,
            lone: 1,
        }
    } else {
        Counts {
            standing: 1,
            lone: 0,
        }
    }
}

// The same of the tree at place i.
pub fn counts_at(numbers: &[u64], i: usize) -> Counts
    requires { Numbers numbers.now × StandsAt numbers.now i }
    ensures { ((os : List ℕ) → (let t = tree_at i (card_of numbers.now os) in (result.standing ≡ one_standing t) × (result.lone ≡ one_lone t)))
        × (result.standing ≤ 1) × (result.lone ≤ 1) }
{
    counts_of(
        memory_trees::is_leaf(numbers, i),
        memory_trees::branch_count(numbers, i),
    )
}

// ---- a change of one tree

fn change(n: u64, before: u64, after: u64) -> u64
    requires { (n < 256) × (before ≤ 1) × (after ≤ 1) }
    ensures { (result ≡ changed n before after) × (result < 256) }
{
    (n + after + (256 - before)) % 256
}

// The place of the root of a tree of that name; the number of roots where it has no route.
pub fn root_place(numbers: &[u64], names: &[u8], name: &[u8]) -> usize
    requires { Numbers numbers.now × Names names.now }
    ensures { (result ≡ route_place (root_in name.now) (card_of numbers.now names.now)) × (result ≤ route_limit) }
{
    memory_routes::route_place(numbers, names, wire_name::root_of(name))
}

// That of the tree at place i.
pub fn its_root(numbers: &[u64], names: &[u8], i: usize) -> usize
    requires { Numbers numbers.now × Names names.now × StandsAt numbers.now i }
    ensures { let c = card_of numbers.now names.now in (result ≡ route_place (root_in (tree_at i c).name) c) × (result ≤ route_limit) }
{
    root_place(numbers, names, memory_trees::tree_name(names, i))
}

// A tree whose root's place is k counted `before`: its root's entry, where there is one, counts it as `after`.
pub fn recount(numbers: &mut [u64], k: usize, before: Counts, after: Counts)
    requires { Numbers numbers.old × (before.standing ≤ 1) × (before.lone ≤ 1) × (after.standing ≤ 1) × (after.lone ≤ 1) }
    ensures { (os : List ℕ) (t s : Tree) → (let c = card_of numbers.old os in k ≡ route_place (root_in s.name) c
        → before.standing ≡ one_standing t → before.lone ≡ one_lone t → after.standing ≡ one_standing s → after.lone ≡ one_lone s
        → card_of numbers.new os ≡ recounted t s c) }
{
    if k < memory::route_count(numbers) {
        let a = change(
            memory_routes::standing(numbers, k),
            before.standing,
            after.standing,
        );
        let b = change(memory_routes::lone(numbers, k), before.lone, after.lone);
        memory_routes::set_counts(numbers, k, a, b);
        return;
    }
}

// Neighbour n's branch of the tree at place i, whose root's place is k, is `label` from now on, and is counted so.
pub fn change_branch(numbers: &mut [u64], i: usize, k: usize, n: usize, label: u64)
    requires { Numbers numbers.old × (n < neighbour_count) × StandsAt numbers.old i }
    ensures { (os : List ℕ) → (let c = card_of numbers.old os in let t = with_branch n label (tree_at i c) in
        k ≡ route_place (root_in (tree_at i c).name) c → card_of numbers.new os ≡ recounted (tree_at i c) t (with_trees (set c.trees i t) c)) }
{
    let leaf = memory_trees::is_leaf(numbers, i);
    let branches = memory_trees::branch_count(numbers, i);
    let others = branches - memory_trees::count_of(numbers, i, n);
    memory_changes::set_branch(numbers, i, n, label);
    recount(
        numbers,
        k,
        counts_of(leaf, branches),
        counts_of(leaf, others + memory_trees::one(label)),
    );
}

// The same of its leaf.
pub fn change_leaf(numbers: &mut [u64], i: usize, k: usize, leaf: bool)
    requires { Numbers numbers.old × StandsAt numbers.old i }
    ensures { (os : List ℕ) → (let c = card_of numbers.old os in let t = with_leaf leaf (tree_at i c) in
        k ≡ route_place (root_in (tree_at i c).name) c → card_of numbers.new os ≡ recounted (tree_at i c) t (with_trees (set c.trees i t) c)) }
{
    let branches = memory_trees::branch_count(numbers, i);
    let before = counts_of(memory_trees::is_leaf(numbers, i), branches);
    memory_changes::set_leaf(numbers, i, leaf);
    recount(numbers, k, before, counts_of(leaf, branches));
}

// The first branch of the tree at place i, which has neither branch nor leaf, and whose root's place is k: with it the tree stands and is lone, and none is counted.
pub fn first_branch(numbers: &mut [u64], i: usize, k: usize, n: usize, label: u64)
    requires { Numbers numbers.old × (n < neighbour_count) × (0 < label) × StandsAt numbers.old i }
    ensures { (os : List ℕ) → (let c = card_of numbers.old os in let t = with_branch n label (tree_at i c) in
        (tree_at i c).leaf ≡ false → count is_branch (tree_at i c).branches ≡ 0
        → k ≡ route_place (root_in (tree_at i c).name) c → card_of numbers.new os ≡ recounted (tree_at i c) t (with_trees (set c.trees i t) c)) }
{
    memory_changes::set_branch(numbers, i, n, label);
    recount(
        numbers,
        k,
        Counts {
            standing: 0,
            lone: 0,
        },
        Counts {
            standing: 1,
            lone: 1,
        },
    );
}

// The same of its leaf: with that the tree stands and is not lone.
pub fn first_leaf(numbers: &mut [u64], i: usize, k: usize)
    requires { Numbers numbers.old × StandsAt numbers.old i }
    ensures { (os : List ℕ) → (let c = card_of numbers.old os in let t = with_leaf true (tree_at i c) in
        (tree_at i c).leaf ≡ false → count is_branch (tree_at i c).branches ≡ 0
        → k ≡ route_place (root_in (tree_at i c).name) c → card_of numbers.new os ≡ recounted (tree_at i c) t (with_trees (set c.trees i t) c)) }
{
    memory_changes::set_leaf(numbers, i, true);
    recount(
        numbers,
        k,
        Counts {
            standing: 0,
            lone: 0,
        },
        Counts {
            standing: 1,
            lone: 0,
        },
    );
}

// ---- all trees of a root

// Whether it may be of that root: false only where it is not. The root's last four octets are asked for where they would stand.
fn may_be_of(names: &[u8], i: usize, root: &[u8]) -> bool
    requires { Names names.now × (i < tree_limit) }
    ensures { result ≡ false → same (root_in (tree_name names.now i)) root.now ≡ false }
{
    let n = root.len();
    if n < 4 || ROOT_LIMIT < n {
        return true;
    }
    octets::equal_four(names, i * NAME_SPACE + n + 1, root, n - 4)
}

pub fn is_of_root(names: &[u8], i: usize, root: &[u8]) -> bool
    requires { Names names.now × (i < tree_limit) }
    ensures { (ns : List ℕ) → i < tree_count ns → result ≡ of_root root.now (tree_at i (card_of ns names.now)) }
{
    may_be_of(names, i, root)
        && octets::equal(wire_name::root_of(memory_trees::tree_name(names, i)), root)
}

// The counts of a root, worked out.
pub fn work_out(numbers: &[u64], names: &[u8], root: &[u8]) -> Counts
    requires { Numbers numbers.now × Names names.now }
    ensures { let c = card_of numbers.now names.now in (result.standing ≡ total (in_root root.now one_standing) c.trees) × (result.lone ≡ total (in_root root.now one_lone) c.trees)
        × (result.standing ≤ tree_limit) × (result.lone ≤ tree_limit) }
{
    let k = memory::tree_count(numbers);
    let mut standing = 0;
    let mut lone = 0;
    for i in 0..k {
        if is_of_root(names, i, root) {
            let t = counts_at(numbers, i);
            standing += t.standing;
            lone += t.lone;
        }
    }
    Counts { standing, lone }
}
