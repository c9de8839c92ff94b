// A save's head, routes and trees: out of its octets, in either form, into memory that is lent.
#![tactic(auto)]

ghost use Rattle.std.specs.Prelude.{◌≡◌, List, [], ◌∷◌, ◌++◌, ℕ, ◌+◌, ◌*◌, ◌≤◌, ◌<◌, drop, set, get_or};
ghost use Rattle.meaning.specs.Octets.{four_at};
ghost use Rattle.meaning.specs.Card.{with_routes, with_trees, bare, tree_at, route_limit, tree_limit, neighbour_count, most_base};
ghost use Rattle.meaning_save.specs.Save.{form_of, name_in, extent, route_read, tree_read, fours_in, routes_read, trees_read, trees_end, tree_beside};
ghost use Rattle.memory.specs.Sizes.{Numbers, Names};
ghost use Rattle.memory.specs.Memory.{card_of, tree_count, route_count, StandsAt};
ghost use Rattle.save_rows.specs.Stages.{with_branches, rows_read, labels_begin};
ghost use Rattle.meaning.specs.Wire.{least_label};

use meaning::{NEIGHBOUR_COUNT, ROOT_LIMIT, ROUTE_SIZE, TREE_BESIDE};
use memory::NAME_SPACE;

// ---- routes

fn read_route(octets: &[u8], at: usize, numbers: &mut [u64], names: &mut [u8])
    requires { Numbers numbers.old × Names names.old × (route_count numbers.old < route_limit) × (at < 1000000000) }
    ensures { let c = card_of numbers.old names.old in
        card_of numbers.new names.new ≡ with_routes (c.routes ++ (route_read (drop at octets.now) ∷ [])) c }
{
    let root = save_fields::spaced(octets, at + 4, ROOT_LIMIT);
    let via = octets::at(octets, at + 3);
    memory_routes::append_route(numbers, names, root, via, 0, 0);
}

fn read_routes(octets: &[u8], at: usize, n: usize, numbers: &mut [u64], names: &mut [u8])
    requires { Numbers numbers.old × Names names.old × (n ≤ route_limit) × (at < 65536) × ((card_of numbers.old names.old).routes ≡ []) }
    ensures { card_of numbers.new names.new ≡ with_routes (routes_read n (drop at octets.now)) (card_of numbers.old names.old) }
{
    for i in 0..n {
        read_route(octets, at + i * ROUTE_SIZE, numbers, names);
    }
}

// ---- trees

// The branches that stand at a place.
fn lay_branches(octets: &[u8], at: usize, numbers: &mut [u64], i: usize)
    requires { Numbers numbers.old × (at < 1073741824) × StandsAt numbers.old i }
    ensures { (os : List ℕ) → (let c = card_of numbers.old os in
        card_of numbers.new os ≡ with_trees (set c.trees i (with_branches (fours_in neighbour_count (drop at octets.now)) (tree_at i c))) c) }
{
    for n in 0..NEIGHBOUR_COUNT {
        let label = octets::four_at(octets, at + n * 4);
        memory_changes::set_branch(numbers, i, n, label);
    }
}

// The same. Where all are there, their part is lent, so that each is read without a test.
fn read_branches(octets: &[u8], at: usize, numbers: &mut [u64], i: usize)
    requires { Numbers numbers.old × (at < 1073741824) × StandsAt numbers.old i }
    ensures { (os : List ℕ) → (let c = card_of numbers.old os in
        card_of numbers.new os ≡ with_trees (set c.trees i (with_branches (fours_in neighbour_count (drop at octets.now)) (tree_at i c))) c) }
{
    let e = at + 4 * NEIGHBOUR_COUNT;
    if e <= octets.len() {
        lay_branches(&octets[at..e], 0, numbers, i);
        return;
    }
    lay_branches(octets, at, numbers, i);
}

fn enter_name(octets: &[u8], at: usize, second: bool, numbers: &mut [u64], names: &mut [u8])
    requires { Numbers numbers.old × Names names.old × (tree_count numbers.old < tree_limit) × (at < 1073741824) }
    ensures { let c = card_of numbers.old names.old in
        card_of numbers.new names.new ≡ with_trees (c.trees ++ (bare (name_in (form_of second) (drop at octets.now)) ∷ [])) c }
{
    let n = memory::tree_count(numbers);
    save_fields::lay_name(octets, at, second, names, n * NAME_SPACE);
    memory_rows::enter_row(numbers, n);
}

// The tree at a place, whose name takes e octets.
fn read_tree(
    octets: &[u8],
    at: usize,
    second: bool,
    e: usize,
    numbers: &mut [u64],
    names: &mut [u8],
)
    requires { Numbers numbers.old × Names names.old × (tree_count numbers.old < tree_limit) × (at < 1000000000)
        × (e ≡ extent (form_of second) (drop (at + 3) octets.now)) × (e ≤ 256) }
    ensures { let c = card_of numbers.old names.old in
        card_of numbers.new names.new ≡ with_trees (c.trees ++ (tree_read (form_of second) (drop at octets.now) ∷ [])) c }
{
    let i = memory::tree_count(numbers);
    enter_name(octets, at + 3, second, numbers, names);
    let leaf = octets::at(octets, at + (3 + e)) != 0;
    memory_changes::set_leaf(numbers, i, leaf);
    read_branches(octets, at + (4 + e), numbers, i);
}

// The trees from a place on; the place behind them.
fn read_trees(
    octets: &[u8],
    from: usize,
    second: bool,
    n: usize,
    numbers: &mut [u64],
    names: &mut [u8],
) -> usize
    requires { Numbers numbers.old × Names names.old × (n ≤ tree_limit) × (from < 65536) × ((card_of numbers.old names.old).trees ≡ []) }
    ensures { (card_of numbers.new names.new ≡ with_trees (trees_read (form_of second) n (drop from octets.now)) (card_of numbers.old names.old))
        × (drop result octets.now ≡ trees_end (form_of second) n (drop from octets.now)) × (result ≤ from + n * (tree_beside + 256)) }
{
    let mut at = from;
    for _ in 0..n {
        let e = save_fields::extent_at(octets, at + 3, second);
        read_tree(octets, at, second, e, numbers, names);
        at += TREE_BESIDE + e;
    }
    at
}

// ---- the whole

// The head, the routes and the trees, into memory that held anything; the place behind them.
pub fn read_rows(octets: &[u8], second: bool, numbers: &mut [u64], names: &mut [u8]) -> usize
    requires { Numbers numbers.old × Names names.old × (least_label ≤ four_at octets.now 3) × (four_at octets.now 3 ≤ most_base) × (get_or octets.now 11 0 ≤ route_limit) × (get_or octets.now 12 0 ≤ tree_limit) }
    ensures { (card_of numbers.new names.new ≡ rows_read (form_of second) octets.now)
        × (drop result octets.now ≡ labels_begin (form_of second) octets.now) × (result < 65536) }
{
    memory_rows::start_fresh(numbers, octets::four_at(octets, 3));
    memory::set_next_id(numbers, octets::four_at(octets, 7) as u32);
    let head = save_forms::head_size(second);
    let routes = octets::at(octets, 11) as usize;
    read_routes(octets, head, routes, numbers, names);
    let trees = octets::at(octets, 12) as usize;
    read_trees(
        octets,
        head + routes * ROUTE_SIZE,
        second,
        trees,
        numbers,
        names,
    )
}
