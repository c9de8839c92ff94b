// Whether octets are laid out as a save is, in either form: record by record, field by field. Nothing is written for it.
#![tactic(auto)]

ghost use Rattle.std.specs.Prelude.{◌≡◌, true, false, ◌+◌, ◌*◌, ◌≤◌, ◌<◌, length, drop, MatchOption};
ghost use Rattle.meaning.specs.Octets.{four_at};
ghost use Rattle.meaning_save.specs.Save.{old, form_of, saved_opaque, spaced_name, extent, trees_end, use_beside};
ghost use Rattle.save_written.specs.Written.{marked_as, space_written, name_written, label_written, route_written, tree_written, use_written, head_written, routes_written, trees_written, uses_written, rows_written, written};

use meaning::{
    LABEL_COUNT, NAME_LIMIT, NEIGHBOUR_COUNT, ROOT_LIMIT, ROUTE_SIZE, SAVED_OPAQUE,
    SAVED_ROOT_SPACE, TREE_BESIDE, USE_BESIDE,
};

// ---- fields

// Whether a record of that kind begins at a place.
fn is_marked(octets: &[u8], at: usize, kind: u8) -> bool
    requires { at + 3 ≤ length octets.now }
    ensures { result ≡ marked_as kind (drop at octets.now) }
{
    (octets[at] == 0x4C) & ((octets[at + 1] == 0x53) & (octets[at + 2] == kind))
}

// Whether the text in the space of n at a place finds room there, and has zeros behind it.
fn is_space(octets: &[u8], at: usize, n: usize) -> bool
    requires { (at + (1 + n) ≤ length octets.now) × (n ≤ saved_opaque) }
    ensures { result ≡ space_written n (drop at octets.now) }
{
    let k = octets[at] as usize;
    if n < k {
        return false;
    }
    let s = at + (1 + k);
    let e = at + (1 + n);
    octets::is_zero(&octets[s..e])
}

// A name in the old form: a root, which has the length of an address, and an opaque value.
fn is_two_spaces(octets: &[u8], at: usize) -> bool
    requires { at + spaced_name ≤ length octets.now }
    ensures { result ≡ name_written old (drop at octets.now) }
{
    let k = octets[at] as usize;
    if (k != 4) & (k != ROOT_LIMIT) {
        return false;
    }
    is_space(octets, at, ROOT_LIMIT) && is_space(octets, at + SAVED_ROOT_SPACE, SAVED_OPAQUE)
}

fn is_name(octets: &[u8], at: usize, second: bool) -> bool
    requires { at + extent (form_of second) (drop at octets.now) ≤ length octets.now }
    ensures { result ≡ name_written (form_of second) (drop at octets.now) }
{
    if second {
        return octets[at] as usize <= NAME_LIMIT;
    }
    is_two_spaces(octets, at)
}

// ---- routes

fn is_route(octets: &[u8], at: usize) -> bool
    requires { at < 1000000000 }
    ensures { result ≡ route_written (drop at octets.now) }
{
    if octets.len() < at + ROUTE_SIZE {
        return false;
    }
    is_marked(octets, at, 2) && is_space(octets, at + 4, ROOT_LIMIT)
}

// n routes from a place on.
fn routes_written(octets: &[u8], from: usize, n: usize) -> bool
    requires { (from < 256) × (n < 256) }
    ensures { result ≡ routes_written n (drop from octets.now) }
{
    let mut at = from;
    for _ in 0..n {
        if !is_route(octets, at) {
            return false;
        }
        at += ROUTE_SIZE;
    }
    true
}

// ---- trees

// The tree at a place, whose name takes e octets. Its branches may be any.
fn is_tree(octets: &[u8], at: usize, second: bool, e: usize) -> bool
    requires { (at < 1000000000) × (e ≡ extent (form_of second) (drop (at + 3) octets.now)) × (e ≤ 256) }
    ensures { result ≡ tree_written (form_of second) (drop at octets.now) }
{
    if octets.len() < at + (TREE_BESIDE + e) {
        return false;
    }
    is_marked(octets, at, save_forms::tree_kind(second))
        && octets[at + (3 + e)] <= 1
        && is_name(octets, at + 3, second)
}

// The place behind n trees; none where they are not so written.
fn behind_trees(octets: &[u8], from: usize, second: bool, n: usize) -> Option<usize>
    requires { (from < 65536) × (n < 256) }
    ensures { MatchOption result (trees_written (form_of second) n (drop from octets.now) ≡ false)
        (λ at. (trees_written (form_of second) n (drop from octets.now) ≡ true) × (drop at octets.now ≡ trees_end (form_of second) n (drop from octets.now)) × (at < 200000)) }
{
    let mut at = from;
    for _ in 0..n {
        let e = save_fields::extent_at(octets, at + 3, second);
        if !is_tree(octets, at, second, e) {
            return None;
        }
        at += TREE_BESIDE + e;
    }
    Some(at)
}

// ---- labels in use

// Whether the label l, whose record stands at a place, is one from `least` on and of the block, mapped or awaiting release, for a neighbour.
fn is_label(octets: &[u8], at: usize, base: u64, least: u64, l: u64) -> bool
    requires { (at + use_beside ≤ length octets.now) × (l ≡ four_at (drop at octets.now) 3) × (base < 4294967296) }
    ensures { result ≡ label_written base least (drop at octets.now) }
{
    if l < least {
        return false;
    }
    if base + LABEL_COUNT as u64 <= l {
        return false;
    }
    let state = octets[at + 7];
    if (state != 1) & (state != 2) {
        return false;
    }
    (octets[at + 8] as usize) < NEIGHBOUR_COUNT
}

// The record at a place of a label l, whose name takes e octets.
fn is_use(octets: &[u8], at: usize, second: bool, e: usize, base: u64, least: u64, l: u64) -> bool
    requires { (at < 1000000000) × (e ≡ extent (form_of second) (drop (at + 9) octets.now)) × (e ≤ 256) × (l ≡ four_at (drop at octets.now) 3) × (base < 4294967296) }
    ensures { result ≡ use_written (form_of second) base least (drop at octets.now) }
{
    if octets.len() < at + (USE_BESIDE + e) {
        return false;
    }
    is_marked(octets, at, save_forms::use_kind(second))
        && is_label(octets, at, base, least, l)
        && is_name(octets, at + 9, second)
}

// n labels from a place on, by rising number, and nothing behind them.
fn uses_written(octets: &[u8], from: usize, second: bool, base: u64, n: usize) -> bool
    requires { (from < 200000) × (base < 4294967296) × (n < 65536) }
    ensures { result ≡ uses_written (form_of second) base base n (drop from octets.now) }
{
    let mut at = from;
    let mut least = base;
    for _ in 0..n {
        let e = save_fields::extent_at(octets, at + 9, second);
        let l = octets::four_at(octets, at + 3);
        if !is_use(octets, at, second, e, base, least, l) {
            return false;
        }
        least = l + 1;
        at += USE_BESIDE + e;
    }
    octets.len() <= at
}

// ---- the whole

fn is_head(octets: &[u8], second: bool) -> bool
    ensures { result ≡ head_written (form_of second) octets.now }
{
    save_forms::head_size(second) <= octets.len()
        && is_marked(octets, 0, save_forms::head_kind(second))
}

// Trees from a place on, and behind them the labels that the head counts.
fn rows_written(octets: &[u8], from: usize, second: bool) -> bool
    requires { from < 65536 }
    ensures { result ≡ rows_written (form_of second) (drop from octets.now) octets.now }
{
    let trees = octets::at(octets, 12) as usize;
    let base = octets::four_at(octets, 3);
    let labels = octets::two_at(octets, 13) as usize;
    match behind_trees(octets, from, second, trees) {
        Some(at) => uses_written(octets, at, second, base, labels),
        None => false,
    }
}

// Whether the octets are laid out as a save is.
pub fn is_written(octets: &[u8], second: bool) -> bool
    ensures { result ≡ written (form_of second) octets.now }
{
    if !is_head(octets, second) {
        return false;
    }
    let head = save_forms::head_size(second);
    let routes = octets::at(octets, 11) as usize;
    routes_written(octets, head, routes) && rows_written(octets, head + routes * ROUTE_SIZE, second)
}
