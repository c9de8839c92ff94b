// All that is a lost neighbour's goes: its branches, its labels, the routes through it. Nothing is sent for it.
#![tactic(auto)]

ghost use Rattle.std.specs.Prelude.{◌≡◌, true, List, [], ℕ, ◌+◌, ◌*◌, ◌≤◌, ◌<◌, get_or, set, eqb};
ghost use Rattle.meaning.specs.Octets.{pick, cut};
ghost use Rattle.meaning.specs.Card.{no_entry, label_count, route_limit, tree_at, with_branch, with_routes, with_trees, with_labels, neighbour_count};
ghost use Rattle.meaning.specs.Events.{uses_without, recounted, recounted_without, routes_without, parted};
ghost use Rattle.memory.specs.Sizes.{Numbers, Names, word_count};
ghost use Rattle.memory.specs.Memory.{card_of, route_count, is_free_at, StandsAt};
ghost use Rattle.event_parted.specs.Parted.{branches_without, labels_without, is_of_at, Freed};

use meaning::LABEL_COUNT;
use memory::{MARK_COLUMN, NEIGHBOURS, WORD_COLUMN};

// ---- branches

// The tree at place i loses neighbour n's branch, where it has one, and is counted so.
fn end_branch(numbers: &mut [u64], names: &[u8], i: usize, n: usize)
    requires { Numbers numbers.old × Names names.now × (n < neighbour_count) × StandsAt numbers.old i }
    ensures { let c = card_of numbers.old names.now in let t = with_branch n 0 (tree_at i c) in
        card_of numbers.new names.now ≡ recounted (tree_at i c) t (with_trees (set c.trees i t) c) }
{
    if memory_trees::branch(numbers, i, n) == 0 {
        return;
    }
    let k = memory_counts::its_root(numbers, names, i);
    memory_counts::change_branch(numbers, i, k, n, 0);
}

// Every tree loses neighbour n's branch.
pub fn end_branches(numbers: &mut [u64], names: &[u8], n: usize)
    requires { Numbers numbers.old × Names names.now × (n < neighbour_count) }
    ensures { let c = card_of numbers.old names.now in card_of numbers.new names.now
        ≡ with_routes (recounted_without n c.trees c.routes) (with_trees (branches_without n c.trees) c) }
{
    for i in 0..memory::tree_count(numbers) {
        end_branch(numbers, names, i, n);
    }
}

// ---- labels

// Whether the label at place p of the block is neighbour n's: mapped to it, or awaiting its release.
fn is_of(numbers: &[u64], p: usize, n: u64) -> bool
    requires { Numbers numbers.now × (p < label_count) × (n < neighbour_count) }
    ensures { result ≡ is_of_at n numbers.now p }
{
    if memory_labels::is_free(numbers, p) {
        return false;
    }
    let u = numbers[MARK_COLUMN + p] % 256;
    u == n || u == NEIGHBOURS + n
}

fn free_one(numbers: &mut [u64], p: usize, n: u64)
    requires { Numbers numbers.old × (p < label_count) × (n < neighbour_count) }
    ensures { Freed n p (p + 1) numbers.old numbers.new }
{
    if is_of(numbers, p, n) {
        memory_free::set_free(numbers, p);
        return;
    }
}

// Whether all labels of word w are free, 64 to a word.
fn is_whole(numbers: &[u64], w: usize) -> bool
    requires { Numbers numbers.now × (w < word_count) }
    ensures { result ≡ true → (q : ℕ) → w * 64 ≤ q → q < w * 64 + 64 → is_free_at numbers.now q ≡ true }
{
    numbers[WORD_COLUMN + w] == 0xffff_ffff_ffff_ffff
}

// The labels of word w. Where all are free, none is looked at.
fn free_word(numbers: &mut [u64], w: usize, n: u64)
    requires { Numbers numbers.old × (w < word_count) × (n < neighbour_count) }
    ensures { Freed n (w * 64) (w * 64 + 64) numbers.old numbers.new }
{
    if is_whole(numbers, w) {
        return;
    }
    for p in w * 64..w * 64 + 64 {
        free_one(numbers, p, n);
    }
}

// Every label of neighbour n is free at once, mapped or awaiting. A tree whose label it was has none: a free label has no carrier.
pub fn free_labels(numbers: &mut [u64], n: u64)
    requires { Numbers numbers.old × (n < neighbour_count) }
    ensures { (os : List ℕ) → (let c = card_of numbers.old os in card_of numbers.new os
        ≡ with_trees (labels_without n c c.trees) (with_labels (uses_without n c.labels) c)) }
{
    for w in 0..LABEL_COUNT / 64 {
        free_word(numbers, w, n);
    }
}

// ---- routes

// The entry at place k goes where its route is through neighbour n.
fn end_route(numbers: &mut [u64], names: &mut [u8], k: usize, n: u64)
    requires { Numbers numbers.old × Names names.old × (k < route_count numbers.old) × (k < route_limit) }
    ensures { let c = card_of numbers.old names.old in card_of numbers.new names.new
        ≡ with_routes (pick (eqb (get_or c.routes k (no_entry [])).via n) (cut c.routes k) c.routes) c }
{
    if memory_routes::route_via(numbers, k) == n {
        memory_routes::remove_route(numbers, names, k);
        return;
    }
}

// From the last down: an entry that goes moves only those behind it, which have been looked at.
pub fn end_routes(numbers: &mut [u64], names: &mut [u8], n: u64)
    requires { Numbers numbers.old × Names names.old }
    ensures { let c = card_of numbers.old names.old in card_of numbers.new names.new ≡ with_routes (routes_without n c.routes) c }
{
    for k in (0..memory::route_count(numbers)).rev() {
        end_route(numbers, names, k, n);
    }
}

// ---- all of it

pub fn part_from(numbers: &mut [u64], names: &mut [u8], n: usize)
    requires { Numbers numbers.old × Names names.old × (n < neighbour_count) }
    ensures { card_of numbers.new names.new ≡ parted n (card_of numbers.old names.old) }
{
    end_branches(numbers, names, n);
    free_labels(numbers, n as u64);
    end_routes(numbers, names, n as u64);
}
