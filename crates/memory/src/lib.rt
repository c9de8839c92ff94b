// The card's memory: its head, and the texts and rows in it. The memory is two lent arrays; specs/Memory.antt says which card they
// denote, and docs/MEMORY.md draws them. A function that sees the numbers alone speaks of every content of the octets.
#![tactic(auto)]

ghost use Rattle.std.specs.Prelude.{◌≡◌, true, false, List, ◌∷◌, ℕ, ◌+◌, ◌-◌, ◌≤◌, ◌<◌, length, replicate};
ghost use Rattle.meaning.specs.Octets.{same};
ghost use Rattle.meaning.specs.Card.{turn, with_next, with_last, label_count, route_limit, tree_limit, most_base};
ghost use Rattle.memory.specs.Sizes.{Numbers, Names, name_space};
ghost use Rattle.memory.specs.Parts.{Written, Closed};
ghost use Rattle.memory.specs.Memory.{card_of, base_in, label_before, tree_count, route_count, text_at, Column, in_column, tree_name};
ghost use Rattle.meaning.specs.Wire.{least_label};

use meaning::{
    LABEL_COUNT, LEAST_LABEL, MOST_BASE, NAME_LIMIT, NEIGHBOUR_COUNT, ROOT_LIMIT, ROUTE_LIMIT,
    TREE_LIMIT,
};

// The sizes, and where each column begins: the same as specs/Sizes.antt says, to which the proofs hold them. Contracts speak of those.
pub const ROOT_SPACE: usize = 1 + ROOT_LIMIT;

pub const NAME_SPACE: usize = 1 + NAME_LIMIT;

pub const TURN_PLACE: usize = 4;

pub const ROUTE_COLUMN: usize = TURN_PLACE + 1;

pub const OWN_COLUMN: usize = ROUTE_COLUMN + ROUTE_LIMIT;

pub const ROW_WIDTH: usize = 1 + NEIGHBOUR_COUNT;

pub const ROW_COLUMN: usize = OWN_COLUMN + TREE_LIMIT;

pub const BRANCH_COLUMN: usize = ROW_COLUMN + 1;

pub const MARK_COLUMN: usize = ROW_COLUMN + TREE_LIMIT * ROW_WIDTH;

pub const WORD_COLUMN: usize = MARK_COLUMN + LABEL_COUNT;

pub const SECOND_WORD: usize = WORD_COLUMN + 1;

pub const THIRD_WORD: usize = WORD_COLUMN + 2;

pub const FOURTH_WORD: usize = WORD_COLUMN + 3;

pub const NUMBER_COUNT: usize = WORD_COLUMN + LABEL_COUNT / 64;

pub const LABEL_NAMES: usize = TREE_LIMIT * NAME_SPACE;

pub const ROOT_NAMES: usize = LABEL_NAMES + LABEL_COUNT * NAME_SPACE;

pub const OCTET_COUNT: usize = ROOT_NAMES + ROUTE_LIMIT * ROOT_SPACE;
// the limits in the width of a number of the memory
pub const TREES: u64 = TREE_LIMIT as u64;

pub const ROUTES: u64 = ROUTE_LIMIT as u64;

pub const LABELS: u64 = LABEL_COUNT as u64;

pub const NEIGHBOURS: u64 = NEIGHBOUR_COUNT as u64;
// Kept: a number that stands for none, here and behind, and a place that is the number of all: a save and C see these numbers, and the
// definitions speak of them.
// a route that leads nowhere, and in the place of a neighbour's number: nobody
pub const NO_ROUTE: u64 = NEIGHBOURS + 1;

pub const NOBODY: u64 = NO_ROUTE;
// a place in a row that is no neighbour's
pub const NO_NEIGHBOUR: usize = NEIGHBOUR_COUNT;
// in the own column: no label; in a mark: a place where no tree stands
pub const NO_LABEL: u64 = LABEL_COUNT as u64;

pub const NOWHERE: u64 = 256 * TREE_LIMIT as u64;

pub fn base(numbers: &[u64]) -> u64
    requires { Numbers numbers.now }
    ensures { (result ≡ base_in numbers.now) × (least_label ≤ result) × (result ≤ most_base) }
{
    let b = numbers[0];
    if b < LEAST_LABEL || MOST_BASE < b {
        return LEAST_LABEL;
    }
    b
}

pub fn next_id(numbers: &[u64]) -> u32
    requires { Numbers numbers.now }
    ensures { (os : List ℕ) → result ≡ (card_of numbers.now os).next }
{
    (numbers[1] % 4294967296) as u32
}

pub fn set_next_id(numbers: &mut [u64], id: u32)
    requires { Numbers numbers.old }
    ensures { (os : List ℕ) → card_of numbers.new os ≡ with_next id (card_of numbers.old os) }
{
    numbers[1] = id as u64;
}

// The place of the block at which the search for a free label begins: that after the last one given.
pub fn turn(numbers: &[u64]) -> usize
    requires { Numbers numbers.now }
    ensures { ((os : List ℕ) → result ≡ turn (card_of numbers.now os)) × (result ≤ label_count) }
{
    let v = numbers[TURN_PLACE];
    if LABELS < v { 0 } else { v as usize }
}

// The label before place v of the block was given last; none where v is 0.
pub fn set_turn(numbers: &mut [u64], v: usize)
    requires { Numbers numbers.old }
    ensures { (os : List ℕ) → card_of numbers.new os ≡ with_last (label_before (base_in numbers.old) v) (card_of numbers.old os) }
{
    numbers[TURN_PLACE] = v as u64;
}

pub fn route_count(numbers: &[u64]) -> usize
    requires { Numbers numbers.now }
    ensures { (result ≡ route_count numbers.now) × (result ≤ route_limit) }
{
    let n = numbers[2];
    if n < ROUTES { n as usize } else { ROUTE_LIMIT }
}

pub fn tree_count(numbers: &[u64]) -> usize
    requires { Numbers numbers.now }
    ensures { (result ≡ tree_count numbers.now) × (result ≤ tree_limit) }
{
    let n = numbers[3];
    if n < TREES { n as usize } else { TREE_LIMIT }
}

// The text that stands at place a: its length, at most k, and then its octets.
pub fn text(names: &[u8], k: usize, a: usize) -> &[u8]
    requires { a + 1 + k ≤ length names.now }
    ensures { (result.now ≡ text_at k names.now a) × (length result.now ≤ k) }
{
    let n = names[a] as usize;
    let s = a + 1;
    if n < k {
        let e = s + n;
        return &names[s..e];
    }
    let e = s + k;
    &names[s..e]
}

// Whether the text at place a may be s: false only where it is not. The last four octets of s are asked for where they would stand:
// that is one comparison, and tells most texts apart. Where the four agree the length is asked for: most of those texts have another.
pub fn may_be(names: &[u8], k: usize, a: usize, s: &[u8]) -> bool
    requires { a + 1 + k ≤ length names.now }
    ensures { result ≡ false → same (text_at k names.now a) s.now ≡ false }
{
    let n = s.len();
    if n < 4 || k < n {
        return true;
    }
    octets::equal_four(names, a + n - 3, s, n - 4) && text(names, k, a).len() == n
}

// Of the texts of a column the first from the ith on and before the nth that may be s; n where none may. A loop that calls nothing is a
// quick one.
fn next_like(names: &[u8], k: usize, from: usize, i: usize, n: usize, s: &[u8]) -> usize
    requires { Names names.now × (i ≤ n) × Column k from n }
    ensures { (i ≤ result) × (result ≤ n) × ((j : ℕ) → i ≤ j → j < result → same (in_column k from names.now j) s.now ≡ false) }
{
    let w = k + 1;
    let mut a = from + i * w;
    for j in i..n {
        if may_be(names, k, a, s) {
            return j;
        }
        a += w;
    }
    n
}

// The first of a column's n texts that is s; n where none is. The part of s from its front to its end is lent on, and not s itself:
// compiled, a slice is two words that the caller has just written, and a copy of both at once would wait for them.
pub fn text_place(names: &[u8], k: usize, from: usize, n: usize, s: &[u8]) -> usize
    requires { Names names.now × Column k from n }
    ensures { (result ≤ n) × ((j : ℕ) → j < result → same (in_column k from names.now j) s.now ≡ false)
        × (result < n → same (in_column k from names.now result) s.now ≡ true) }
{
    let e = s.len();
    let t = &s[..e];
    let mut i = 0;
    // Kept: i steps behind what was found; one loop with both comparisons took 8 to 10 instructions a text for 6 (docs/BENCHMARK.md).
    while i < n {
        let j = next_like(names, k, from, i, n, t);
        if n <= j {
            return n;
        }
        if octets::equal(text(names, k, from + j * (k + 1)), t) {
            return j;
        }
        i = j + 1;
    }
    n
}

// How many octets the name of the tree at place i takes of its space, with its length before it.
pub fn used_octets(names: &[u8], i: usize) -> usize
    requires { Names names.now × (i < tree_limit) }
    ensures { (result ≡ 1 + length (tree_name names.now i)) × (result ≤ name_space) }
{
    1 + text(names, NAME_LIMIT, i * NAME_SPACE).len()
}

// A text in its slot: its length, and then its octets.
pub fn set_text(names: &mut [u8], at: usize, text: &[u8])
    requires { (at + 1 + length text.now ≤ length names.old) × (length text.now < 256) }
    ensures { Written at (length text.now ∷ text.now) names.old names.new }
{
    names[at] = text.len() as u8;
    let f = at + 1;
    let e = f + text.len();
    octets::copy_text(&mut names[f..e], text);
}

// ---- rows

pub fn close_numbers(numbers: &mut [u64], a: usize, e: usize, w: usize)
    requires { (a + w ≤ e) × (e ≤ length numbers.old) }
    ensures { Closed a e w numbers.old numbers.new }
{
    octets::shift_numbers(&mut numbers[a..e], w);
}

pub fn close_octets(names: &mut [u8], a: usize, e: usize, w: usize)
    requires { (a + w ≤ e) × (e ≤ length names.old) }
    ensures { Closed a e w names.old names.new }
{
    octets::shift_octets(&mut names[a..e], w);
}

pub fn clear(numbers: &mut [u64], a: usize, k: usize)
    requires { a + k ≤ length numbers.old }
    ensures { Written a (replicate k 0) numbers.old numbers.new }
{
    let e = a + k;
    octets::zero(&mut numbers[a..e]);
}
