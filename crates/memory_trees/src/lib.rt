// Trees in the card's memory: what is asked of them.
#![tactic(auto)]

ghost use Rattle.std.specs.Prelude.{◌≡◌, true, false, ◌⊎◌, List, ℕ, ◌+◌, ◌≤◌, ◌<◌, length, get_or, set};
ghost use Rattle.meaning.specs.Octets.{pick, place, any, count};
ghost use Rattle.meaning.specs.Wire.{name_limit};
ghost use Rattle.meaning.specs.Card.{tree_place, tree_at, is_branch, held_for, carries, label_count, tree_limit, neighbour_count, nobody};
ghost use Rattle.memory.specs.Sizes.{Numbers, Names};
ghost use Rattle.memory.specs.Memory.{card_of, base_in, tree_count, tree_name, is_mapped_at, carries_at, own_place, StandsAt};

use meaning::{LABEL_COUNT, NAME_LIMIT, NEIGHBOUR_COUNT};
use memory::{
    BRANCH_COLUMN, MARK_COLUMN, NAME_SPACE, NEIGHBOURS, NOBODY, OWN_COLUMN, ROW_COLUMN, ROW_WIDTH,
};

// ---- marks

// Whether the tree at place i carries the label at place p.
fn carries_at(numbers: &[u64], i: usize, p: u64) -> bool
    requires { Numbers numbers.now }
    ensures { result ≡ carries_at numbers.now i p }
{
    let k = p as usize;
    if LABEL_COUNT <= k || memory_labels::mapped_at(numbers, k) == NOBODY {
        return false;
    }
    numbers[MARK_COLUMN + k] / 256 == i as u64
}

// ---- trees

// Whether the tree at place i carries the label that it has for its own.
pub fn own_counts(numbers: &[u64], i: usize) -> bool
    requires { Numbers numbers.now × (i < tree_limit) }
    ensures { result ≡ carries_at numbers.now i (own_place numbers.now i) }
{
    carries_at(numbers, i, numbers[OWN_COLUMN + i])
}

pub fn tree_label(numbers: &[u64], i: usize) -> u64
    requires { Numbers numbers.now × StandsAt numbers.now i }
    ensures { (os : List ℕ) → result ≡ (tree_at i (card_of numbers.now os)).label }
{
    if own_counts(numbers, i) {
        memory::base(numbers) + numbers[OWN_COLUMN + i]
    } else {
        0
    }
}

pub fn is_leaf(numbers: &[u64], i: usize) -> bool
    requires { Numbers numbers.now × StandsAt numbers.now i }
    ensures { (os : List ℕ) → result ≡ (tree_at i (card_of numbers.now os)).leaf }
{
    numbers[ROW_COLUMN + i * ROW_WIDTH] != 0
}

pub fn branch(numbers: &[u64], i: usize, n: usize) -> u64
    requires { Numbers numbers.now × (n < neighbour_count) × StandsAt numbers.now i }
    ensures { (os : List ℕ) → result ≡ get_or (tree_at i (card_of numbers.now os)).branches n 0 }
{
    numbers[BRANCH_COLUMN + i * ROW_WIDTH + n]
}

// The sixteen branches, all read before the caller writes one: so a lookup makes no copy on the way to the lent array.
pub fn branches(numbers: &[u64], i: usize) -> [u64; NEIGHBOUR_COUNT]
    requires { Numbers numbers.now × StandsAt numbers.now i }
    ensures { (os : List ℕ) → result ≡ (tree_at i (card_of numbers.now os)).branches }
{
    let a = BRANCH_COLUMN + i * ROW_WIDTH;
    let mut all = [0; NEIGHBOUR_COUNT];
    for n in 0..NEIGHBOUR_COUNT {
        all[n] = numbers[a + n];
    }
    all
}

// Whether x is a branch, as a number.
pub fn one(x: u64) -> u64
    ensures { (result ≡ pick (is_branch x) 1 0) × (result ≤ 1) }
{
    u64::from(x != 0)
}

// How many branches the tree has. All sixteen are read, and no step hangs on which of them stand: nothing foretells that. The places with
// none are counted and taken from all: compiled, a sum of zeros is half as many steps as one of branches.
pub fn branch_count(numbers: &[u64], i: usize) -> u64
    requires { Numbers numbers.now × StandsAt numbers.now i }
    ensures { ((os : List ℕ) → result ≡ count is_branch (tree_at i (card_of numbers.now os)).branches) × (result ≤ neighbour_count) }
{
    let mut none = 0;
    for n in 0..NEIGHBOUR_COUNT {
        none += u64::from(branch(numbers, i, n) == 0);
    }
    NEIGHBOURS - none
}

// How many of them are neighbour n's: one, or none. A number above 15 is nobody's.
pub fn count_of(numbers: &[u64], i: usize, n: usize) -> u64
    requires { Numbers numbers.now × StandsAt numbers.now i }
    ensures { ((os : List ℕ) → result ≡ pick (is_branch (get_or (tree_at i (card_of numbers.now os)).branches n 0)) 1 0) × (result ≤ 1) }
{
    if n < NEIGHBOUR_COUNT {
        return one(branch(numbers, i, n));
    }
    0
}

// A function of its own: compiled, a place with no branch then takes two steps of `any_other`, where tests in one condition took six.
fn is_other(k: usize, n: usize, but: usize) -> bool
    ensures { (result ≡ true → (k ≡ n → ⊥) × (k ≡ but → ⊥)) × (result ≡ false → (k ≡ n) ⊎ (k ≡ but)) }
{
    k != n && k != but
}

// Whether the tree has a branch of another neighbour than n and `but`. Most have one of a low number, and the first ends the search.
fn any_other(numbers: &[u64], i: usize, n: usize, but: usize) -> bool
    requires { Numbers numbers.now × StandsAt numbers.now i }
    ensures { (os : List ℕ) → result ≡ any is_branch (set (set (tree_at i (card_of numbers.now os)).branches n 0) but 0) }
{
    for k in 0..NEIGHBOUR_COUNT {
        if branch(numbers, i, k) != 0 && is_other(k, n, but) {
            return true;
        }
    }
    false
}

// Whether the tree has a branch, once that of neighbour n is x (NO_NEIGHBOUR: nobody's changes), apart from that of neighbour `but` (NO_NEIGHBOUR: none apart).
pub fn any_branch(numbers: &[u64], i: usize, n: usize, x: u64, but: usize) -> bool
    requires { Numbers numbers.now × StandsAt numbers.now i }
    ensures { (os : List ℕ) → result ≡ any is_branch (set (set (tree_at i (card_of numbers.now os)).branches n x) but 0) }
{
    if x != 0 && n < NEIGHBOUR_COUNT && n != but {
        return true;
    }
    any_other(numbers, i, n, but)
}

pub fn tree_name(names: &[u8], i: usize) -> &[u8]
    requires { Names names.now × (i < tree_limit) }
    ensures { ((ns : List ℕ) → i < tree_count ns → result.now ≡ (tree_at i (card_of ns names.now)).name) × (length result.now ≤ name_limit) × (result.now ≡ tree_name names.now i) }
{
    memory::text(names, NAME_LIMIT, i * NAME_SPACE)
}

// The place of the tree of that name; the number of trees where it does not stand. The part from the front to the end is lent on, as in
// `memory_routes::route_place`.
pub fn tree_place(numbers: &[u64], names: &[u8], name: &[u8]) -> usize
    requires { Numbers numbers.now × Names names.now }
    ensures { (result ≡ tree_place name.now (card_of numbers.now names.now)) × (result ≤ tree_count numbers.now) × (result ≤ tree_limit) }
{
    let n = memory::tree_count(numbers);
    let e = name.len();
    memory::text_place(names, NAME_LIMIT, 0, n, &name[..e])
}

// ---- labels

// The neighbour for which the tree at place i holds its label; 17 for none.
pub fn held_for(numbers: &[u64], i: usize) -> u64
    requires { Numbers numbers.now × StandsAt numbers.now i }
    ensures { ((os : List ℕ) → (let c = card_of numbers.now os in result ≡ held_for c (tree_at i c))) × (result ≤ nobody) }
{
    if own_counts(numbers, i) {
        memory_labels::mapped_at(numbers, numbers[OWN_COLUMN + i] as usize)
    } else {
        NOBODY
    }
}

// The place of the tree that carries the label at place p of the block, which is mapped; the number of trees where none does. The
// label's mark names it.
pub fn carrier_at(numbers: &[u64], p: usize) -> usize
    requires { Numbers numbers.now × (p < label_count) × (is_mapped_at numbers.now p ≡ true) }
    ensures { ((os : List ℕ) (label : ℕ) → label ≡ base_in numbers.now + p → result ≡ place (carries label) (card_of numbers.now os).trees)
        × (result ≤ tree_count numbers.now) × (result ≤ tree_limit) }
{
    let n = memory::tree_count(numbers);
    let i = (numbers[MARK_COLUMN + p] / 256) as usize;
    if n <= i || numbers[OWN_COLUMN + i] != p as u64 {
        return n;
    }
    i
}
