// The text of an answer: a line of the bench program, laid to the front of a lent text part by part.
// Kept: each part takes the text and a place, and gives the place behind it: the text is the program's (no heap), and a line is defined part after part.
#![tactic(auto)]

ghost use Rattle.std.specs.Prelude.{◌+◌, ◌*◌, ◌≤◌, ◌≡◌, [], ◌∷◌, ◌++◌, length, take};
ghost use Rattle.meaning.specs.Octets.{pick};
ghost use Rattle.meaning.specs.Card.{branches_from, neighbour_count};
ghost use Rattle.meaning_save.specs.Save.{new, save_limit};
ghost use Rattle.bench_words.specs.Words.{numeral, hex_of};
ghost use Rattle.meaning.specs.Calls.{feed_in};
ghost use Rattle.bench_lines.specs.Text.{count_line, records_behind, event_line, branches_as, feed_text, feed_line, Adds, text_space, number_space, branch_words_space, branch_space, branches_space, feed_space};

use meaning::{NEIGHBOUR_COUNT, SAVE_DIGITS};

// The space of a line's text, as `text_space` in specs/Text.antt.
pub const TEXT_SPACE: usize = SAVE_DIGITS + 418;

// The spaces of parts of a line, by their names in specs/Text.antt.
pub const NUMBER_SPACE: usize = 20;

const BRANCH_WORDS_SPACE: usize = 27;

const BRANCH_SPACE: usize = BRANCH_WORDS_SPACE + 2 * NUMBER_SPACE;

const LEAF_SPACE: usize = 13;

const NOTHING_SPACE: usize = 12;

pub const FEED_SPACE: usize = LEAF_SPACE + NEIGHBOUR_COUNT * BRANCH_SPACE + NOTHING_SPACE;

// ---- parts of a line

pub fn add(text: &mut [u8], at: usize, part: &[u8]) -> usize
    requires { at + length part.now ≤ length text.old }
    ensures { Adds part.now text.old text.new at result }
{
    at + bench_words::put_text(&mut text[at..], part)
}

pub fn add_number(text: &mut [u8], at: usize, n: u64) -> usize
    requires { at + number_space ≤ length text.old }
    ensures adds { Adds (numeral n) text.old text.new at result }
    ensures upper_bound { result ≤ at + number_space }
{
    at + bench_words::put_number(&mut text[at..], n)
}

// A word, and a number behind it.
pub fn add_named(text: &mut [u8], at: usize, word: &[u8], n: u64) -> usize
    requires { at + length word.now + number_space ≤ length text.old }
    ensures adds { Adds (word.now ++ numeral n) text.old text.new at result }
    ensures upper_bound { result ≤ at + length word.now + number_space }
{
    let at = add(text, at, word);
    add_number(text, at, n)
}

pub fn add_hex(text: &mut [u8], at: usize, octets: &[u8]) -> usize
    requires { at + length octets.now * 2 ≤ length text.old }
    ensures adds { Adds (hex_of octets.now) text.old text.new at result }
    ensures value { result ≡ at + length octets.now * 2 }
{
    at + bench_words::put_hex(&mut text[at..], octets)
}

// A word and the records' octets, or nothing where there are none.
pub fn add_records(text: &mut [u8], at: usize, word: &[u8], records: &[u8]) -> usize
    requires { at + length word.now + length records.now * 2 ≤ length text.old }
    ensures adds { Adds (records_behind word.now records.now) text.old text.new at result }
    ensures upper_bound { result ≤ at + length word.now + length records.now * 2 }
{
    if records.len() == 0 {
        return at;
    }
    let at = add(text, at, word);
    add_hex(text, at, records)
}

// A branch, a word before each of its numbers, or nothing where there is no label.
fn add_branch(
    text: &mut [u8],
    at: usize,
    before: &[u8],
    between: &[u8],
    neighbour: usize,
    label: u64,
) -> usize
    requires { (length before.now + length between.now ≤ branch_words_space) × (at + branch_space ≤ length text.old) }
    ensures adds { Adds (branches_as before.now between.now (branches_from neighbour (label ∷ []))) text.old text.new at result }
    ensures upper_bound { result ≤ at + branch_space }
{
    if label == 0 {
        return at;
    }
    let at = add_named(text, at, before, neighbour as u64);
    add_named(text, at, between, label)
}

fn add_branches(
    text: &mut [u8],
    from: usize,
    before: &[u8],
    between: &[u8],
    branches: &[u64],
) -> usize
    requires { (length before.now + length between.now ≤ branch_words_space) × (length branches.now ≤ neighbour_count) × (from + branches_space ≤ length text.old) }
    ensures adds { Adds (branches_as before.now between.now (branches_from 0 branches.now)) text.old text.new from result }
    ensures upper_bound { result ≤ from + branches_space }
{
    let mut at = from;
    for (i, &label) in branches.iter().enumerate() {
        at = add_branch(text, at, before, between, i, label);
    }
    at
}

pub fn add_sixteen(
    text: &mut [u8],
    at: usize,
    before: &[u8],
    between: &[u8],
    branches: &[u64; NEIGHBOUR_COUNT],
) -> usize
    requires { (length before.now + length between.now ≤ branch_words_space) × (at + branches_space ≤ length text.old) }
    ensures adds { Adds (branches_as before.now between.now (branches_from 0 branches.now)) text.old text.new at result }
    ensures upper_bound { result ≤ at + branches_space }
{
    add_branches(text, at, before, between, branches)
}

// A part, or nothing.
pub fn add_if(text: &mut [u8], at: usize, wanted: bool, part: &[u8]) -> usize
    requires { at + length part.now ≤ length text.old }
    ensures adds { Adds (pick wanted part.now []) text.old text.new at result }
    ensures upper_bound { result ≤ at + length part.now }
{
    if wanted {
        return add(text, at, part);
    }
    at
}

// The leaf mark and the branches, or that there is nothing.
fn add_feed(text: &mut [u8], start: usize, leaf: bool, branches: &[u64; NEIGHBOUR_COUNT]) -> usize
    requires { start + feed_space ≤ length text.old }
    ensures adds { Adds (feed_text (feed_in branches.now leaf)) text.old text.new start result }
    ensures upper_bound { result ≤ start + feed_space }
{
    let at = add_if(text, start, leaf, b" leaf");
    let at = add_sixteen(text, at, b" ", b":", branches);
    add_if(text, at, at == start, b" nothing")
}

// ---- lines

// `WORD N`
pub fn put_count(text: &mut [u8], word: &[u8], n: u64) -> usize
    requires { length word.now + 22 ≤ length text.old }
    ensures text_after { take result text.new ≡ count_line word.now n }
    ensures upper_bound { result ≤ length word.now + 22 }
{
    let at = add(text, 0, word);
    let at = add_named(text, at, b" ", n);
    add(text, at, b"\n")
}

// `WORD ANSWER`, and the records' octets where there are any. A save is the longest that is written so.
pub fn put_event(text: &mut [u8], word: &[u8], answer: u32, records: &[u8]) -> usize
    requires { (length word.now ≤ 8) × (length records.now ≤ save_limit new) × (text_space ≤ length text.old) }
    ensures text_after { take result text.new ≡ event_line word.now answer records.now }
    ensures upper_bound { result ≤ text_space }
{
    let at = add(text, 0, word);
    let at = add_named(text, at, b" ", answer as u64);
    let at = add_records(text, at, b" ", records);
    add(text, at, b"\n")
}

pub fn put_feed(
    text: &mut [u8],
    word: &[u8],
    leaf: bool,
    branches: &[u64; NEIGHBOUR_COUNT],
) -> usize
    requires { (length word.now ≤ 8) × (text_space ≤ length text.old) }
    ensures text_after { take result text.new ≡ feed_line word.now (feed_in branches.now leaf) }
    ensures upper_bound { result ≤ text_space }
{
    let at = add(text, 0, word);
    let at = add_feed(text, at, leaf, branches);
    add(text, at, b"\n")
}
