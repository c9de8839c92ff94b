// Reads a save in hex from standard input, and prints the layers of its trees, a line for each.
#![tactic(auto)]

ghost use Rattle.std.specs.Prelude.{◌≡◌, [], ◌∷◌, ◌++◌, ◌+◌, ◌*◌, ◌≤◌, ◌<◌, length, take};
ghost use Rattle.meaning.specs.Wire.{element_refusal};
ghost use Rattle.meaning.specs.Card.{lookup_name, tree_at};
ghost use Rattle.meaning.specs.Calls.{feed_in};
ghost use Rattle.meaning_save.specs.Save.{new, save_limit};
ghost use Rattle.memory.specs.Sizes.{Numbers, Names};
ghost use Rattle.memory.specs.Memory.{card_of, StandsAt};
ghost use Rattle.bench_words.specs.Words.{octets_of};
ghost use Rattle.bench_lines.specs.Text.{Adds, feed_space};
ghost use Rattle.layers.specs.TreeText.{label_words, feed_words, tree_line, label_space, line_space};
ghost use Rattle.layers.specs.Shown.{table_text, no_save, shown_of, hex_in, shown, shown_space, AllNamed, Shows};

use bench_lines::{FEED_SPACE, NUMBER_SPACE};
use meaning::{NAME_LIMIT, NEIGHBOUR_COUNT, SAVE_DIGITS, SAVE_LIMIT, TREE_LIMIT};
use memory::{NUMBER_COUNT, OCTET_COUNT};
use std::io;
use std::io::{Read, Write};

// The space of a line, as `line_space` in specs/TreeText.antt.
const LABEL_SPACE: usize = 8 + NUMBER_SPACE;

const LINE_SPACE: usize = 3 * NAME_LIMIT + LABEL_SPACE + FEED_SPACE + 1;

// The space of all lines, as `shown_space` in specs/Shown.antt.
const SHOWN_SPACE: usize = TREE_LIMIT * LINE_SPACE;

// the longest save's digits and the line's end, and one octet more: an input that fills it is no save, and what follows changes nothing
const INPUT_SPACE: usize = SAVE_DIGITS + 2;

// ---- one line, at a place of a lent text: the layers of a tree's name, its label and what it leads to

fn add_label(text: &mut [u8], at: usize, label: u64) -> usize
    requires { at + label_space ≤ length text.old }
    ensures adds { Adds (label_words label) text.old text.new at result }
    ensures upper_bound { result ≤ at + label_space }
{
    if label == 0 {
        return bench_lines::add(text, at, b": no label");
    }
    bench_lines::add_named(text, at, b": label ", label)
}

fn add_feed(text: &mut [u8], start: usize, leaf: bool, branches: &[u64; NEIGHBOUR_COUNT]) -> usize
    requires { start + feed_space ≤ length text.old }
    ensures adds { Adds (feed_words (feed_in branches.now leaf)) text.old text.new start result }
    ensures upper_bound { result ≤ start + feed_space }
{
    let at = bench_lines::add_if(text, start, leaf, b", to the leaf");
    let at = bench_lines::add_sixteen(text, at, b", to neighbour ", b" with label ", branches);
    bench_lines::add_if(text, at, at == start, b", to nothing")
}

// What the tree of that name leads to, and the line's end.
fn add_leads(text: &mut [u8], at: usize, numbers: &[u64], names: &[u8], name: &[u8]) -> usize
    requires { Numbers numbers.now × Names names.now × (at + feed_space + 1 ≤ length text.old) }
    ensures adds { Adds (feed_words (lookup_name name.now (card_of numbers.now names.now)) ++ (10 ∷ []))
        text.old text.new at result }
    ensures upper_bound { result ≤ at + feed_space + 1 }
{
    let mut branches = [0u64; NEIGHBOUR_COUNT];
    let leaf = card_lookups::find_name(numbers, names, name, &mut branches);
    let at = add_feed(text, at, leaf, &branches);
    bench_lines::add(text, at, b"\n")
}

// The line of the tree at place i.
fn add_tree(text: &mut [u8], at: usize, numbers: &[u64], names: &[u8], i: usize) -> usize
    requires { Numbers numbers.now × Names names.now × (element_refusal (tree_at i (card_of numbers.now names.now)).name ≡ 0) × (at + line_space ≤ length text.old) × StandsAt numbers.now i }
    ensures fact { let c = card_of numbers.now names.now in
        Adds (tree_line c (tree_at i c)) text.old text.new at result }
    ensures upper_bound { result ≤ at + line_space }
{
    let name = memory_trees::tree_name(names, i);
    let at = bench_layers::add_layers(text, at, name);
    let at = add_label(text, at, memory_trees::tree_label(numbers, i));
    add_leads(text, at, numbers, names, name)
}

// ---- what is printed for what was read, at the front of a lent text

// A line for each tree, oldest first.
fn put_trees(text: &mut [u8], numbers: &[u64], names: &[u8]) -> usize
    requires { Numbers numbers.now × Names names.now × AllNamed (card_of numbers.now names.now) × (shown_space ≤ length text.old) }
    ensures text_after { take result text.new ≡ table_text (card_of numbers.now names.now) }
    ensures upper_bound { result ≤ shown_space }
{
    let n = memory::tree_count(numbers);
    let mut at = 0;
    for i in 0..n {
        at = add_tree(text, at, numbers, names, i);
    }
    at
}

fn put_refused(text: &mut [u8]) -> usize
    requires { shown_space ≤ length text.old }
    ensures text_after { take result text.new ≡ no_save }
    ensures upper_bound { result ≤ shown_space }
{
    bench_lines::put_count(text, b"refused", 19)
}

// Whether the octets are a save of either form, and its card in the memory where they are. What is lent may hold anything before.
fn is_taken(octets: &[u8], numbers: &mut [u64], names: &mut [u8]) -> bool
    requires { Numbers numbers.old × Names names.old }
    ensures { Shows result (shown_of octets.now) (card_of numbers.new names.new) }
{
    save_reader::is_taken(octets, false, numbers, names)
        || save_reader::is_taken(octets, true, numbers, names)
}

// The HEX of an input.
fn hex_in(input: &[u8]) -> &[u8]
    ensures { result.now ≡ hex_in input.now }
{
    input.strip_suffix(b"\n").unwrap_or(input)
}

// The same of octets in HEX of no more digits than the longest save's.
fn is_taken_hex(hex: &[u8], octets: &mut [u8], numbers: &mut [u64], names: &mut [u8]) -> bool
    requires { (length hex.now ≤ 2 * save_limit new) × (save_limit new ≤ length octets.old) × Numbers numbers.old × Names names.old }
    ensures { Shows result (shown_of (octets_of hex.now)) (card_of numbers.new names.new) }
{
    let n = bench_words::decode_hex(hex, octets);
    is_taken(&octets[..n], numbers, names)
}

// The same of an input.
fn is_taken_input(input: &[u8], octets: &mut [u8], numbers: &mut [u64], names: &mut [u8]) -> bool
    requires { (save_limit new ≤ length octets.old) × Numbers numbers.old × Names names.old }
    ensures { Shows result (shown input.now) (card_of numbers.new names.new) }
{
    let hex = hex_in(input);
    bench_words::is_hex_to(hex, SAVE_DIGITS) && is_taken_hex(hex, octets, numbers, names)
}

// What is printed for an input. All that is lent may hold anything before, and but for the text anything after.
fn show(
    input: &[u8],
    octets: &mut [u8; SAVE_LIMIT],
    numbers: &mut [u64; NUMBER_COUNT],
    names: &mut [u8; OCTET_COUNT],
    text: &mut [u8; SHOWN_SPACE],
) -> usize
    ensures text_after { take result text.new ≡ shown input.now }
    ensures upper_bound { result ≤ shown_space }
{
    if is_taken_input(input, octets, numbers, names) {
        return put_trees(text, numbers, names);
    }
    put_refused(text)
}

// ---- the program

// Reads until the buffer is full or the input ends; a read that fails ends it.
fn read_full<R: Read>(from: &mut R, buffer: &mut [u8]) -> usize
    ensures { result ≤ length buffer.new }
{
    let mut done = 0;
    while done < buffer.len() {
        let Ok(n) = from.read(&mut buffer[done..]) else {
            return done;
        };
        if n == 0 {
            return done;
        }
        done += n;
    }
    done
}

fn write<W: Write>(to: &mut W, text: &[u8], end: usize) -> io::Result<()>
    requires { end ≤ length text.now }
{
    to.write_all(&text[..end])
}

fn print<W: Write>(to: &mut W, text: &[u8; SHOWN_SPACE], end: usize) -> io::Result<()>
    requires { end ≤ shown_space }
{
    write(to, text, end)
}

// Each has a function because the proof of `main` would work out its octets one by one.
fn blank_input() -> [u8; INPUT_SPACE] {
    [0; INPUT_SPACE]
}

fn blank_save() -> [u8; SAVE_LIMIT] {
    [0; SAVE_LIMIT]
}

fn blank_text() -> [u8; SHOWN_SPACE] {
    [0; SHOWN_SPACE]
}

fn main(rt: HostRuntime) -> io::Result<()> {
    let mut input = blank_input();
    let mut octets = blank_save();
    let mut numbers = [0u64; NUMBER_COUNT];
    let mut names = [0u8; OCTET_COUNT];
    let mut text = blank_text();
    let n = read_full(&mut rt.stdin(), &mut input);
    let end = show(
        &input[..n],
        &mut octets,
        &mut numbers,
        &mut names,
        &mut text,
    );
    print(&mut rt.stdout(), &text, end)
}
