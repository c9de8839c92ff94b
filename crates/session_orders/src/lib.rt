// One line of the session box: the order of its own that its words make, or one of the bench.
#![tactic(auto)]

ghost use Rattle.std.specs.Prelude.{◌≡◌, ℕ, List, [], ◌∷◌, ◌≤◌, ◌<◌, length, drop};
ghost use Rattle.bench_words.specs.Words.{words};
ghost use Rattle.bench_words.specs.Scan.{Within, text_of};
ghost use Rattle.bench_verbs.specs.Line.{order_of};
ghost use Rattle.session_orders.specs.Told.{bench, number_hex, lone_number, may_offer, octets_by, pack_by, lost_by, told_of, stream_count, stream_for};
ghost use Rattle.session_orders.specs.Asks.{Gives, meant, InLine, Tells, TellsIf};

use bench_orders::LINE_LIMIT;
use bench_words::Word;

// Neighbours 0 to 3 have a stream.
pub const STREAM_COUNT: u32 = 4;

// What a line orders. `hex` is where the word of HEX lies in the line.
#[derive(Clone, Copy)]
pub enum Ask {
    Bench,
    Octets { neighbour: u32, hex: Word },
    Pack { neighbour: u32, hex: Word },
    Lost(u32),
}

// ---- the words behind the first, if that is all

// Two words, as a number and HEX.
fn pair_at(line: &[u8], first: Word, second: Word) -> Option<(u32, Word)>
    requires { Within first line.now × Within second line.now }
    ensures { Gives line.now (number_hex (text_of first line.now ∷ text_of second line.now ∷ [])) result }
{
    let number = bench_words::read_number(first.of(line))?;
    if bench_words::is_hex(second.of(line)) {
        Some((number, second))
    } else {
        None
    }
}

// A number and HEX from a place on.
fn number_hex(line: &[u8], at: usize) -> Option<(u32, Word)>
    requires { at ≤ length line.now }
    ensures { Gives line.now (number_hex (words (drop at line.now))) result }
{
    let first = bench_words::next_word(line, at);
    if first.is_empty() {
        return None;
    }
    let second = bench_words::next_word(line, first.end);
    if second.is_empty() {
        return None;
    }
    let third = bench_words::next_word(line, second.end);
    if third.is_empty() {
        return pair_at(line, first, second);
    }
    None
}

// A number from a place on.
fn lone_number(line: &[u8], at: usize) -> Option<u32>
    requires { at ≤ length line.now }
    ensures { result ≡ lone_number (words (drop at line.now)) }
{
    let first = bench_words::next_word(line, at);
    if first.is_empty() {
        return None;
    }
    let second = bench_words::next_word(line, first.end);
    if second.is_empty() {
        return bench_words::read_number(first.of(line));
    }
    None
}

// ---- the box's own orders; what is none of them is the bench's

// Neighbours 4 to 15 have no stream.
fn may_offer(neighbour: u32) -> bool
    ensures { result ≡ may_offer neighbour }
{
    neighbour < STREAM_COUNT || 15 < neighbour
}

fn with_octets(line: &[u8], at: usize) -> Option<Ask>
    requires { at ≤ length line.now }
    ensures { TellsIf line.now (octets_by (bench (order_of line.now)) (number_hex (words (drop at line.now)))) result }
{
    let (neighbour, hex) = number_hex(line, at)?;
    if may_offer(neighbour) {
        Some(Ask::Octets { neighbour, hex })
    } else {
        None
    }
}

fn with_pack(line: &[u8], at: usize) -> Option<Ask>
    requires { at ≤ length line.now }
    ensures { TellsIf line.now (pack_by (bench (order_of line.now)) (number_hex (words (drop at line.now)))) result }
{
    let (neighbour, hex) = number_hex(line, at)?;
    Some(Ask::Pack { neighbour, hex })
}

fn with_lost(line: &[u8], at: usize) -> Option<Ask>
    requires { at ≤ length line.now }
    ensures { TellsIf line.now (lost_by (bench (order_of line.now)) (lone_number (words (drop at line.now)))) result }
{
    let neighbour = lone_number(line, at)?;
    if neighbour < STREAM_COUNT {
        Some(Ask::Lost(neighbour))
    } else {
        None
    }
}

// One of them, if the line says one.
fn own_ask(line: &[u8]) -> Option<Ask>
    ensures { TellsIf line.now (told_of line.now) result }
{
    if LINE_LIMIT < line.len() {
        return None;
    }
    let word = bench_words::next_word(line, 0);
    if word.is_empty() {
        return None;
    }
    let verb = word.of(line);
    if octets::equal(verb, b"octets") {
        return with_octets(line, word.end);
    }
    if octets::equal(verb, b"pack") {
        return with_pack(line, word.end);
    }
    if octets::equal(verb, b"lost") {
        return with_lost(line, word.end);
    }
    None
}

// What a line says.
pub fn read_ask(line: &[u8]) -> Ask
    ensures { Tells line.now (told_of line.now) result }
{
    own_ask(line).unwrap_or(Ask::Bench)
}

// Whose stream an order is about: one of the four, and 0 where it is about none.
pub fn stream_of(ask: Ask) -> u32
    ensures by_index { (l : List ℕ) → result ≡ stream_for (meant l ask) }
    ensures by_index_2 { (l : List ℕ) → InLine l ask → result < stream_count }
{
    match ask {
        Ask::Octets { neighbour, .. } => {
            if neighbour < STREAM_COUNT {
                neighbour
            } else {
                0
            }
        }
        Ask::Lost(neighbour) => neighbour,
        _ => 0,
    }
}
