// What a line of the bench program is made of: words, decimal numbers, octets as HEX; and texts, numbers and octets written.
#![tactic(auto)]

ghost use Rattle.std.specs.Prelude.{◌≡◌, eqb, ◌+◌, ◌*◌, ◌/◌, ◌≤◌, ◌<◌, length, take};
ghost use Rattle.std.specs.List.{list_all, take_while};
ghost use Rattle.std.specs.Char.{is_ascii_hexdigit};
ghost use Rattle.bench_words.specs.Words.{is_gap, digit, is_hex_to, is_hex, octets_of};
ghost use Rattle.bench_words.specs.Words.{NextWord, numeral, glyph as glyphOf, hex_of, Puts};
ghost use Rattle.bench_words.specs.Scan.{Within, text_of, is_letter, number_in};

// The most octets that an order brings, a save aside, and their digits, as specs/Words.antt has them.
pub const INPUT_LIMIT: usize = 4096;

pub const HEX_LIMIT: usize = 2 * INPUT_LIMIT;

// ---- words

// A word of a line lies at `start..end`; where there is none the two are equal.
#[derive(Clone, Copy)]
pub struct Word {
    pub start: usize,
    pub end: usize,
}

impl Word {
    pub fn is_empty(self) -> bool
        ensures { result ≡ eqb self.start self.end }
    {
        self.start == self.end
    }

    // Its octets, of the line that it lies in.
    pub fn of(self, line: &[u8]) -> &[u8]
        requires { Within self line.now }
        ensures { result.now ≡ text_of self line.now }
    {
        &line[self.start..self.end]
    }
}

fn is_gap(c: u8) -> bool
    ensures { result ≡ is_gap c }
{
    c == b' ' || c == b'\t'
}

// A letter of a word: no gap, and no `#`.
fn is_letter(c: u8) -> bool
    ensures { result ≡ is_letter c }
{
    !(c == b'#' || is_gap(c))
}

// How many gaps stand at the front, and how many letters.
fn gaps(line: &[u8]) -> usize
    ensures { result ≡ length (take_while is_gap line.now) }
{
    line.iter().take_while(|c| is_gap(**c)).count()
}

fn letters(line: &[u8]) -> usize
    ensures { result ≡ length (take_while is_letter line.now) }
{
    line.iter().take_while(|c| is_letter(**c)).count()
}

pub fn next_word(line: &[u8], from: usize) -> Word
    requires { from ≤ length line.now }
    ensures { NextWord line.now from result.start result.end }
{
    let start = from + gaps(&line[from..]);
    Word {
        start,
        end: start + letters(&line[start..]),
    }
}

// A text, to the front of `out`.
pub fn put_text(out: &mut [u8], text: &[u8]) -> usize
    requires { length text.now ≤ length out.old }
    ensures { Puts text.now out.old out.new result }
{
    let n = text.len();
    out[..n].copy_from_slice(text);
    n
}

// ---- numbers

pub fn read_number(word: &[u8]) -> Option<u32>
    ensures { result ≡ number_in word.now }
{
    let mut value: u32 = 0;
    for c in word {
        if !c.is_ascii_digit() {
            return None;
        }
        value = value.checked_mul(10)?.checked_add(u32::from(*c - b'0'))?;
    }
    Some(value)
}

// n in decimal, to the front of `out`.
pub fn put_number(out: &mut [u8], n: u64) -> usize
    requires { 20 ≤ length out.old }
    ensures puts { Puts (numeral n) out.old out.new result }
    ensures upper_bound { result ≤ 20 }
{
    if n < 10 {
        out[0] = 48 + n as u8;
        return 1;
    }
    let k = put_number(out, n / 10);
    out[k] = 48 + (n % 10) as u8;
    k + 1
}

// ---- octets as HEX

fn digit_of(c: u8) -> u8
    ensures { (result ≡ digit c) × (result < 16) }
{
    match c {
        b'0'..=b'9' => c - b'0',
        b'A'..=b'F' => c - b'A' + 10,
        b'a'..=b'f' => c - b'a' + 10,
        _ => 0,
    }
}

fn all_hex_digits(word: &[u8]) -> bool
    ensures { result ≡ list_all is_ascii_hexdigit word.now }
{
    word.iter().all(|c| c.is_ascii_hexdigit())
}

// HEX of at most so many digits.
pub fn is_hex_to(word: &[u8], most: usize) -> bool
    ensures { result ≡ is_hex_to most word.now }
{
    octets::equal(word, b"-") || (word.len() <= most && word.len() % 2 == 0 && all_hex_digits(word))
}

pub fn is_hex(word: &[u8]) -> bool
    ensures { result ≡ is_hex word.now }
{
    is_hex_to(word, HEX_LIMIT)
}

// The octets of a word of HEX, to the front of `out`.
pub fn decode_hex(hex: &[u8], out: &mut [u8]) -> usize
    requires { length hex.now / 2 ≤ length out.old }
    ensures puts { Puts (octets_of hex.now) out.old out.new result }
    ensures upper_bound { (result ≤ length out.new) × (result ≡ length (take result out.new)) }
{
    let n = hex.len() / 2;
    for i in 0..n {
        out[i] = digit_of(hex[i * 2]) * 16 + digit_of(hex[i * 2 + 1]);
    }
    n
}

fn glyph(d: u8) -> u8
    requires { d < 16 }
    ensures { result ≡ glyphOf d }
{
    if d < 10 { b'0' + d } else { b'a' + (d - 10) }
}

// Octets as HEX in lower case, to the front of `out`.
pub fn put_hex(out: &mut [u8], octets: &[u8]) -> usize
    requires { length octets.now * 2 ≤ length out.old }
    ensures puts { Puts (hex_of octets.now) out.old out.new result }
    ensures value { result ≡ length octets.now * 2 }
{
    for (i, octet) in octets.iter().enumerate() {
        out[i * 2] = glyph(*octet / 16);
        out[i * 2 + 1] = glyph(*octet % 16);
    }
    octets.len() * 2
}
