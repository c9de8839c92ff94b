// One line of the bench program: the order that its words make.
#![tactic(auto)]

ghost use Rattle.std.specs.Prelude.{◌≡◌, ℕ, List, [], ◌∷◌, ◌≤◌, length, drop, None, Some};
ghost use Rattle.bench_words.specs.Words.{words, is_hex};
ghost use Rattle.bench_words.specs.Scan.{Within, text_of, number_in};
ghost use Rattle.bench_verbs.specs.Line.{is_save_hex, does, order_of};
ghost use Rattle.meaning.specs.Octets.{pick};
ghost use Rattle.meaning_save.specs.Save.{form_of};
ghost use Rattle.bench_orders.specs.Tells.{Tells, TellsIf};

use bench_verbs::Verb;
use bench_words::Word;
use meaning::{
    LABEL_COUNT, LAST_PLACE, ROUTE_LIMIT, ROUTE_SIZE, SAVE_DIGITS, SPACED_NAME, TREE_BESIDE,
    TREE_LIMIT, USE_BESIDE,
};

// the longest save of the old form, and its digits in hex
pub const OLD_SAVE_LIMIT: usize = LAST_PLACE
    + ROUTE_LIMIT * ROUTE_SIZE
    + TREE_LIMIT * (TREE_BESIDE + SPACED_NAME)
    + LABEL_COUNT * (USE_BESIDE + SPACED_NAME);

const OLD_SAVE_DIGITS: usize = 2 * OLD_SAVE_LIMIT;

// the longest line
pub const LINE_LIMIT: usize = 131072;

// What a line orders. `hex`, `root`, `eight` and `sets` are where words of HEX lie in the line. `second` says that a save is of the new form.
#[derive(Clone, Copy)]
pub enum Order {
    Blank,
    Bad,
    Start(u32),
    Room(u32),
    Take {
        neighbour: u32,
        hex: Word,
    },
    Join(Word),
    Leave(Word),
    Route {
        hex: Word,
        route: u32,
    },
    Label(u32),
    Tree(Word),
    Free,
    Notice {
        neighbour: u32,
        number: u32,
        hex: Word,
    },
    Save(bool),
    Restore {
        second: bool,
        hex: Word,
    },
    Lost(u32),
    Move {
        second: bool,
        hex: Word,
    },
    Layers(Word),
    Wrap {
        root: Word,
        eight: Word,
        hex: Word,
    },
    Unwrap(Word),
    Plan {
        neighbour: u32,
        hex: Word,
    },
    Vet {
        neighbour: u32,
        sets: Word,
        hex: Word,
    },
}

// ---- one word

fn number_at(line: &[u8], word: Word) -> Option<u32>
    requires { Within word line.now }
    ensures { result ≡ number_in (text_of word line.now) }
{
    bench_words::read_number(word.of(line))
}

// The word itself, if it is HEX.
fn hex_at(line: &[u8], word: Word) -> Option<Word>
    requires { Within word line.now }
    ensures { result ≡ pick (is_hex (text_of word line.now)) (Some word) None }
{
    if bench_words::is_hex(word.of(line)) {
        Some(word)
    } else {
        None
    }
}

// The same, if it is HEX of no more octets than the longest save of the form.
fn save_at(line: &[u8], second: bool, word: Word) -> Option<Word>
    requires { Within word line.now }
    ensures { result ≡ pick (is_save_hex (form_of second) (text_of word line.now)) (Some word) None }
{
    let most = if second { SAVE_DIGITS } else { OLD_SAVE_DIGITS };
    if bench_words::is_hex_to(word.of(line), most) {
        Some(word)
    } else {
        None
    }
}

// ---- a verb with the words behind it: no order, where they are not what it takes

fn with_none(verb: Verb) -> Option<Order>
    ensures { (l : List ℕ) → TellsIf l (does verb []) result }
{
    match verb {
        Verb::Free => Some(Order::Free),
        Verb::Save(second) => Some(Order::Save(second)),
        _ => None,
    }
}

fn with_one(line: &[u8], verb: Verb, word: Word) -> Option<Order>
    requires { Within word line.now }
    ensures { TellsIf line.now (does verb (text_of word line.now ∷ [])) result }
{
    match verb {
        Verb::Start => Some(Order::Start(number_at(line, word)?)),
        Verb::Room => Some(Order::Room(number_at(line, word)?)),
        Verb::Label => Some(Order::Label(number_at(line, word)?)),
        Verb::Lost => Some(Order::Lost(number_at(line, word)?)),
        Verb::Join => Some(Order::Join(hex_at(line, word)?)),
        Verb::Leave => Some(Order::Leave(hex_at(line, word)?)),
        Verb::Tree => Some(Order::Tree(hex_at(line, word)?)),
        Verb::Layers => Some(Order::Layers(hex_at(line, word)?)),
        Verb::Unwrap => Some(Order::Unwrap(hex_at(line, word)?)),
        Verb::Restore(second) => Some(Order::Restore {
            second,
            hex: save_at(line, second, word)?,
        }),
        Verb::Move(second) => Some(Order::Move {
            second,
            hex: save_at(line, second, word)?,
        }),
        _ => None,
    }
}

fn with_two(line: &[u8], verb: Verb, first: Word, second: Word) -> Option<Order>
    requires { Within first line.now × Within second line.now }
    ensures { TellsIf line.now (does verb (text_of first line.now ∷ text_of second line.now ∷ [])) result }
{
    match verb {
        Verb::Take => Some(Order::Take {
            neighbour: number_at(line, first)?,
            hex: hex_at(line, second)?,
        }),
        Verb::Route => Some(Order::Route {
            hex: hex_at(line, first)?,
            route: number_at(line, second)?,
        }),
        Verb::Plan => Some(Order::Plan {
            neighbour: number_at(line, first)?,
            hex: hex_at(line, second)?,
        }),
        _ => None,
    }
}

fn with_three(line: &[u8], verb: Verb, first: Word, second: Word, third: Word) -> Option<Order>
    requires { Within first line.now × Within second line.now × Within third line.now }
    ensures { TellsIf line.now (does verb (text_of first line.now ∷ text_of second line.now ∷ text_of third line.now ∷ [])) result }
{
    match verb {
        Verb::Notice => Some(Order::Notice {
            neighbour: number_at(line, first)?,
            number: number_at(line, second)?,
            hex: hex_at(line, third)?,
        }),
        Verb::Wrap => Some(Order::Wrap {
            root: hex_at(line, first)?,
            eight: hex_at(line, second)?,
            hex: hex_at(line, third)?,
        }),
        Verb::Vet => Some(Order::Vet {
            neighbour: number_at(line, first)?,
            sets: hex_at(line, second)?,
            hex: hex_at(line, third)?,
        }),
        _ => None,
    }
}

// The words from a place on.
fn with_words(line: &[u8], verb: Verb, at: usize) -> Option<Order>
    requires { at ≤ length line.now }
    ensures { TellsIf line.now (does verb (words (drop at line.now))) result }
{
    let first = bench_words::next_word(line, at);
    if first.is_empty() {
        return with_none(verb);
    }
    let second = bench_words::next_word(line, first.end);
    if second.is_empty() {
        return with_one(line, verb, first);
    }
    let third = bench_words::next_word(line, second.end);
    if third.is_empty() {
        return with_two(line, verb, first, second);
    }
    let fourth = bench_words::next_word(line, third.end);
    if fourth.is_empty() {
        return with_three(line, verb, first, second, third);
    }
    None
}

// What a line says.
pub fn read_order(line: &[u8]) -> Order
    ensures { Tells line.now (order_of line.now) result }
{
    if LINE_LIMIT < line.len() {
        return Order::Bad;
    }
    let word = bench_words::next_word(line, 0);
    if word.is_empty() {
        return Order::Blank;
    }
    with_words(line, bench_verbs::verb_of(word.of(line)), word.end).unwrap_or(Order::Bad)
}
