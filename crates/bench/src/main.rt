// Reads orders from standard input, a line each, and writes one line for each order.
#![tactic(auto)]

ghost use Rattle.std.specs.Prelude.{◌≡◌, ℕ, ◌≤◌, List, length};
ghost use Rattle.memory.specs.Memory.{card_of};
ghost use Rattle.bench_verbs.specs.Line.{line_limit, order_of};
ghost use Rattle.bench_replies.specs.Reply.{reply_to, Answers};
ghost use Rattle.bench_input.specs.Kept.{Keeps};
ghost use Rattle.bench_input.specs.Input.{Stand, after, after_all};
ghost use Rattle.bench.specs.Input.{Seat, seat_after, Stands};
ghost use Rattle.bench_lines.specs.Text.{text_space};

use bench_answers::Answered;
use bench_input::{CHUNK_SPACE, Output, State};
use bench_lines::TEXT_SPACE;
use bench_orders::LINE_LIMIT;
use meaning::SAVE_LIMIT;
use memory::{NUMBER_COUNT, OCTET_COUNT};
use std::io;
use std::io::Write;

// the room that is lent before an order says less: that of the longest save
const WHOLE_ROOM: u32 = SAVE_LIMIT as u32;

// What the line that is kept is answered with. One too long to keep is a bad line.
fn reply(
    numbers: &mut [u64; NUMBER_COUNT],
    names: &mut [u8; OCTET_COUNT],
    line: &[u8],
    text: &mut [u8],
    number: u64,
    state: State,
) -> Answered
    requires { text_space ≤ length text.old }
    ensures length_le_text_space { result.length ≤ text_space }
    ensures by_index { (o : List ℕ) → Keeps line.now state.kept o → length line.now ≡ line_limit
        → Answers (reply_to number state.room (card_of numbers.old names.old) (order_of o))
        result.length text.new (card_of numbers.new names.new) result.room }
{
    let kept = state.kept;
    if kept <= line.len() {
        return bench_answers::answer(numbers, names, &line[..kept], number, state.room, text);
    }
    Answered {
        length: bench_lines::put_count(text, b"?", number),
        room: state.room,
    }
}

fn take_octet<W: Write>(
    out: &mut Output<W>,
    numbers: &mut [u64; NUMBER_COUNT],
    names: &mut [u8; OCTET_COUNT],
    line: &mut [u8; LINE_LIMIT],
    text: &mut [u8],
    c: u8,
    state: State,
) -> State
    requires { text_space ≤ length text.old }
    ensures { (s : Stand Seat) → Stands s state.number state.room (card_of numbers.old names.old) line.old state.kept
        → Stands (after seat_after s c) result.number result.room (card_of numbers.new names.new) line.new result.kept }
{
    if c != b'\n' {
        return State {
            number: state.number,
            kept: bench_input::keep(line, state.kept, c),
            room: state.room,
        };
    }
    let number = std::num::wrapping_add_u64(state.number, 1);
    let done = reply(numbers, names, line, text, number, state);
    let n = done.length;
    bench_input::write(out, &text[..n]);
    State {
        number,
        kept: 0,
        room: done.room,
    }
}

fn take_chunk<W: Write>(
    out: &mut Output<W>,
    numbers: &mut [u64; NUMBER_COUNT],
    names: &mut [u8; OCTET_COUNT],
    line: &mut [u8; LINE_LIMIT],
    text: &mut [u8; TEXT_SPACE],
    chunk: &[u8],
    from: State,
) -> State
    ensures { (s : Stand Seat) → Stands s from.number from.room (card_of numbers.old names.old) line.old from.kept
        → Stands (after_all seat_after s chunk.now) result.number result.room (card_of numbers.new names.new) line.new result.kept }
{
    let mut state = from;
    for c in chunk {
        state = take_octet(out, numbers, names, line, text, *c, state);
    }
    state
}

// The line, its text and the chunk have a function each because the proof of `main` would work out their octets one by one.
fn blank_line() -> [u8; LINE_LIMIT] {
    [0; LINE_LIMIT]
}

fn blank_text() -> [u8; TEXT_SPACE] {
    [0; TEXT_SPACE]
}

fn blank_chunk() -> [u8; CHUNK_SPACE] {
    [0; CHUNK_SPACE]
}

// The room is at first that of the longest save: events have no more than their buffer of it.
// A proved loop has to end, and nothing says that the input does: the loop has more turns than any run uses up.
// At the end of the input, what is kept is a line too, and the octet that ends it is taken.
// A write that fails ends the program with its error; a read that fails is the end of the input.
fn main(rt: HostRuntime) -> io::Result<()> {
    let mut input = rt.stdin();
    let mut out = Output {
        to: rt.stdout(),
        written: Ok(()),
    };
    let mut numbers = [0u64; NUMBER_COUNT];
    let mut names = [0u8; OCTET_COUNT];
    let mut line = blank_line();
    let mut text = blank_text();
    let mut chunk = blank_chunk();
    card::start(&mut numbers, 16);
    let mut state = State {
        number: 0,
        kept: 0,
        room: WHOLE_ROOM,
    };
    for _ in 0..u64::MAX {
        match bench_input::read_chunk(&mut input, &mut chunk) {
            Some(n) => {
                state = take_chunk(
                    &mut out,
                    &mut numbers,
                    &mut names,
                    &mut line,
                    &mut text,
                    &chunk[..n],
                    state,
                );
                if out.written.is_err() {
                    return out.written;
                }
            }
            None => {
                if state.kept != 0 {
                    take_chunk(
                        &mut out,
                        &mut numbers,
                        &mut names,
                        &mut line,
                        &mut text,
                        b"\n",
                        state,
                    );
                }
                return out.written;
            }
        }
    }
    out.written
}
