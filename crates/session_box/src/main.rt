// Serves four neighbours over standard input: their octets, the PDUs to send them, their losses, and every order of the bench; a line for each
// order. Neighbour N's identifier is 192.0.2.N:0, the card's own 192.0.2.254:0.
#![tactic(auto)]

ghost use Rattle.std.specs.Prelude.{◌≡◌, ℕ, ◌≤◌, List, length};
ghost use Rattle.card.specs.Table.{card_of};
ghost use Rattle.bench_verbs.specs.Line.{line_limit};
ghost use Rattle.bench_input.specs.Kept.{Keeps};
ghost use Rattle.bench_input.specs.Input.{Stand, after, after_all};
ghost use Rattle.session_replies.specs.Turns.{turns_space};
ghost use Rattle.session_replies.specs.Done.{Box, box_reply, BoxSays};
ghost use Rattle.session_replies.specs.Four.{streams_of, box_of};
ghost use Rattle.session_box.specs.Input.{box_left, Stands};

use bench_answers::Answered;
use bench_input::{CHUNK_SPACE, Output, State};
use bench_orders::LINE_LIMIT;
use card::{NUMBER_COUNT, OCTET_COUNT};
use meaning::SAVE_LIMIT;
use session::{STREAM_NUMBERS, STREAM_ROOM};
use session_replies::{STREAM_COUNT, TURNS_SPACE};
use std::io;
use std::io::Write;

// the room that is lent before an order says less: that of the longest save
const WHOLE_ROOM: u32 = SAVE_LIMIT as u32;

// What the line that is kept is answered with. One too long to keep is a bad line.
fn reply(
    numbers: &mut [u64; NUMBER_COUNT],
    names: &mut [u8; OCTET_COUNT],
    streams: &mut [[u64; STREAM_NUMBERS]; STREAM_COUNT],
    buffers: &mut [[u8; STREAM_ROOM]; STREAM_COUNT],
    line: &[u8],
    text: &mut [u8],
    kept: usize,
    number: u64,
    room: u32,
) -> Answered
    requires { turns_space ≤ length text.old }
    ensures length_le_turns_space { result.length ≤ turns_space }
    ensures by_index { (o : List ℕ) → Keeps line.now kept o → length line.now ≡ line_limit
        → BoxSays (box_reply number (box_of room (card_of numbers.old names.old) (streams_of streams.old buffers.old)) o)
        result.length text.new (card_of numbers.new names.new) result.room (streams_of streams.new buffers.new) }
{
    if line.len() < kept {
        return Answered {
            length: bench_lines::put_count(text, b"?", number),
            room,
        };
    }
    let whole = &line[..kept];
    let ask = session_orders::read_ask(whole);
    if session_replies::is_own(ask) {
        return Answered {
            length: session_replies::answer(
                numbers, names, streams, buffers, whole, ask, room, text,
            ),
            room,
        };
    }
    bench_answers::answer(numbers, names, whole, number, room, text)
}

fn take_octet<W: Write>(
    out: &mut Output<W>,
    numbers: &mut [u64; NUMBER_COUNT],
    names: &mut [u8; OCTET_COUNT],
    streams: &mut [[u64; STREAM_NUMBERS]; STREAM_COUNT],
    buffers: &mut [[u8; STREAM_ROOM]; STREAM_COUNT],
    line: &mut [u8; LINE_LIMIT],
    text: &mut [u8],
    c: u8,
    state: State,
) -> State
    requires { turns_space ≤ length text.old }
    ensures { (s : Stand Box) → Stands s state.number (box_of state.room (card_of numbers.old names.old) (streams_of streams.old buffers.old)) line.old state.kept
        → Stands (after box_left s c) result.number (box_of result.room (card_of numbers.new names.new) (streams_of streams.new buffers.new)) line.new result.kept }
{
    if c != b'\n' {
        return State {
            number: state.number,
            kept: bench_input::keep(line, state.kept, c),
            room: state.room,
        };
    }
    let number = std::num::wrapping_add_u64(state.number, 1);
    let done = reply(
        numbers, names, streams, buffers, line, text, state.kept, number, state.room,
    );
    let n = done.length;
    bench_input::write(out, &text[..n]);
    State {
        number,
        kept: 0,
        room: done.room,
    }
}

fn take_chunk<W: Write>(
    out: &mut Output<W>,
    numbers: &mut [u64; NUMBER_COUNT],
    names: &mut [u8; OCTET_COUNT],
    streams: &mut [[u64; STREAM_NUMBERS]; STREAM_COUNT],
    buffers: &mut [[u8; STREAM_ROOM]; STREAM_COUNT],
    line: &mut [u8; LINE_LIMIT],
    text: &mut [u8; TURNS_SPACE],
    chunk: &[u8],
    from: State,
) -> State
    ensures { (s : Stand Box) → Stands s from.number (box_of from.room (card_of numbers.old names.old) (streams_of streams.old buffers.old)) line.old from.kept
        → Stands (after_all box_left s chunk.now) result.number (box_of result.room (card_of numbers.new names.new) (streams_of streams.new buffers.new)) line.new result.kept }
{
    let mut state = from;
    for c in chunk {
        state = take_octet(out, numbers, names, streams, buffers, line, text, *c, state);
    }
    state
}

// The line, the buffers, the text and the chunk have a function each because the proof of `main` would work out their octets one by one.
fn blank_line() -> [u8; LINE_LIMIT] {
    [0; LINE_LIMIT]
}

fn blank_buffers() -> [[u8; STREAM_ROOM]; STREAM_COUNT] {
    [[0; STREAM_ROOM]; STREAM_COUNT]
}

fn blank_text() -> [u8; TURNS_SPACE] {
    [0; TURNS_SPACE]
}

fn blank_chunk() -> [u8; CHUNK_SPACE] {
    [0; CHUNK_SPACE]
}

// The room is at first that of the longest save: no call has more of it than its buffer.
// A proved loop has to end, and nothing says that the input does: the loop has more turns than any run uses up.
// At the end of the input, what is kept is a line too, and the octet that ends it is taken.
// A write that fails ends the program with its error; a read that fails is the end of the input.
fn main(rt: HostRuntime) -> io::Result<()> {
    let mut input = rt.stdin();
    let mut out = Output {
        to: rt.stdout(),
        written: Ok(()),
    };
    let mut numbers = [0u64; NUMBER_COUNT];
    let mut names = [0u8; OCTET_COUNT];
    let mut streams = [[0u64; STREAM_NUMBERS]; STREAM_COUNT];
    let mut buffers = blank_buffers();
    let mut line = blank_line();
    let mut text = blank_text();
    let mut chunk = blank_chunk();
    card::start(&mut numbers, 16);
    let mut state = State {
        number: 0,
        kept: 0,
        room: WHOLE_ROOM,
    };
    for _ in 0..u64::MAX {
        match bench_input::read_chunk(&mut input, &mut chunk) {
            Some(n) => {
                state = take_chunk(
                    &mut out,
                    &mut numbers,
                    &mut names,
                    &mut streams,
                    &mut buffers,
                    &mut line,
                    &mut text,
                    &chunk[..n],
                    state,
                );
                if out.written.is_err() {
                    return out.written;
                }
            }
            None => {
                if state.kept != 0 {
                    take_chunk(
                        &mut out,
                        &mut numbers,
                        &mut names,
                        &mut streams,
                        &mut buffers,
                        &mut line,
                        &mut text,
                        b"\n",
                        state,
                    );
                }
                return out.written;
            }
        }
    }
    out.written
}
