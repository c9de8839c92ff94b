// What the orders that the session box has of its own are answered with: each is obeyed, on the stream that it is about, and the line that
// tells of it is written to the front of a lent text.
#![tactic(auto)]

ghost use Rattle.std.specs.Prelude.{◌≡◌, true, List, ℕ, ◌≤◌, ◌<◌, ◌*◌, ◌+◌, ◌-◌, length, take, drop};
ghost use Rattle.meaning.specs.Octets.{pick};
ghost use Rattle.meaning.specs.Card.{sent_limit};
ghost use Rattle.meaning.specs.Events.{event, lost};
ghost use Rattle.card.specs.Table.{card_of};
ghost use Rattle.session.specs.Session.{after_loss, message_room, stream_room};
ghost use Rattle.session.specs.Lent.{stream_of};
ghost use Rattle.session.specs.Pack.{pack};
ghost use Rattle.bench_words.specs.Words.{ascii, octets_of, hex_limit, input_limit};
ghost use Rattle.bench_verbs.specs.Line.{Said};
ghost use Rattle.bench_lines.specs.Text.{event_line, text_space, Adds};
ghost use Rattle.bench_replies.specs.Reply.{event_room, reply_to, Says};
ghost use Rattle.session_orders.specs.Told.{stream_for};
ghost use Rattle.session_orders.specs.Asks.{meant, InLine};
ghost use Rattle.session_replies.specs.Done.{own, pack_room, BoxSays};
ghost use Rattle.session_replies.specs.Four.{is_own, streams_of, box_of, box_on};
ghost use Rattle.session_replies.specs.Turns.{identifier, called_box, call_text, is_last, turns, call_space, turns_space, space_for, TurnsSay};
ghost use Rattle.session_replies.specs.Did.{Did};

use bench_words::INPUT_LIMIT;
use card::{NUMBER_COUNT, OCTET_COUNT};
use meaning::SENT_LIMIT;
use session::{BODY_LIMIT, IDENTIFIER_SIZE, MESSAGE_ROOM, STREAM_NUMBERS, STREAM_ROOM};
use session_orders::Ask;

// As `stream_count` of session_orders/specs/Told.antt.
pub const STREAM_COUNT: usize = 4;

// The room of the writer, as `pack_room` in specs/Done.antt.
const PACK_ROOM: usize = 2 * INPUT_LIMIT;

// The spaces of the line, as `octet_space` and `turns_space` in specs/Turns.antt.
const OCTET_SPACE: usize = 185;

pub const TURNS_SPACE: usize = OCTET_SPACE * (2 * INPUT_LIMIT + BODY_LIMIT + 2);

// ---- octets of a neighbour, offered to its stream call after call, and the line that tells of each call

// 192.0.2.N:0
pub fn identifier(n: u32) -> [u8; IDENTIFIER_SIZE]
    ensures { result ≡ identifier n }
{
    [192, 0, 2, (n % 256) as u8, 0, 0]
}

fn output() -> [u8; MESSAGE_ROOM]
    ensures { message_room ≡ length result }
{
    [0; MESSAGE_ROOM]
}

// ---- a call told

// ` ANSWER:EATEN`, and the records where there are some.
fn add_call(text: &mut [u8], at: usize, answer: u32, eaten: usize, records: &[u8]) -> usize
    requires { at + call_space + 2 * length records.now ≤ length text.old }
    ensures adds { Adds (call_text answer eaten records.now) text.old text.new at result }
    ensures upper_bound { result ≤ at + call_space + 2 * length records.now }
{
    let at = bench_lines::add_named(text, at, b" ", answer as u64);
    let at = bench_lines::add_named(text, at, b":", eaten as u64);
    bench_lines::add_records(text, at, b":", records)
}

// ---- the calls

// Whether no call follows: it was refused by 1 or 20, or all is eaten and no whole message is held.
fn is_last(answer: u32, left: usize, stream: &[u64; STREAM_NUMBERS], buffer: &[u8]) -> bool
    ensures { result ≡ is_last answer left (stream_of stream.now buffer.now) }
{
    if answer == 1 {
        return true;
    }
    if answer == 20 {
        return true;
    }
    if left == 0 {
        return !session_calls::holds_message(stream, buffer);
    }
    false
}

// How far the text goes, how many octets are eaten, and whether that was the last call.
#[derive(Clone, Copy)]
struct Reached {
    at: usize,
    from: usize,
    last: bool,
}

// One call on the octets from a place on.
fn turn(
    numbers: &mut [u64; NUMBER_COUNT],
    names: &mut [u8; OCTET_COUNT],
    stream: &mut [u64; STREAM_NUMBERS],
    buffer: &mut [u8],
    neighbour: u32,
    octets: &[u8],
    from: usize,
    room: u32,
    text: &mut [u8],
    at: usize,
) -> Reached
    requires { (length buffer.old ≡ stream_room) × (from ≤ length octets.now) × (at + space_for (stream_of stream.old buffer.old) (drop from octets.now) ≤ length text.old) }
    ensures { Did (called_box neighbour room (card_of numbers.old names.old) (stream_of stream.old buffer.old) (drop from octets.now))
        octets.now from (stream_of stream.old buffer.old) text.old text.new at result.at result.from result.last (card_of numbers.new names.new) (stream_of stream.new buffer.new) }
{
    let expected = identifier(neighbour);
    let mut out = output();
    let mut answer: u32 = 0;
    let mut eaten: usize = 0;
    let records = session_calls::serve(
        numbers,
        names,
        stream,
        buffer,
        neighbour,
        &expected,
        &octets[from..],
        bench_replies::lent(&mut out, room),
        &mut answer,
        &mut eaten,
    );
    let end = add_call(text, at, answer, eaten, records);
    let next = from + eaten;
    Reached {
        at: end,
        from: next,
        last: is_last(answer, octets.len() - next, stream, buffer),
    }
}

// How many calls may follow one of so many.
fn left_after(left: usize, last: bool) -> usize
    requires { 0 < left }
    ensures { (result ≡ pick last 0 (left - 1)) × (result < left) }
{
    if last {
        return 0;
    }
    left - 1
}

fn put_turns(
    numbers: &mut [u64; NUMBER_COUNT],
    names: &mut [u8; OCTET_COUNT],
    stream: &mut [u64; STREAM_NUMBERS],
    buffer: &mut [u8],
    neighbour: u32,
    octets: &[u8],
    room: u32,
    text: &mut [u8],
) -> usize
    requires { (length buffer.old ≡ stream_room) × (length octets.now ≤ input_limit) × (turns_space ≤ length text.old) }
    ensures { TurnsSay (turns neighbour room (card_of numbers.old names.old) (stream_of stream.old buffer.old) octets.now)
        result text.new (card_of numbers.new names.new) (stream_of stream.new buffer.new) }
{
    let mut at = bench_lines::add(text, 0, b"octets");
    let mut from = 0;
    let mut left = 2 * octets.len() + STREAM_ROOM + 2;
    while 0 < left {
        let done = turn(
            numbers, names, stream, buffer, neighbour, octets, from, room, text, at,
        );
        at = done.at;
        from = done.from;
        left = left_after(left, done.last);
    }
    bench_lines::add(text, at, b"\n")
}

// ---- what the calls are lent

fn records() -> [u8; SENT_LIMIT]
    ensures { sent_limit ≡ length result }
{
    [0; SENT_LIMIT]
}

fn pdus() -> [u8; PACK_ROOM]
    ensures { 2 * input_limit ≡ length result }
{
    [0; PACK_ROOM]
}

// ---- orders

// The octets in HEX of a neighbour, on a stream.
fn on_octets(
    numbers: &mut [u64; NUMBER_COUNT],
    names: &mut [u8; OCTET_COUNT],
    stream: &mut [u64; STREAM_NUMBERS],
    buffer: &mut [u8; STREAM_ROOM],
    neighbour: u32,
    hex: &[u8],
    room: u32,
    text: &mut [u8],
) -> usize
    requires { (length hex.now ≤ hex_limit) × (turns_space ≤ length text.old) }
    ensures { TurnsSay (turns neighbour room (card_of numbers.old names.old) (stream_of stream.old buffer.old) (octets_of hex.now))
        result text.new (card_of numbers.new names.new) (stream_of stream.new buffer.new) }
{
    let mut octets = bench_replies::input();
    let k = bench_words::decode_hex(hex, &mut octets);
    put_turns(
        numbers,
        names,
        stream,
        buffer,
        neighbour,
        &octets[..k],
        room,
        text,
    )
}

// The PDUs to a neighbour, of the records in HEX.
fn on_pack(neighbour: u32, hex: &[u8], room: u32, text: &mut [u8]) -> usize
    requires { (length hex.now ≤ hex_limit) × (text_space ≤ length text.old) }
    ensures upper_bound { result ≤ text_space }
    ensures text_after { take result text.new ≡ event_line (ascii "pack") (pack own neighbour (pack_room room) (octets_of hex.now)).answer (pack own neighbour (pack_room room) (octets_of hex.now)).octets }
{
    let mut given = bench_replies::input();
    let n = bench_words::decode_hex(hex, &mut given);
    let mut out = pdus();
    let mut answer: u32 = 0;
    let own = identifier(254);
    let written = session_pack::pack(
        &given[..n],
        neighbour,
        &own,
        bench_replies::lent(&mut out, room),
        &mut answer,
    );
    bench_lines::put_event(text, b"pack", answer, written)
}

// A loss told, and the stream, which it empties where it is taken.
fn tell_loss(
    numbers: &mut [u64; NUMBER_COUNT],
    names: &mut [u8; OCTET_COUNT],
    stream: &mut [u64; STREAM_NUMBERS],
    neighbour: u32,
    room: u32,
    text: &mut [u8],
) -> usize
    requires { text_space ≤ length text.old }
    ensures by_index { (number : ℕ) → Says (reply_to number room (card_of numbers.old names.old) (Said.lost neighbour))
        result text.new (card_of numbers.new names.new) }
    ensures by_index_2 { (buffer : List ℕ) → stream_of stream.new buffer ≡ after_loss (event (event_room room) (card_of numbers.old names.old) (lost neighbour)).answer (stream_of stream.old buffer) }
{
    let mut out = records();
    let mut answer: u32 = 0;
    let written = session_calls::lose(
        numbers,
        names,
        stream,
        neighbour,
        bench_replies::lent(&mut out, room),
        &mut answer,
    );
    bench_lines::put_event(text, b"lost", answer, written)
}

// ---- an order of the box's own, or one of the bench

pub fn is_own(ask: Ask) -> bool
    ensures { result ≡ is_own ask }
{
    match ask {
        Ask::Bench => false,
        _ => true,
    }
}

// One of the box's own; nothing is said of the bench's.
pub fn answer(
    numbers: &mut [u64; NUMBER_COUNT],
    names: &mut [u8; OCTET_COUNT],
    streams: &mut [[u64; STREAM_NUMBERS]; STREAM_COUNT],
    buffers: &mut [[u8; STREAM_ROOM]; STREAM_COUNT],
    line: &[u8],
    ask: Ask,
    room: u32,
    text: &mut [u8],
) -> usize
    requires { InLine line.now ask × (turns_space ≤ length text.old) }
    ensures { is_own ask ≡ true → (number : ℕ) → BoxSays (box_on (stream_for (meant line.now ask)) number (box_of room (card_of numbers.old names.old) (streams_of streams.old buffers.old)) (meant line.now ask))
        result text.new (card_of numbers.new names.new) room (streams_of streams.new buffers.new) }
{
    match ask {
        Ask::Bench => 0,
        Ask::Octets { neighbour, hex } => {
            let n = session_orders::stream_of(ask) as usize;
            on_octets(
                numbers,
                names,
                &mut streams[n],
                &mut buffers[n],
                neighbour,
                hex.of(line),
                room,
                text,
            )
        }
        Ask::Pack { neighbour, hex } => on_pack(neighbour, hex.of(line), room, text),
        Ask::Lost(neighbour) => {
            let n = neighbour as usize;
            tell_loss(numbers, names, &mut streams[n], neighbour, room, text)
        }
    }
}
