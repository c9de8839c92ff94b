// The session box above the label part, of which it knows what `card` promises: a neighbour's octets in, at most one message handed on,
// its records out. A stream lies in four numbers and a buffer that the caller lends; any content of them denotes one.
#![tactic(auto)]

ghost use Rattle.std.specs.Prelude.{◌≡◌, ◌≤◌, ◌<◌, ℕ, length, take, List};
ghost use Rattle.meaning.specs.Calls.{Does, Hands};
ghost use Rattle.card.specs.Table.{card_of};
ghost use Rattle.session.specs.Session.{message_room, stream_room, label, called, accepted, after_loss};
ghost use Rattle.session.specs.Calls.{Serves, HandsOver};
ghost use Rattle.session.specs.Lent.{stream_numbers, left_in, count_in, stream_of};
ghost use Rattle.session_streams.specs.Holds.{held_at};
ghost use Rattle.meaning.specs.Events.{event, lost};
ghost use Rattle.session.specs.Stream.{holds_message, is_stopped};

use card::{NUMBER_COUNT, OCTET_COUNT};
use session::{IDENTIFIER_SIZE, MESSAGE_ROOM, STREAM_NUMBERS, STREAM_ROOM};

// ---- a message to the label part

// It is lent the first 348 octets of the output, and no more.
// Kept: the label part's event tells its refusal as a number, which goes on to the caller as it is.
fn tell_label(
    numbers: &mut [u64; NUMBER_COUNT],
    names: &mut [u8; OCTET_COUNT],
    neighbour: u32,
    message: &[u8],
    out: &mut [u8],
    answer: &mut u32,
) -> usize
    requires { message_room ≤ length out.old }
    ensures { Does (label (card_of numbers.old names.old) neighbour message.now)
        answer.new result out.old out.new (card_of numbers.new names.new) }
{
    card::receive_core(
        numbers,
        names,
        neighbour,
        message,
        &mut out[..MESSAGE_ROOM],
        answer,
    )
}

// The message of k octets that is the first of those held.
fn hand_on(
    numbers: &mut [u64; NUMBER_COUNT],
    names: &mut [u8; OCTET_COUNT],
    stream: &[u64],
    buffer: &[u8],
    k: usize,
    neighbour: u32,
    out: &mut [u8],
    answer: &mut u32,
) -> usize
    requires { (length stream.now ≡ stream_numbers) × (stream_room ≤ length buffer.now) × (k ≤ left_in stream.now) × (k ≤ count_in stream.now) × (message_room ≤ length out.old) }
    ensures { Does (label (card_of numbers.old names.old) neighbour (take k (held_at stream.now buffer.now)))
        answer.new result out.old out.new (card_of numbers.new names.new) }
{
    let place = session_streams::held_in(stream).place;
    let end = place + k;
    tell_label(numbers, names, neighbour, &buffer[place..end], out, answer)
}

// ---- a call that 1 and 20 pass

fn serve_open(
    numbers: &mut [u64; NUMBER_COUNT],
    names: &mut [u8; OCTET_COUNT],
    stream: &mut [u64],
    buffer: &mut [u8],
    neighbour: u32,
    expected: &[u8],
    offered: &[u8],
    out: &mut [u8],
    answer: &mut u32,
    eaten: &mut usize,
) -> usize
    requires { (length stream.old ≡ stream_numbers) × (stream_room ≤ length buffer.old) × (message_room ≤ length out.old) }
    ensures { (length stream.new ≡ stream_numbers)
        × Serves (accepted label expected.now neighbour (card_of numbers.old names.old) (stream_of stream.old buffer.old) offered.now)
        answer.new eaten.new result out.old out.new (card_of numbers.new names.new) (stream_of stream.new buffer.new) }
{
    *answer = 0;
    let found = session_offer::offer(stream, buffer, offered, expected);
    *eaten = found.eaten;
    match found.message {
        None => 0,
        Some(k) => {
            let n = hand_on(numbers, names, stream, buffer, k, neighbour, out, answer);
            if session_streams::work_off(stream, buffer, k, expected) {
                *eaten = offered.len();
                return n;
            }
            n
        }
    }
}

// ---- the call: octets of a neighbour, whose identifier is `expected`

pub fn serve_core(
    numbers: &mut [u64; NUMBER_COUNT],
    names: &mut [u8; OCTET_COUNT],
    stream: &mut [u64; STREAM_NUMBERS],
    buffer: &mut [u8],
    neighbour: u32,
    expected: &[u8; IDENTIFIER_SIZE],
    offered: &[u8],
    out: &mut [u8],
    answer: &mut u32,
    eaten: &mut usize,
) -> usize
    ensures { Serves (called label expected.now neighbour (length out.old) (length buffer.old) (card_of numbers.old names.old) (stream_of stream.old buffer.old) offered.now)
        answer.new eaten.new result out.old out.new (card_of numbers.new names.new) (stream_of stream.new buffer.new) }
{
    *eaten = 0;
    if 15 < neighbour {
        *answer = 1;
        return 0;
    }
    if out.len() < MESSAGE_ROOM {
        *answer = 20;
        return 0;
    }
    if buffer.len() < STREAM_ROOM {
        *answer = 20;
        return 0;
    }
    serve_open(
        numbers, names, stream, buffer, neighbour, expected, offered, out, answer, eaten,
    )
}

pub fn serve<'a>(
    numbers: &mut [u64; NUMBER_COUNT],
    names: &mut [u8; OCTET_COUNT],
    stream: &mut [u64; STREAM_NUMBERS],
    buffer: &mut [u8],
    neighbour: u32,
    expected: &[u8; IDENTIFIER_SIZE],
    offered: &[u8],
    out: &'a mut [u8],
    answer: &mut u32,
    eaten: &mut usize,
) -> &'a mut [u8]
    ensures { HandsOver (called label expected.now neighbour (length out.old) (length buffer.old) (card_of numbers.old names.old) (stream_of stream.old buffer.old) offered.now)
        answer.new eaten.new result.now (card_of numbers.new names.new) (stream_of stream.new buffer.new) × (result.ref_ptr ≡ out.entry.ref_ptr) }
{
    let n = serve_core(
        numbers, names, stream, buffer, neighbour, expected, offered, &mut *out, answer, eaten,
    );
    &mut out[..n]
}

// ---- what a caller may ask of a stream, and the loss of a neighbour, which empties it

pub fn is_stopped(stream: &[u64; STREAM_NUMBERS]) -> bool
    ensures { (buffer : List ℕ) → result ≡ is_stopped (stream_of stream.now buffer) }
{
    session_streams::is_stopped(stream)
}

// A caller goes on while octets are left or a whole message is held.
pub fn holds_message(stream: &[u64; STREAM_NUMBERS], buffer: &[u8]) -> bool
    ensures { result ≡ holds_message (stream_of stream.now buffer.now) }
{
    session_streams::holds_message(stream, buffer)
}

// The label part's order; where it is taken the stream is empty, whatever the buffer holds.
pub fn lose_core(
    numbers: &mut [u64; NUMBER_COUNT],
    names: &mut [u8; OCTET_COUNT],
    stream: &mut [u64; STREAM_NUMBERS],
    neighbour: u32,
    out: &mut [u8],
    answer: &mut u32,
) -> usize
    ensures { Does (event (length out.old) (card_of numbers.old names.old) (lost neighbour))
        answer.new result out.old out.new (card_of numbers.new names.new)
        × ((buffer : List ℕ) → stream_of stream.new buffer ≡ after_loss answer.new (stream_of stream.old buffer)) }
{
    let n = card::lost_core(numbers, names, neighbour, out, answer);
    if *answer == 0 {
        session_streams::clear(stream);
        return n;
    }
    n
}

pub fn lose<'a>(
    numbers: &mut [u64; NUMBER_COUNT],
    names: &mut [u8; OCTET_COUNT],
    stream: &mut [u64; STREAM_NUMBERS],
    neighbour: u32,
    out: &'a mut [u8],
    answer: &mut u32,
) -> &'a mut [u8]
    ensures { Hands (event (length out.old) (card_of numbers.old names.old) (lost neighbour))
        answer.new result.now (card_of numbers.new names.new)
        × ((buffer : List ℕ) → stream_of stream.new buffer ≡ after_loss answer.new (stream_of stream.old buffer)) × (result.ref_ptr ≡ out.entry.ref_ptr) }
{
    let n = lose_core(numbers, names, stream, neighbour, &mut *out, answer);
    &mut out[..n]
}
