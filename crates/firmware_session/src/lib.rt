// The calls for C of the session box: include/card.h declares them, `firmware_session_c` exports them. A stream lies in four numbers and a buffer,
// both lent; the identifiers are six octets each. The number handed back says how many octets of the output were written.
#![tactic(auto)]

ghost use Rattle.std.specs.Prelude.{◌≡◌, List, ℕ, length};
ghost use Rattle.meaning.specs.Events.{event, lost};
ghost use Rattle.meaning.specs.Calls.{Does};
ghost use Rattle.card.specs.Table.{card_of};
ghost use Rattle.session.specs.Stream.{holds_message, is_stopped};
ghost use Rattle.session.specs.Session.{label, called, after_loss};
ghost use Rattle.session.specs.Pack.{pack};
ghost use Rattle.session.specs.Calls.{Serves, Packs};
ghost use Rattle.session.specs.Lent.{stream_of};

use card::{NUMBER_COUNT, OCTET_COUNT};
use session::{IDENTIFIER_SIZE, STREAM_NUMBERS};

pub fn card_serve(
    numbers: &mut [u64; NUMBER_COUNT],
    names: &mut [u8; OCTET_COUNT],
    stream: &mut [u64; STREAM_NUMBERS],
    buffer: &mut [u8],
    neighbour: u32,
    expected: &[u8; IDENTIFIER_SIZE],
    offered: &[u8],
    out: &mut [u8],
    answer: &mut u32,
    eaten: &mut usize,
) -> usize
    ensures { Serves (called label expected.now neighbour (length out.old) (length buffer.old) (card_of numbers.old names.old) (stream_of stream.old buffer.old) offered.now)
        answer.new eaten.new result out.old out.new (card_of numbers.new names.new) (stream_of stream.new buffer.new) }
{
    session_calls::serve_core(
        numbers, names, stream, buffer, neighbour, expected, offered, out, answer, eaten,
    )
}

pub fn card_is_stopped(stream: &[u64; STREAM_NUMBERS]) -> bool
    ensures { (buffer : List ℕ) → result ≡ is_stopped (stream_of stream.now buffer) }
{
    session_calls::is_stopped(stream)
}

pub fn card_holds_message(stream: &[u64; STREAM_NUMBERS], buffer: &[u8]) -> bool
    ensures { result ≡ holds_message (stream_of stream.now buffer.now) }
{
    session_calls::holds_message(stream, buffer)
}

pub fn card_lose(
    numbers: &mut [u64; NUMBER_COUNT],
    names: &mut [u8; OCTET_COUNT],
    stream: &mut [u64; STREAM_NUMBERS],
    neighbour: u32,
    out: &mut [u8],
    answer: &mut u32,
) -> usize
    ensures { Does (event (length out.old) (card_of numbers.old names.old) (lost neighbour))
        answer.new result out.old out.new (card_of numbers.new names.new)
        × ((buffer : List ℕ) → stream_of stream.new buffer ≡ after_loss answer.new (stream_of stream.old buffer)) }
{
    session_calls::lose_core(numbers, names, stream, neighbour, out, answer)
}

pub fn card_pack(
    records: &[u8],
    neighbour: u32,
    id: &[u8; IDENTIFIER_SIZE],
    out: &mut [u8],
    answer: &mut u32,
) -> usize
    ensures { Packs (pack id.now neighbour (length out.old) records.now) answer.new result out.old out.new }
{
    session_pack::pack_core(records, neighbour, id, out, answer)
}
