// Octets offered to a stream: all of a call on it but the label part's.
#![tactic(auto)]

ghost use Rattle.std.specs.Prelude.{◌≡◌, ◌++◌, ◌+◌, min, ◌≤◌, length, take, drop};
ghost use Rattle.session.specs.Session.{stream_room};
ghost use Rattle.session.specs.Lent.{stream_numbers, left_in, stream_of};
ghost use Rattle.session_streams.specs.Holds.{held_at};
ghost use Rattle.session_offer.specs.Offers.{TakesIn, Offers};

use session::PDU_HEAD;
use session_look::Shows;
use session_streams::Held;

// As many of the offered octets as there is room for, copied to the place `at`.
fn fill(buffer: &mut [u8], at: usize, room: usize, offered: &[u8]) -> usize
    requires { at + room ≤ length buffer.old }
    ensures { (result ≡ min room (length offered.now)) × (result ≤ room) × (result ≤ length offered.now) × (length buffer.new ≡ length buffer.old)
        × (buffer.new ≡ take at buffer.old ++ (take result offered.now ++ drop result (drop at buffer.old))) }
{
    let k = session_streams::least(room, offered.len());
    octets::copy(&mut buffer[at..at + k], &offered[..k]);
    k
}

// A stream that is being read takes in what it may hold. Where that makes a PDU's head whole, the head is done with and more is taken in.
fn take_in(stream: &mut [u64], buffer: &mut [u8], offered: &[u8], expected: &[u8]) -> usize
    requires { (length stream.old ≡ stream_numbers) × (stream_room ≤ length buffer.old) }
    ensures { (length stream.new ≡ stream_numbers) × (length buffer.new ≡ length buffer.old)
        × TakesIn expected.now offered.now (left_in stream.old) (held_at stream.old buffer.old)
        result stream.new buffer.new }
{
    let before = session_streams::held_in(stream);
    let room = session_streams::limit(before.left) - before.count;
    let k = fill(buffer, before.place + before.count, room, offered);
    let first = Held {
        left: before.left,
        place: before.place,
        count: before.count + k,
    };
    match session_look::whole_head(first.left, first.octets(buffer), expected) {
        None => {
            session_streams::set(stream, 0, first.left, first.place, first.count);
            k
        }
        Some(n) => {
            let more = fill(buffer, PDU_HEAD, n, &offered[k..]);
            session_streams::set(stream, 0, n, PDU_HEAD, more);
            k + more
        }
    }
}

// How many of the offered octets are eaten, unless the stream then stops; and how many octets the message has that is to be handed on, the first
// of those held, where there is one.
#[derive(Clone, Copy)]
pub struct Offered {
    pub eaten: usize,
    pub message: Option<usize>,
}

// All of a call on a stream but the label part's.
pub fn offer(stream: &mut [u64], buffer: &mut [u8], offered: &[u8], expected: &[u8]) -> Offered
    requires { (length stream.old ≡ stream_numbers) × (stream_room ≤ length buffer.old) }
    ensures { (length stream.new ≡ stream_numbers) × (length buffer.new ≡ length buffer.old)
        × Offers expected.now offered.now (stream_of stream.old buffer.old) result stream.new buffer.new }
{
    let dropped = Offered {
        eaten: offered.len(),
        message: None,
    };
    if session_streams::is_stopped(stream) {
        return dropped;
    }
    let eaten = take_in(stream, buffer, offered, expected);
    let now = session_streams::held_in(stream);
    match session_look::look(now.left, now.octets(buffer), expected) {
        Shows::Bad => {
            session_streams::stop(stream);
            dropped
        }
        Shows::Message(k) => Offered {
            eaten,
            message: Some(k),
        },
        Shows::Wait | Shows::Head(_) => Offered {
            eaten,
            message: None,
        },
    }
}
