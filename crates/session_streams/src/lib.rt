// A neighbour's stream in lent memory: a buffer of at least 4100 octets and four numbers. Any content of them denotes a stream.
#![tactic(auto)]

ghost use Rattle.std.specs.Prelude.{◌≡◌, List, [], ◌∷◌, ℕ, ◌+◌, ◌-◌, min, ◌≤◌, ◌<◌, length, take, drop};
ghost use Rattle.session.specs.Stream.{body_limit, limit, stopped, reading, empty, holds_message, is_stopped, settled};
ghost use Rattle.session.specs.Session.{stream_room};
ghost use Rattle.session.specs.Lent.{stream_numbers, left_in, count_in, stream_of};
ghost use Rattle.session_streams.specs.Holds.{held_at, IsHeld};

use session::{BODY_LIMIT, PDU_HEAD, STREAM_ROOM};
use session_look::Shows;

pub fn least(a: usize, b: usize) -> usize
    ensures { (result ≡ min a b) × (result ≤ a) × (result ≤ b) }
{
    if a < b { a } else { b }
}

fn up_to(n: u64, most: usize) -> usize
    requires { most ≤ stream_room }
    ensures { (result ≡ min n most) × (result ≤ most) }
{
    if n < most as u64 { n as usize } else { most }
}

// How many octets may be held.
pub fn limit(left: usize) -> usize
    requires { left ≤ body_limit }
    ensures { (result ≡ limit left) × (left ≤ result) × (result ≤ body_limit) }
{
    if left == 0 { PDU_HEAD } else { left }
}

// Of a stream that is being read: how many octets its PDU has left, and where in the buffer those held lie.
#[derive(Clone, Copy)]
pub struct Held {
    pub left: usize,
    pub place: usize,
    pub count: usize,
}

impl Held {
    // The octets held.
    pub fn octets<'a>(&self, buffer: &'a [u8]) -> &'a [u8]
        requires { self.now.place + self.now.count ≤ length buffer.now }
        ensures { result.now ≡ take self.now.count (drop self.now.place buffer.now) }
    {
        let end = self.place + self.count;
        &buffer[self.place..end]
    }
}

pub fn held_in(stream: &[u64]) -> Held
    requires { length stream.now ≡ stream_numbers }
    ensures { IsHeld stream.now result }
{
    let left = up_to(stream[1], BODY_LIMIT);
    let most = limit(left);
    Held {
        left,
        place: up_to(stream[2], STREAM_ROOM - most),
        count: up_to(stream[3], most),
    }
}

pub fn set(stream: &mut [u64], mark: u64, left: usize, place: usize, count: usize)
    requires { length stream.old ≡ stream_numbers }
    ensures { stream.new ≡ mark ∷ left ∷ place ∷ count ∷ [] }
{
    let numbers = [mark, left as u64, place as u64, count as u64];
    octets::copy_numbers(stream, &numbers);
}

// ---- octets worked off

// The stream stops, and holds nothing.
pub fn stop(stream: &mut [u64])
    requires { length stream.old ≡ stream_numbers }
    ensures { (length stream.new ≡ stream_numbers) × ((buffer : List ℕ) → stream_of stream.new buffer ≡ stopped) }
{
    set(stream, 1, 0, 0, 0);
}

// As at the start, whatever the numbers were: the neighbour was lost, or is new.
pub fn clear(stream: &mut [u64])
    requires { length stream.old ≡ stream_numbers }
    ensures { (length stream.new ≡ stream_numbers) × ((buffer : List ℕ) → stream_of stream.new buffer ≡ empty) }
{
    set(stream, 0, 0, 0, 0);
}

// A message of k octets is done with: the place moves on. At the PDU's end the next one begins at the buffer's front.
fn pass(stream: &mut [u64], k: usize)
    requires { (length stream.old ≡ stream_numbers) × (0 < k) × (k ≤ left_in stream.old) × (k ≤ count_in stream.old) }
    ensures { (length stream.new ≡ stream_numbers)
        × ((buffer : List ℕ) → stream_of stream.new buffer ≡ reading (left_in stream.old - k) (drop k (held_at stream.old buffer))) }
{
    let before = held_in(stream);
    if before.left == k {
        clear(stream);
        return;
    }
    set(
        stream,
        0,
        before.left - k,
        before.place + k,
        before.count - k,
    );
}

// A message of k octets is done with, and the stream stops where what is then held says so.
pub fn work_off(stream: &mut [u64], buffer: &[u8], k: usize, expected: &[u8]) -> bool
    requires { (length stream.old ≡ stream_numbers) × (stream_room ≤ length buffer.now) × (0 < k) × (k ≤ left_in stream.old) × (k ≤ count_in stream.old) }
    ensures { (length stream.new ≡ stream_numbers)
        × (stream_of stream.new buffer.now ≡ settled expected.now (left_in stream.old - k) (drop k (held_at stream.old buffer.now)))
        × (result ≡ is_stopped (settled expected.now (left_in stream.old - k) (drop k (held_at stream.old buffer.now)))) }
{
    pass(stream, k);
    let rest = held_in(stream);
    let shows = session_look::look(rest.left, rest.octets(buffer), expected);
    if let Shows::Bad = shows {
        stop(stream);
        return true;
    }
    false
}

// ---- what a caller may ask

pub fn is_stopped(stream: &[u64]) -> bool
    requires { length stream.now ≡ stream_numbers }
    ensures { (buffer : List ℕ) → result ≡ is_stopped (stream_of stream.now buffer) }
{
    stream[0] != 0
}

// Whether a whole message is held: then a call does it, with nothing offered too. A buffer that is too short holds what it has.
pub fn holds_message(stream: &[u64], buffer: &[u8]) -> bool
    requires { length stream.now ≡ stream_numbers }
    ensures { result ≡ holds_message (stream_of stream.now buffer.now) }
{
    if is_stopped(stream) {
        return false;
    }
    let now = held_in(stream);
    let place = least(now.place, buffer.len());
    let end = least(place + now.count, buffer.len());
    let shows = session_look::look_message(now.left, &buffer[place..end]);
    if let Shows::Message(k) = shows {
        return true;
    }
    false
}
