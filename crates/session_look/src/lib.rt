// What the octets at the front of a stream show, where the current PDU has so many octets left.
#![tactic(auto)]

ghost use Rattle.std.specs.Prelude.{◌≡◌, ◌≤◌, IfSome};
ghost use Rattle.session.specs.Stream.{body_limit, look_head, look_message, look};
ghost use Rattle.session_look.specs.Shown.{shown, head_in};

use session::{IDENTIFIER_SIZE, LEAST_LENGTH, MOST_LENGTH, PDU_HEAD};

// What the octets at the front show: nothing yet, that the stream stops, a PDU's head and the octets after it, or a whole message.
#[derive(Clone, Copy)]
pub enum Shows {
    Wait,
    Bad,
    Head(usize),
    Message(usize),
}

// At the front of a PDU.
fn look_head(held: &[u8], expected: &[u8]) -> Shows
    ensures { shown result ≡ look_head expected.now held.now }
{
    if held.len() < 2 {
        return Shows::Wait;
    }
    if octets::two_at(held, 0) != 1 {
        return Shows::Bad;
    }
    if held.len() < 4 {
        return Shows::Wait;
    }
    let k = octets::two_at(held, 2) as usize;
    if k < LEAST_LENGTH {
        return Shows::Bad;
    }
    if MOST_LENGTH < k {
        return Shows::Bad;
    }
    if held.len() < PDU_HEAD {
        return Shows::Wait;
    }
    if octets::equal(&held[4..PDU_HEAD], expected) {
        return Shows::Head(k - IDENTIFIER_SIZE);
    }
    Shows::Bad
}

// At the front of a message, where the PDU has `left` octets left.
pub fn look_message(left: usize, held: &[u8]) -> Shows
    ensures { shown result ≡ look_message left held.now }
{
    if left < 4 {
        return Shows::Bad;
    }
    if held.len() < 4 {
        return Shows::Wait;
    }
    let size = 4 + octets::two_at(held, 2) as usize;
    if left < size {
        return Shows::Bad;
    }
    if held.len() < size {
        return Shows::Wait;
    }
    Shows::Message(size)
}

pub fn look(left: usize, held: &[u8], expected: &[u8]) -> Shows
    ensures { shown result ≡ look expected.now left held.now }
{
    if left == 0 {
        return look_head(held, expected);
    }
    look_message(left, held)
}

// How many octets of messages a PDU has whose whole head is held, in good order.
pub fn whole_head(left: usize, held: &[u8], expected: &[u8]) -> Option<usize>
    ensures { (result ≡ head_in (look expected.now left held.now)) × IfSome result (λ n. n ≤ body_limit) }
{
    match look(left, held, expected) {
        Shows::Head(n) => Some(n),
        _ => None,
    }
}
