// A tree's name, the octets of one P2MP element of RFC 6388: its root, and the refusals 6, 7 and 18.
#![tactic(auto)]

ghost use Rattle.std.specs.Prelude.{◌≡◌, ◌+◌, ◌≤◌, ◌<◌, length, drop};
ghost use Rattle.meaning.specs.Wire.{address_length, root_length, root_in, first_end, is_filled, element_refusal, root_limit, name_limit};
ghost use Rattle.refusals.specs.Refusals.{answer_of};

use meaning::{OPAQUE_LIMIT, ROOT_LIMIT};
use refusals::Refusal;

pub fn address_length(family: u64) -> usize
    ensures { (result ≡ address_length family) × (result ≤ root_limit) }
{
    if family == 1 {
        return 4;
    }
    if family == 2 {
        return ROOT_LIMIT;
    }
    0
}

pub fn root_length(e: &[u8]) -> usize
    ensures { (result ≡ root_length e.now) × (result ≤ root_limit) }
{
    address_length(octets::two_at(e, 1))
}

// The part that holds the root address.
pub fn root_of(e: &[u8]) -> &[u8]
    ensures { result.now ≡ root_in e.now }
{
    let n = root_length(e);
    if e.len() < 4 {
        return &e[0..0];
    }
    if e.len() - 4 < n {
        return &e[4..];
    }
    let end = 4 + n;
    &e[4..end]
}

// Where the element of an opaque value ends that begins at a place: type 1 octet, length 2 and a value; or type 255, extended type 2, length 2 and a value.
// Octets past the end are read as 0, and an end behind them tells of them.
fn element_end(s: &[u8], at: usize) -> usize
    requires { (at < length s.now) × (length s.now ≤ name_limit) }
    ensures { (result ≡ at + first_end (drop at s.now)) × (at < result) }
{
    if octets::at(s, at) == 255 {
        return at + 5 + octets::two_at(s, at + 3) as usize;
    }
    at + 3 + octets::two_at(s, at + 1) as usize
}

// Whether whole elements fill the octets from a place on.
fn is_filled(s: &[u8], from: usize) -> bool
    requires { (from ≤ length s.now) × (length s.now ≤ name_limit) }
    ensures { result ≡ is_filled (drop from s.now) }
{
    let mut at = from;
    while at < s.len() {
        let end = element_end(s, at);
        if s.len() < end {
            return false;
        }
        at = end;
    }
    true
}

// Whether the octets are one whole P2MP element; else refusal 6, 7 or 18.
pub fn check_element(e: &[u8]) -> Result<(), Refusal>
    ensures { answer_of result ≡ element_refusal e.now }
{
    if octets::at(e, 0) != 6 {
        return Err(Refusal::BadElement);
    }
    let n = root_length(e);
    if n == 0 {
        return Err(Refusal::BadElement);
    }
    if octets::at(e, 3) != n as u64 {
        return Err(Refusal::BadElement);
    }
    let k = octets::two_at(e, 4 + n) as usize;
    if e.len() != 6 + n + k {
        return Err(Refusal::BadElement);
    }
    if k == 0 {
        return Err(Refusal::BadOpaque);
    }
    if OPAQUE_LIMIT < k {
        return Err(Refusal::BadOpaque);
    }
    if is_filled(e, 6 + n) {
        return Ok(());
    }
    Err(Refusal::MalformedOpaque)
}
