// PDUs that are being filled: how many octets a message adds, and a message written behind what is written already.
#![tactic(auto)]

ghost use Rattle.std.specs.Prelude.{◌≡◌, ◌++◌, ◌+◌, ◌≤◌, ◌<◌, length};
ghost use Rattle.meaning.specs.Octets.{two};
ghost use Rattle.octets.specs.Part.{mid};
ghost use Rattle.session.specs.Stream.{pdu_head, identifier_size, body_limit};
ghost use Rattle.session.specs.Pack.{pdu};
ghost use Rattle.session_pdu.specs.Packing.{body_after, added_by, length_place, Put};

use session::{BODY_LIMIT, IDENTIFIER_SIZE, PDU_HEAD};

// ---- how full they get

pub fn body_after(body: usize, k: usize) -> usize
    requires { (body ≤ body_limit) × (k ≤ body_limit) }
    ensures { (result ≡ body_after body k) × (result ≤ body_limit) }
{
    if body + k <= BODY_LIMIT { body + k } else { k }
}

pub fn added_by(body: usize, k: usize) -> usize
    requires { (body ≤ body_limit) × (k ≤ body_limit) }
    ensures { (result ≡ added_by body k) × (result ≤ pdu_head + body_limit) }
{
    if body + k <= BODY_LIMIT {
        k
    } else {
        PDU_HEAD + k
    }
}

// ---- how they are written

fn put_head(out: &mut [u8], size: u64)
    requires { length out.old ≡ 4 }
    ensures { out.new ≡ two 1 ++ two size }
{
    let [.., s1, s0] = size.to_be_bytes();
    let head = [0, 1, s1, s0];
    octets::copy(out, &head);
}

fn put_length(out: &mut [u8], size: u64)
    requires { length out.old ≡ 2 }
    ensures { out.new ≡ two size }
{
    let [.., s1, s0] = size.to_be_bytes();
    octets::copy(out, &[s1, s0]);
}

// A PDU with one message, into a part of its length.
fn open_pdu(out: &mut [u8], id: &[u8], message: &[u8])
    requires { (length id.now ≡ identifier_size) × (length message.now ≤ body_limit) × (length out.old ≡ pdu_head + length message.now) }
    ensures { out.new ≡ pdu id.now message.now }
{
    put_head(&mut out[0..4], (IDENTIFIER_SIZE + message.len()) as u64);
    octets::copy(&mut out[4..PDU_HEAD], id);
    let end = PDU_HEAD + message.len();
    octets::copy(&mut out[PDU_HEAD..end], message);
}

// A message more in a PDU whose `body` octets of messages end at the place `at`: its length field is written anew.
fn fill_pdu(out: &mut [u8], at: usize, body: usize, message: &[u8])
    requires { (body + length message.now ≤ body_limit) × (body + pdu_head ≤ at) × (at + length message.now ≤ length out.old) }
    ensures { out.new ≡ mid at (length message.now) (mid (length_place at body) 2 out.old (two (identifier_size + (body + length message.now)))) message.now }
{
    let place = at - (body + 8);
    let after = place + 2;
    put_length(
        &mut out[place..after],
        (IDENTIFIER_SIZE + (body + message.len())) as u64,
    );
    let end = at + message.len();
    octets::copy(&mut out[at..end], message);
}

// A message more behind what is written, which ends at the place `at`.
pub fn put_message(out: &mut [u8], at: usize, body: usize, id: &[u8], message: &[u8]) -> usize
    requires { (length id.now ≡ identifier_size) × (8 ≤ length message.now) × (length message.now ≤ body_limit) × (body ≤ body_limit)
        × (body < body_limit → body + pdu_head ≤ at) × (at + added_by body (length message.now) ≤ length out.old) }
    ensures { Put id.now at body out.old message.now result out.new }
{
    let k = message.len();
    if body + k <= BODY_LIMIT {
        fill_pdu(out, at, body, message);
        return at + k;
    }
    let end = at + PDU_HEAD + k;
    open_pdu(&mut out[at..end], id, message);
    end
}
