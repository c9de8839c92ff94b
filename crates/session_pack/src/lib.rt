// The writer: one neighbour's messages, in order, in PDUs as full of whole ones as 4096 allows. It takes the label part's records.
#![tactic(auto)]

ghost use Rattle.std.specs.Prelude.{◌≡◌, ◌≤◌, length, leb};
ghost use Rattle.meaning.specs.Calls.{over};
ghost use Rattle.session.specs.Stream.{identifier_size};
ghost use Rattle.session.specs.Pack.{messages_to, packed, pack};
ghost use Rattle.session.specs.Calls.{Packs};
ghost use Rattle.refusals.specs.Refusals.{answer_of, count_of};

use refusals::Refusal;
use session::{BODY_LIMIT, IDENTIFIER_SIZE};

// Whether the PDUs find room.
fn has_room(records: &[u8], to: u64, id: &[u8], room: usize) -> bool
    requires { length id.now ≡ identifier_size }
    ensures { result ≡ leb (length (packed id.now (messages_to to records.now))) room }
{
    let mut left = room;
    let mut body = BODY_LIMIT;
    let mut i = session_records::find(records, 0, to);
    while i < records.len() {
        let k = session_records::message_size(records, i);
        let more = session_pdu::added_by(body, k);
        if left < more {
            return false;
        }
        left -= more;
        body = session_pdu::body_after(body, k);
        i = session_records::find(records, i + 4 + k, to);
    }
    true
}

fn put_all(records: &[u8], to: u64, id: &[u8], out: &mut [u8]) -> usize
    requires { (length id.now ≡ identifier_size) × (length (packed id.now (messages_to to records.now)) ≤ length out.old) }
    ensures { (result ≡ length (packed id.now (messages_to to records.now))) × (out.new ≡ over (packed id.now (messages_to to records.now)) out.old) }
{
    let mut at = 0;
    let mut body = BODY_LIMIT;
    let mut i = session_records::find(records, 0, to);
    while i < records.len() {
        let k = session_records::message_size(records, i);
        let end = i + 4 + k;
        at = session_pdu::put_message(out, at, body, id, &records[i + 4..end]);
        body = session_pdu::body_after(body, k);
        i = session_records::find(records, end, to);
    }
    at
}

// ---- the call: the messages to a neighbour in these records; `id` is our own identifier

// How many octets were written.
fn pack_all(
    records: &[u8],
    neighbour: u32,
    id: &[u8; IDENTIFIER_SIZE],
    out: &mut [u8],
) -> Result<usize, Refusal>
    ensures { Packs (pack id.now neighbour (length out.old) records.now) (answer_of result) (count_of result) out.old out.new }
{
    if 15 < neighbour {
        return Err(Refusal::NoSuchNeighbour);
    }
    if !has_room(records, neighbour as u64, id, out.len()) {
        return Err(Refusal::NoRoom);
    }
    Ok(put_all(records, neighbour as u64, id, out))
}

pub fn pack_core(
    records: &[u8],
    neighbour: u32,
    id: &[u8; IDENTIFIER_SIZE],
    out: &mut [u8],
    answer: &mut u32,
) -> usize
    ensures { Packs (pack id.now neighbour (length out.old) records.now) answer.new result out.old out.new }
{
    let packed = pack_all(records, neighbour, id, out);
    refusals::tell(packed, answer)
}

pub fn pack<'a>(
    records: &[u8],
    neighbour: u32,
    id: &[u8; IDENTIFIER_SIZE],
    out: &'a mut [u8],
    answer: &mut u32,
) -> &'a mut [u8]
    ensures { (answer.new ≡ (pack id.now neighbour (length out.old) records.now).answer)
        × (result.now ≡ (pack id.now neighbour (length out.old) records.now).octets) × (result.ref_ptr ≡ out.entry.ref_ptr) }
{
    let n = pack_core(records, neighbour, id, &mut *out, answer);
    &mut out[..n]
}
