// One LDP message in: RFC 5036's TLVs, and the refusals 2 to 9 and 18.
#![tactic(auto)]

ghost use Rattle.std.specs.Prelude.{◌≡◌, false, not, drop};
ghost use Rattle.meaning.specs.Octets.{any, two_at};
ghost use Rattle.meaning.specs.Wire.{tlvs, is_overrun, found, must};
ghost use Rattle.wire_reader.specs.Read.{tlv_at, end_of, label_in, type_of, kind_of, Heads, Ordered, Reads};

use meaning::{LEAST_LABEL, MOST_LABEL};
use refusals::Refusal;

// ---- TLVs

// A thin reader: the message and a place in it. `tlv_at`, on a plain slice and a number, does the work.
#[derive(Clone, Copy)]
pub struct Tlvs<'a> {
    pub message: &'a [u8],
    pub at: usize,
}

// What stands at a place: a whole TLV, with its type field and the ends of its value, the second of which is the place of
// the next TLV; the end of the message; or a head or a value that runs past the message.
#[derive(Clone, Copy)]
pub enum Tlv {
    Whole { kind: u64, start: usize, end: usize },
    End,
    Past,
}

pub fn tlv_at(message: &[u8], at: usize) -> Tlv
    ensures { result ≡ tlv_at message.now at }
{
    let n = message.len();
    if n <= at {
        return Tlv::End;
    }
    let left = n - at;
    if left < 4 {
        return Tlv::Past;
    }
    let kind = octets::two_at(message, at);
    let size = octets::two_at(message, at + 2) as usize;
    if left - 4 < size {
        return Tlv::Past;
    }
    Tlv::Whole {
        kind,
        start: at + 4,
        end: at + 4 + size,
    }
}

pub fn over<'a>(message: &'a [u8]) -> Tlvs<'a>
    ensures { (result.message ≡ message.entry) × (result.at ≡ 8) }
{
    Tlvs { message, at: 8 }
}

pub fn moved<'a>(t: Tlvs<'a>, at: usize) -> Tlvs<'a>
    ensures { (result.message ≡ t.entry.message) × (result.at ≡ at) }
{
    Tlvs {
        message: t.message,
        at,
    }
}

pub fn next<'a>(t: Tlvs<'a>) -> Tlv
    ensures { result ≡ tlv_at t.entry.message.now t.entry.at }
{
    tlv_at(t.message, t.at)
}

// The TLV at a place of a message, with plain parameters: whoever calls it needs no reader.
pub fn tlv_from(message: &[u8], at: usize) -> Tlv
    ensures { result ≡ tlv_at message.now at }
{
    next(moved(over(message), at))
}

// ---- a message

#[derive(Clone, Copy, PartialEq, Eq)]
pub enum Kind {
    Mapping,
    Withdraw,
    Release,
}

// What a message says: its kind, where its name lies, and the label.
#[derive(Clone, Copy, PartialEq, Eq)]
pub struct Said {
    pub kind: Kind,
    pub start: usize,
    pub end: usize,
    pub label: u64,
}

// Whether whole TLVs fill the message.
fn whole_tlvs(message: &[u8]) -> bool
    ensures { result ≡ not (is_overrun (tlvs (drop 8 message.now))) }
{
    let mut at: usize = 8;
    loop {
        match tlv_from(message, at) {
            Tlv::Whole {
                kind: _,
                start: _,
                end: next,
            } => {
                at = next;
            }
            Tlv::End => {
                return true;
            }
            Tlv::Past => {
                return false;
            }
        }
    }
}

// Whether a TLV with its U bit clear stands at a place or further on, where whole TLVs fill the rest.
fn must_follow(message: &[u8], from: usize) -> bool
    requires { is_overrun (tlvs (drop from message.now)) ≡ false }
    ensures { result ≡ any must (found (tlvs (drop from message.now))) }
{
    let mut at = from;
    loop {
        match tlv_from(message, at) {
            Tlv::Whole {
                kind,
                start: _,
                end,
            } => {
                if kind < 0x8000 {
                    return true;
                }
                at = end;
            }
            Tlv::End => {
                return false;
            }
            Tlv::Past => {
                return false;
            }
        }
    }
}

// Where the value of the TLV at a place ends, if a whole TLV of that type stands there.
fn value_end(message: &[u8], at: usize, kind: u64) -> Option<usize>
    ensures { result ≡ end_of kind (tlv_at message.now at) }
{
    match tlv_from(message, at) {
        Tlv::Whole {
            kind: found,
            start: _,
            end,
        } => {
            if found == kind {
                return Some(end);
            }
            None
        }
        Tlv::End => None,
        Tlv::Past => None,
    }
}

fn kind_of(number: u64) -> Option<Kind>
    ensures { result ≡ kind_of number }
{
    match number {
        0x0400 => Some(Kind::Mapping),
        0x0402 => Some(Kind::Withdraw),
        0x0403 => Some(Kind::Release),
        _ => None,
    }
}

// The label in the value of a Label TLV, if it holds one.
fn label_in(v: &[u8]) -> Option<u64>
    ensures { result ≡ label_in v.now }
{
    if v.len() != 4 {
        return None;
    }
    let label = octets::four_at(v, 0);
    if label < LEAST_LABEL {
        return None;
    }
    if MOST_LABEL < label {
        return None;
    }
    Some(label)
}

// The message's kind; refusals 2, 3 and 4. The framing of the whole message comes before the first TLV is looked at.
fn check_head(message: &[u8]) -> Result<Kind, Refusal>
    ensures { Heads message.now result }
{
    if message.len() < 8 {
        return Err(Refusal::BadLength);
    }
    if 4 + octets::two_at(message, 2) != message.len() as u64 {
        return Err(Refusal::BadLength);
    }
    let kind = kind_of(octets::two_at(message, 0)).ok_or(Refusal::BadType)?;
    if whole_tlvs(message) {
        return Ok(kind);
    }
    Err(Refusal::TlvOverrun)
}

// The refusals 6, 7, 18, 8 and 9, where the kind and the ends of the first two TLVs are known.
fn read_body(message: &[u8], kind: Kind, fec: usize, end: usize) -> Result<Said, Refusal>
    requires kind { type_of kind ≡ two_at message.now 0 }
    requires ordered { Ordered message.now fec end }
    ensures { Reads message.now result }
{
    wire_name::check_element(&message[12..fec])?;
    let start = fec + 4;
    let label = label_in(&message[start..end]).ok_or(Refusal::BadLabel)?;
    if must_follow(message, end) {
        return Err(Refusal::UnknownTlv);
    }
    Ok(Said {
        kind,
        start: 12,
        end: fec,
        label,
    })
}

pub fn read_message(message: &[u8]) -> Result<Said, Refusal>
    ensures { Reads message.now result }
{
    let kind = check_head(message)?;
    let fec = value_end(message, 8, 0x0100).ok_or(Refusal::BadTlvOrder)?;
    let end = value_end(message, fec, 0x0200).ok_or(Refusal::BadTlvOrder)?;
    read_body(message, kind, fec, end)
}
