// What is written is read back the same, for both address lengths and every length of an opaque value that is one element.
#![tactic(auto)]

ghost use Rattle.std.specs.Prelude.{◌≡◌, ◌+◌, ◌<◌, ◌≤◌, length};
ghost use Rattle.meaning.specs.Wire.{opaque_limit, root_limit, name_limit};

use meaning::{NAME_LIMIT, OPAQUE_LIMIT, RECORD_BESIDE, RECORD_LIMIT};
use refusals::Refusal;
use std::io;
use wire_reader::Kind;

const LONGEST: u8 = OPAQUE_LIMIT as u8;
// an element with no value
const SHORTEST: u8 = 3;
// the longest record, and two octets behind it
const ROOM: usize = RECORD_LIMIT + 2;

// What a record says beside its name.
#[derive(Clone, Copy)]
struct Sent {
    to: u64,
    kind: Kind,
    id: u32,
    label: u64,
}

fn fill(s: &mut [u8], first: u8)
    ensures { length s.new ≡ length s.old }
{
    let mut octet = first;
    for place in s.iter_mut() {
        *place = octet;
        octet = octet.wrapping_add(1);
    }
}

// A P2MP element whose opaque value is one element of type 1. No two octets of its root and of that element's value are the same.
fn put_element(e: &mut [u8], family: u8, root: u8, opaque: u8)
    requires { (length e.old ≡ 6 + root + opaque) × (root ≤ root_limit) × (3 ≤ opaque) × (opaque ≤ opaque_limit) }
    ensures { length e.new ≡ 6 + root + opaque }
{
    fill(e, 64);
    octets::copy(&mut e[0..4], &[6, 0, family, root]);
    let at = 4 + root as usize;
    let end = at + 5;
    octets::copy(&mut e[at..end], &[0, opaque, 1, 0, opaque - SHORTEST]);
}

fn kind_of(turn: u64) -> Kind {
    match turn % 3 {
        0 => Kind::Mapping,
        1 => Kind::Withdraw,
        _ => Kind::Release,
    }
}

fn type_of(kind: Kind) -> u64 {
    match kind {
        Kind::Mapping => 0x0400,
        Kind::Withdraw => 0x0402,
        Kind::Release => 0x0403,
    }
}

// Neighbours from 1 to 65535, labels from 16 to 1048575, and identifiers on both sides of 4294967295.
fn nth(turn: u64) -> Sent
    requires { turn < opaque_limit }
{
    Sent {
        to: 1 + turn * 65534 / 127,
        kind: kind_of(turn),
        id: std::num::wrapping_add_u32(4294967280, turn as u32),
        label: 16 + turn * 1048559 / 127,
    }
}

fn is_next(id: u32, next: u32) -> bool {
    if id == 4294967295 {
        return next == 0;
    }
    next == id + 1
}

// Whether the record has its mark, neighbour and identifier, and ends where its length field says.
fn is_whole(record: &[u8], sent: Sent) -> bool {
    if octets::two_at(record, 0) != 0x4c44 {
        return false;
    }
    if octets::two_at(record, 2) != sent.to {
        return false;
    }
    if octets::four_at(record, 8) != sent.id as u64 {
        return false;
    }
    8 + octets::two_at(record, 6) == record.len() as u64
}

fn is_said(message: &[u8], sent: Sent, name: &[u8]) -> bool {
    match wire_reader::read_message(message) {
        Err(_) => false,
        Ok(said) => {
            if said.kind != sent.kind {
                return false;
            }
            if said.label != sent.label {
                return false;
            }
            octets::equal(&message[said.start..said.end], name)
        }
    }
}

fn is_missized(message: &[u8]) -> bool {
    wire_reader::read_message(message) == Err(Refusal::BadLength)
}

// Whether the record at the front of the output is the one that was sent, with its message whole and no other.
fn is_right(out: &[u8], sent: Sent, name: &[u8]) -> bool
    requires { 25 + length name.now ≤ length out.now }
{
    let end = RECORD_BESIDE + name.len();
    let less = end - 1;
    let more = end + 1;
    if !is_whole(&out[0..end], sent) {
        return false;
    }
    if !is_said(&out[4..end], sent, name) {
        return false;
    }
    if !is_missized(&out[4..less]) {
        return false;
    }
    is_missized(&out[4..more])
}

fn is_kept(sent: Sent, name: &[u8]) -> bool
    requires { length name.now ≤ name_limit }
{
    let mut out = [0u8; ROOM];
    let next = wire_writer::send(
        sent.id,
        &mut out,
        0,
        sent.to,
        type_of(sent.kind),
        sent.label,
        name,
    );
    if !is_next(sent.id, next) {
        return false;
    }
    is_right(&out, sent, name)
}

fn is_kept_at(family: u8, root: u8, opaque: u8) -> bool
    requires { (root ≤ root_limit) × (3 ≤ opaque) × (opaque ≤ opaque_limit) }
{
    let mut name = [0u8; NAME_LIMIT];
    let n = 6 + root as usize + opaque as usize;
    put_element(&mut name[0..n], family, root, opaque);
    is_kept(nth(opaque as u64 - 1), &name[0..n])
}

// Of the opaque lengths 3 to 128, how many are read back.
fn count(family: u8, root: u8) -> u64
    requires { root ≤ root_limit }
    ensures { result ≤ opaque_limit }
{
    let mut kept = 0;
    for opaque in SHORTEST..LONGEST + 1 {
        if is_kept_at(family, root, opaque) {
            kept += 1;
        }
    }
    kept
}

fn report(rt: &impl Print, family: u8, root: u8) -> io::Result<()>
    requires { root ≤ root_limit }
{
    let kept = count(family, root);
    println!(rt; "{root}-octet root: {kept} of 126 read back")
}

fn main(rt: HostRuntime) -> io::Result<()> {
    report(&rt, 1, 4)?;
    report(&rt, 2, 16)
}
