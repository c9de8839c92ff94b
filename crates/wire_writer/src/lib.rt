// One record out: the mark, the neighbour, and an LDP message with a FEC and a Label TLV, numbered by the card's counter.
#![tactic(auto)]

ghost use Rattle.std.specs.Prelude.{◌≡◌, ◌+◌, ◌≤◌, ◌∷◌, ◌++◌, length};
ghost use Rattle.meaning.specs.Octets.{two, four};
ghost use Rattle.meaning.specs.Wire.{record_of, record_size, next_id};
ghost use Rattle.meaning.specs.Events.{tell};
ghost use Rattle.octets.specs.Part.{mid};
ghost use Rattle.wire_writer.specs.Count.{after};

use meaning::RECORD_BESIDE;

// ---- the counter

#[derive(Clone, Copy)]
pub struct Counter {
    pub next: u32,
}

// The core, by value: after 4294967295 comes 0.
pub fn stepped(c: Counter) -> Counter
    ensures { result ≡ after c }
{
    Counter {
        next: std::num::wrapping_add_u32(c.next, 1),
    }
}

// Gives the identifier to use, and advances the counter in place.
pub fn advance(c: &mut Counter) -> u32
    ensures { (result ≡ c.old.next) × (c.new ≡ after c.old) }
{
    let id = c.next;
    let next = stepped(*c);
    *c = next;
    id
}

// ---- a record

// How many octets the record of a name has, so that room can be tested before anything is written.
pub fn record_size(name: &[u8]) -> usize
    requires { length name.now ≤ 65535 }
    ensures { result ≡ record_size name.now }
{
    RECORD_BESIDE + name.len()
}

// What stands before the name: the mark, the neighbour, the message's type, length and identifier, and the head of the FEC TLV.
fn put_record_head(out: &mut [u8], to: u64, kind: u64, id: u32, size: u64)
    requires { (length out.old ≡ 16) × (size ≤ 65535) }
    ensures { out.new ≡ 0x4C ∷ 0x44 ∷ (two to ++ (two kind ++ (two (16 + size) ++ (four id ++ (two 0x0100 ++ two size))))) }
{
    let after = 16 + size;
    let [.., t1, t0] = to.to_be_bytes();
    let [.., k1, k0] = kind.to_be_bytes();
    let [.., a1, a0] = after.to_be_bytes();
    let [i3, i2, i1, i0] = id.to_be_bytes();
    let [.., s1, s0] = size.to_be_bytes();
    let head = [
        0x4c, 0x44, t1, t0, k1, k0, a1, a0, i3, i2, i1, i0, 1, 0, s1, s0,
    ];
    octets::copy(out, &head);
}

// The Label TLV.
fn put_label_tlv(out: &mut [u8], label: u64)
    requires { length out.old ≡ 8 }
    ensures { out.new ≡ two 0x0200 ++ (two 4 ++ four label) }
{
    let [.., l3, l2, l1, l0] = label.to_be_bytes();
    let tail = [2, 0, 0, 4, l3, l2, l1, l0];
    octets::copy(out, &tail);
}

// A record at a place of the output, with a given identifier: the octets before it and behind it stay.
pub fn put_record(out: &mut [u8], at: usize, to: u64, kind: u64, label: u64, name: &[u8], id: u32)
    requires { (at + record_size name.now ≤ length out.old) × (length name.now ≤ 65535) }
    ensures { out.new ≡ mid at (record_size name.now) out.old (record_of id (tell to kind name.now label)) }
{
    let a = at + 16;
    put_record_head(&mut out[at..a], to, kind, id, name.len() as u64);
    let b = a + name.len();
    octets::copy_text(&mut out[a..b], name);
    let e = b + 8;
    put_label_tlv(&mut out[b..e], label);
}

// The message writer: it is lent the counter and the output, and advances the counter in place.
pub fn write_record(
    c: &mut Counter,
    out: &mut [u8],
    at: usize,
    to: u64,
    kind: u64,
    label: u64,
    name: &[u8],
)
    requires { (at + record_size name.now ≤ length out.old) × (length name.now ≤ 65535) }
    ensures { (c.new ≡ after c.old)
        × (out.new ≡ mid at (record_size name.now) out.old (record_of c.old.next (tell to kind name.now label))) }
{
    let id = advance(c);
    put_record(out, at, to, kind, label, name, id);
}

// The same from and to the plain number: the identifier to use, and the one after it.
pub fn send(
    next: u32,
    out: &mut [u8],
    at: usize,
    to: u64,
    kind: u64,
    label: u64,
    name: &[u8],
) -> u32
    requires { (at + record_size name.now ≤ length out.old) × (length name.now ≤ 65535) }
    ensures { (result ≡ next_id next)
        × (out.new ≡ mid at (record_size name.now) out.old (record_of next (tell to kind name.now label))) }
{
    let mut c = Counter { next };
    write_record(&mut c, out, at, to, kind, label, name);
    c.next
}
