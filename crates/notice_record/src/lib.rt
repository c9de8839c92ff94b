// The record of a Notification: whether one is due, and its octets.
#![tactic(auto)]

ghost use Rattle.std.specs.Prelude.{◌≡◌, ◌∷◌, ◌++◌, ◌≤◌, length};
ghost use Rattle.meaning.specs.Octets.{two, four};
ghost use Rattle.meaning.specs.Notice.{notice_due, notice_record};
ghost use Rattle.meaning.specs.Calls.{over};

// Whether a record is due at all.
pub fn is_due(number: u32, octets: &[u8]) -> bool
    ensures { result ≡ notice_due number octets.now }
{
    if notice_status::status_of(number) == 0 {
        return false;
    }
    if number == 3 {
        return notice_status::copied_type(octets) < 0x8000;
    }
    true
}

// The mark, the neighbour, the message's type, length and identifier, and the head of the Status TLV.
fn put_notice_head(out: &mut [u8], neighbour: u32, id: u32)
    requires { length out.old ≡ 16 }
    ensures { out.new ≡ 0x4C ∷ 0x44 ∷ (two neighbour ++ (two 0x0001 ++ (two 18 ++ (four id ++ (two 0x0300 ++ two 10))))) }
{
    let [.., n1, n0] = neighbour.to_be_bytes();
    let [i3, i2, i1, i0] = id.to_be_bytes();
    let head = [0x4c, 0x44, n1, n0, 0, 1, 0, 18, i3, i2, i1, i0, 3, 0, 0, 10];
    octets::copy(out, &head);
}

// The Status TLV's value.
fn put_status(out: &mut [u8], code: u32, id: u32, kind: u32)
    requires { length out.old ≡ 10 }
    ensures { out.new ≡ four code ++ (four id ++ two kind) }
{
    let [c3, c2, c1, c0] = code.to_be_bytes();
    let [i3, i2, i1, i0] = id.to_be_bytes();
    let [.., k1, k0] = kind.to_be_bytes();
    let value = [c3, c2, c1, c0, i3, i2, i1, i0, k1, k0];
    octets::copy(out, &value);
}

// The record at the front of the output: the octets behind it stay.
pub fn put_notice(out: &mut [u8], id: u32, neighbour: u32, number: u32, octets: &[u8])
    requires { 26 ≤ length out.old }
    ensures { out.new ≡ over (notice_record id neighbour number octets.now) out.old }
{
    let code = notice_status::status_code(notice_status::status_of(number));
    let refused = notice_status::copied_id(octets);
    let kind = notice_status::copied_type(octets);
    put_notice_head(&mut out[0..16], neighbour, id);
    put_status(&mut out[16..26], code, refused, kind);
}
