// The label part's records, one after the other: where the next one to a neighbour stands, and how long its message is.
#![tactic(auto)]

ghost use Rattle.std.specs.Prelude.{◌≡◌, ◌≤◌, ◌<◌, length};
ghost use Rattle.session.specs.Pack.{is_record};
ghost use Rattle.session_records.specs.Records.{size_at, Finds};

use session::BODY_LIMIT;

fn is_record(s: &[u8]) -> bool
    ensures { result ≡ is_record s.now }
{
    let marked = (octets::at(s, 0) == 0x4c) & (octets::at(s, 1) == 0x44);
    let k = octets::two_at(s, 6) as usize;
    (12 <= s.len()) & marked & (4 <= k) & (4 + k <= BODY_LIMIT) & (8 + k <= s.len())
}

// How many octets the message of the record at a place has, by its length field.
pub fn message_size(records: &[u8], at: usize) -> usize
    requires { at < length records.now }
    ensures { (result ≡ size_at at records.now) × (result < 65540) }
{
    4 + octets::two_at(records, at + 6) as usize
}

// The place of the first record to a neighbour from a place on; the end where there is none.
pub fn find(records: &[u8], from: usize, to: u64) -> usize
    requires { from ≤ length records.now }
    ensures { Finds to from records.now result }
{
    let mut i = from;
    while i < records.len() {
        if !is_record(&records[i..]) {
            return records.len();
        }
        if octets::two_at(records, i + 2) == to {
            return i;
        }
        i += 4 + message_size(records, i);
    }
    records.len()
}
