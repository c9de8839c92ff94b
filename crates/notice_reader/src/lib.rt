// The reader of the records that tell a neighbour why its message was refused.
#![tactic(auto)]

ghost use Rattle.std.specs.Prelude.{◌≡◌, ◌<◌};
ghost use Rattle.meaning.specs.Notice.{is_framed, is_told};
ghost use Rattle.notice_reader.specs.Read.{read_of};

use refusals::Refusal;

// What a record says.
#[derive(Clone, Copy)]
pub struct Notice {
    pub neighbour: u32,
    pub id: u32,
    pub status: u32,
    pub copied_id: u32,
    pub copied_type: u32,
}

// Whether the length, the mark, the neighbour and the two heads are those of a record.
fn is_framed(octets: &[u8]) -> bool
    ensures { result ≡ is_framed octets.now }
{
    if octets.len() != 26 {
        return false;
    }
    if octets::two_at(octets, 0) != 0x4c44 {
        return false;
    }
    if 15 < octets::two_at(octets, 2) {
        return false;
    }
    if octets::two_at(octets, 4) != 0x0001 {
        return false;
    }
    if octets::two_at(octets, 6) != 18 {
        return false;
    }
    if octets::two_at(octets, 12) != 0x0300 {
        return false;
    }
    octets::two_at(octets, 14) == 10
}

// Whether the status code and the copied type are such as the writer writes.
fn is_told(octets: &[u8]) -> bool
    ensures { result ≡ is_told octets.now }
{
    let code = octets::four_at(octets, 16) as u32;
    let status = code % 0x40000000;
    if notice_status::is_status(status) {
        if code != notice_status::status_code(status) {
            return false;
        }
        if status == 0x04 {
            return octets::two_at(octets, 24) < 0x8000;
        }
        return true;
    }
    false
}

pub fn read_notice(octets: &[u8]) -> Result<Notice, Refusal>
    ensures { result ≡ read_of octets.now }
{
    if !is_framed(octets) || !is_told(octets) {
        return Err(Refusal::BadNotice);
    }
    Ok(Notice {
        neighbour: octets::two_at(octets, 2) as u32,
        id: octets::four_at(octets, 8) as u32,
        status: (octets::four_at(octets, 16) % 0x40000000) as u32,
        copied_id: octets::four_at(octets, 20) as u32,
        copied_type: octets::two_at(octets, 24) as u32,
    })
}
