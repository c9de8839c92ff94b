// What a neighbour is told of a refusal: its status, and what is copied of the refused message.
#![tactic(auto)]

ghost use Rattle.std.specs.Prelude.{◌≡◌, ◌+◌, ◌<◌};
ghost use Rattle.meaning.specs.Notice.{status_of, is_status, is_fatal, status_code, copied_id, copied_type};

// ---- the status

// 0 where the neighbour is not told.
pub fn status_of(number: u32) -> u32
    ensures { (result ≡ status_of number) × (result < 32) }
{
    match number {
        2 => 0x05,
        3 => 0x04,
        4 => 0x07,
        5 => 0x16,
        6 | 7 | 18 => 0x0c,
        8 => 0x08,
        9 => 0x06,
        11 | 12 => 0x0e,
        _ => 0,
    }
}

fn is_fatal(status: u32) -> bool
    ensures { result ≡ is_fatal status }
{
    if status == 0x05 {
        return true;
    }
    if status == 0x07 {
        return true;
    }
    status == 0x08
}

// With the E bit where the error is fatal.
pub fn status_code(status: u32) -> u32
    requires { status < 1073741824 }
    ensures { result ≡ status_code status }
{
    if is_fatal(status) {
        return 0x80000000 + status;
    }
    status
}

// ---- what is copied

pub fn copied_id(octets: &[u8]) -> u32
    ensures { result ≡ copied_id octets.now }
{
    if octets.len() < 8 {
        return 0;
    }
    octets::four_at(octets, 4) as u32
}

pub fn copied_type(octets: &[u8]) -> u32
    ensures { (result ≡ copied_type octets.now) × (result < 65536) }
{
    if octets.len() < 8 {
        return 0;
    }
    octets::two_at(octets, 0) as u32
}

// Whether some refusal has this status data.
pub fn is_status(status: u32) -> bool
    ensures { result ≡ is_status status }
{
    match status {
        0x04 | 0x05 | 0x06 | 0x07 | 0x08 | 0x0c | 0x0e | 0x16 => true,
        _ => false,
    }
}
