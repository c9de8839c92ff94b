// What a call of the card is lent for an order: the octets that the order brings, and room for the octets that it writes.
#![tactic(auto)]

ghost use Rattle.std.specs.Prelude.{◌≡◌, min, length, take};
ghost use Rattle.meaning.specs.Card.{sent_limit};
ghost use Rattle.bench_words.specs.Words.{input_limit};

use bench_words::INPUT_LIMIT;
use meaning::SENT_LIMIT;

// The octets that an order brings: 4096 at most.
pub fn input() -> [u8; INPUT_LIMIT]
    ensures { input_limit ≡ length result }
{
    [0; INPUT_LIMIT]
}

pub fn output() -> [u8; SENT_LIMIT]
    ensures { sent_limit ≡ length result }
{
    [0; SENT_LIMIT]
}

// The octets of output that an event or a save is lent: as many as the room says, or all.
pub fn lent(out: &mut [u8], room: u32) -> &mut [u8]
    ensures { (result.now ≡ take room out.old) × (length result.now ≡ min room (length out.old)) }
{
    let n = out.len().min(room as usize);
    &mut out[..n]
}
