// The record that tells a neighbour why its message was refused.
// The writer has a core, which says what becomes of the whole output, and a call that hands back the part that holds the record.
#![tactic(auto)]

ghost use Rattle.std.specs.Prelude.{◌≡◌, List, ℕ, length};
ghost use Rattle.meaning.specs.Wire.{next_id};
ghost use Rattle.meaning.specs.Notice.{notice};
ghost use Rattle.meaning.specs.Calls.{Does, Hands};
ghost use Rattle.refusals.specs.Refusals.{answer_of, count_of};
ghost use Rattle.memory.specs.Memory.{card_of};

use memory::NUMBER_COUNT;
use refusals::Refusal;
use wire_writer::Counter;

// The counter of all messages, after this one.
fn next_of(id: u32) -> u32
    ensures { result ≡ next_id id }
{
    let c = wire_writer::stepped(Counter { next: id });
    c.next
}

// How many octets were written. Nothing is changed or written before 16 is tested.
fn tell(
    numbers: &mut [u64; NUMBER_COUNT],
    neighbour: u32,
    number: u32,
    octets: &[u8],
    out: &mut [u8],
) -> Result<usize, Refusal>
    ensures { (os : List ℕ) → Does (notice (length out.old) (card_of numbers.old os) neighbour number octets.now)
        (answer_of result) (count_of result) out.old out.new (card_of numbers.new os) }
{
    if 15 < neighbour {
        return Err(Refusal::NoSuchNeighbour);
    }
    if !notice_record::is_due(number, octets) {
        return Ok(0);
    }
    if out.len() < 26 {
        return Err(Refusal::NoRoom);
    }
    let id = memory::next_id(numbers);
    notice_record::put_notice(out, id, neighbour, number, octets);
    memory::set_next_id(numbers, next_of(id));
    Ok(26)
}

// From the refused octets and the refusal's number. The names are not needed: the card is that of any names.
pub fn notice_core(
    numbers: &mut [u64; NUMBER_COUNT],
    neighbour: u32,
    number: u32,
    octets: &[u8],
    out: &mut [u8],
    answer: &mut u32,
) -> usize
    ensures { (os : List ℕ) → Does (notice (length out.old) (card_of numbers.old os) neighbour number octets.now)
        answer.new result out.old out.new (card_of numbers.new os) }
{
    let written = tell(numbers, neighbour, number, octets, out);
    refusals::tell(written, answer)
}

pub fn notice<'a>(
    numbers: &mut [u64; NUMBER_COUNT],
    neighbour: u32,
    number: u32,
    octets: &[u8],
    out: &'a mut [u8],
    answer: &mut u32,
) -> &'a mut [u8]
    ensures { ((os : List ℕ) → Hands (notice (length out.old) (card_of numbers.old os) neighbour number octets.now)
        answer.new result.now (card_of numbers.new os)) × (result.ref_ptr ≡ out.entry.ref_ptr) }
{
    let n = notice_core(numbers, neighbour, number, octets, &mut *out, answer);
    &mut out[..n]
}
