// The exports of `firmware_notices` to C: include/card.h declares them. Each calls the library's function by its name, and states its clauses again.
#![tactic(auto)]

ghost use Rattle.std.specs.Prelude.{◌≡◌, List, ℕ, length};
ghost use Rattle.meaning.specs.Notice.{notice};
ghost use Rattle.meaning.specs.Calls.{Does};
ghost use Rattle.memory.specs.Memory.{card_of};
ghost use Rattle.notice_reader.specs.Read.{read_of};
ghost use Rattle.refusals.specs.Refusals.{answer_of};
ghost use Rattle.firmware_notices.specs.Fields.{fields_of};

use memory::NUMBER_COUNT;

#[unsafe(no_mangle)]
pub extern "C" fn card_notice(
    numbers: &mut [u64; NUMBER_COUNT],
    neighbour: u32,
    number: u32,
    octets: &[u8],
    out: &mut [u8],
    answer: &mut u32,
) -> usize
    ensures { (os : List ℕ) → Does (notice (length out.old) (card_of numbers.old os) neighbour number octets.now)
        answer.new result out.old out.new (card_of numbers.new os) }
{
    firmware_notices::card_notice(numbers, neighbour, number, octets, out, answer)
}

#[unsafe(no_mangle)]
pub extern "C" fn card_read_notice(octets: &[u8], fields: &mut [u32; 5]) -> u32
    ensures { (result ≡ answer_of (read_of octets.now)) × (fields.new ≡ fields_of (read_of octets.now) fields.old) }
{
    firmware_notices::card_read_notice(octets, fields)
}
