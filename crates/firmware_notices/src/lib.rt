// The calls for C of notices: include/card.h declares them, `firmware_notices_c` exports them. The record of one is written as an event's records
// are; what a record says goes into five lent fields.
#![tactic(auto)]

ghost use Rattle.std.specs.Prelude.{◌≡◌, List, ℕ, length};
ghost use Rattle.meaning.specs.Notice.{notice};
ghost use Rattle.meaning.specs.Calls.{Does};
ghost use Rattle.memory.specs.Memory.{card_of};
ghost use Rattle.notice_reader.specs.Read.{read_of};
ghost use Rattle.refusals.specs.Refusals.{answer_of};
ghost use Rattle.firmware_notices.specs.Fields.{fields_of};

use memory::NUMBER_COUNT;

pub fn card_notice(
    numbers: &mut [u64; NUMBER_COUNT],
    neighbour: u32,
    number: u32,
    octets: &[u8],
    out: &mut [u8],
    answer: &mut u32,
) -> usize
    ensures { (os : List ℕ) → Does (notice (length out.old) (card_of numbers.old os) neighbour number octets.now)
        answer.new result out.old out.new (card_of numbers.new os) }
{
    notice_writer::notice_core(numbers, neighbour, number, octets, out, answer)
}

pub fn card_read_notice(octets: &[u8], fields: &mut [u32; 5]) -> u32
    ensures { (result ≡ answer_of (read_of octets.now)) × (fields.new ≡ fields_of (read_of octets.now) fields.old) }
{
    match notice_reader::read_notice(octets) {
        Ok(notice) => {
            *fields = [
                notice.neighbour,
                notice.id,
                notice.status,
                notice.copied_id,
                notice.copied_type,
            ];
            0
        }
        Err(refusal) => refusal.number(),
    }
}
