// The calls for C of saves: include/card.h declares them, `firmware_saves_c` exports them. The table as octets in either form, and the way back,
// which is lent spare memory of any content; the second call of each is for the new form. And a save from one form to the other, with no card.
// Kept: a number handed back beside a lent answer, and a call for each form, in place of a Result and an enum, are the C interface.
#![tactic(auto)]

ghost use Rattle.std.specs.Prelude.{◌≡◌, length};
ghost use Rattle.meaning_save.specs.Save.{old, new, save, restore, newer, older};
ghost use Rattle.meaning.specs.Calls.{Does};
ghost use Rattle.memory.specs.Memory.{card_of};
ghost use Rattle.save_mover.specs.Moves.{Moves};

use meaning::SAVE_LIMIT;
use memory::{NUMBER_COUNT, OCTET_COUNT};

pub fn card_save(
    numbers: &[u64; NUMBER_COUNT],
    names: &[u8; OCTET_COUNT],
    out: &mut [u8],
    answer: &mut u32,
) -> usize
    ensures { let c = card_of numbers.now names.now in
        Does (save old (length out.old) c) answer.new result out.old out.new c }
{
    save_writer::save_core(numbers, names, false, out, answer)
}

pub fn card_save2(
    numbers: &[u64; NUMBER_COUNT],
    names: &[u8; OCTET_COUNT],
    out: &mut [u8],
    answer: &mut u32,
) -> usize
    ensures { let c = card_of numbers.now names.now in
        Does (save new (length out.old) c) answer.new result out.old out.new c }
{
    save_writer::save_core(numbers, names, true, out, answer)
}

pub fn card_restore(
    numbers: &mut [u64; NUMBER_COUNT],
    names: &mut [u8; OCTET_COUNT],
    octets: &[u8],
    spare_numbers: &mut [u64; NUMBER_COUNT],
    spare_names: &mut [u8; OCTET_COUNT],
    spare_save: &mut [u8; SAVE_LIMIT],
) -> u32
    ensures { let c = card_of numbers.old names.old in
        (result ≡ (restore old octets.now c).answer)
        × (card_of numbers.new names.new ≡ (restore old octets.now c).card) }
{
    save_reader::restore(
        numbers,
        names,
        false,
        octets,
        spare_numbers,
        spare_names,
        spare_save,
    )
}

pub fn card_restore2(
    numbers: &mut [u64; NUMBER_COUNT],
    names: &mut [u8; OCTET_COUNT],
    octets: &[u8],
    spare_numbers: &mut [u64; NUMBER_COUNT],
    spare_names: &mut [u8; OCTET_COUNT],
    spare_save: &mut [u8; SAVE_LIMIT],
) -> u32
    ensures { let c = card_of numbers.old names.old in
        (result ≡ (restore new octets.now c).answer)
        × (card_of numbers.new names.new ≡ (restore new octets.now c).card) }
{
    save_reader::restore(
        numbers,
        names,
        true,
        octets,
        spare_numbers,
        spare_names,
        spare_save,
    )
}

pub fn card_newer(
    octets: &[u8],
    spare_numbers: &mut [u64; NUMBER_COUNT],
    spare_names: &mut [u8; OCTET_COUNT],
    spare_save: &mut [u8; SAVE_LIMIT],
    out: &mut [u8],
    answer: &mut u32,
) -> usize
    ensures { Moves (newer (length out.old) octets.now) answer.new result out.old out.new }
{
    save_mover::move_core(
        octets,
        false,
        spare_numbers,
        spare_names,
        spare_save,
        out,
        answer,
    )
}

pub fn card_older(
    octets: &[u8],
    spare_numbers: &mut [u64; NUMBER_COUNT],
    spare_names: &mut [u8; OCTET_COUNT],
    spare_save: &mut [u8; SAVE_LIMIT],
    out: &mut [u8],
    answer: &mut u32,
) -> usize
    ensures { Moves (older (length out.old) octets.now) answer.new result out.old out.new }
{
    save_mover::move_core(
        octets,
        true,
        spare_numbers,
        spare_names,
        spare_save,
        out,
        answer,
    )
}
