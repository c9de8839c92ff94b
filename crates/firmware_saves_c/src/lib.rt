// The exports of `firmware_saves` to C: include/card.h declares them. Each calls the library's function by its name, and states its clauses again.
#![tactic(auto)]

ghost use Rattle.std.specs.Prelude.{◌≡◌, length};
ghost use Rattle.meaning_save.specs.Save.{old, new, save, restore, newer, older};
ghost use Rattle.meaning.specs.Calls.{Does};
ghost use Rattle.memory.specs.Memory.{card_of};
ghost use Rattle.save_mover.specs.Moves.{Moves};

use meaning::SAVE_LIMIT;
use memory::{NUMBER_COUNT, OCTET_COUNT};

#[unsafe(no_mangle)]
pub extern "C" fn card_save(
    numbers: &[u64; NUMBER_COUNT],
    names: &[u8; OCTET_COUNT],
    out: &mut [u8],
    answer: &mut u32,
) -> usize
    ensures { let c = card_of numbers.now names.now in
        Does (save old (length out.old) c) answer.new result out.old out.new c }
{
    firmware_saves::card_save(numbers, names, out, answer)
}

#[unsafe(no_mangle)]
pub extern "C" fn card_save2(
    numbers: &[u64; NUMBER_COUNT],
    names: &[u8; OCTET_COUNT],
    out: &mut [u8],
    answer: &mut u32,
) -> usize
    ensures { let c = card_of numbers.now names.now in
        Does (save new (length out.old) c) answer.new result out.old out.new c }
{
    firmware_saves::card_save2(numbers, names, out, answer)
}

#[unsafe(no_mangle)]
pub extern "C" fn card_restore(
    numbers: &mut [u64; NUMBER_COUNT],
    names: &mut [u8; OCTET_COUNT],
    octets: &[u8],
    spare_numbers: &mut [u64; NUMBER_COUNT],
    spare_names: &mut [u8; OCTET_COUNT],
    spare_save: &mut [u8; SAVE_LIMIT],
) -> u32
    ensures { let c = card_of numbers.old names.old in
        (result ≡ (restore old octets.now c).answer)
        × (card_of numbers.new names.new ≡ (restore old octets.now c).card) }
{
    firmware_saves::card_restore(
        numbers,
        names,
        octets,
        spare_numbers,
        spare_names,
        spare_save,
    )
}

#[unsafe(no_mangle)]
pub extern "C" fn card_restore2(
    numbers: &mut [u64; NUMBER_COUNT],
    names: &mut [u8; OCTET_COUNT],
    octets: &[u8],
    spare_numbers: &mut [u64; NUMBER_COUNT],
    spare_names: &mut [u8; OCTET_COUNT],
    spare_save: &mut [u8; SAVE_LIMIT],
) -> u32
    ensures { let c = card_of numbers.old names.old in
        (result ≡ (restore new octets.now c).answer)
        × (card_of numbers.new names.new ≡ (restore new octets.now c).card) }
{
    firmware_saves::card_restore2(
        numbers,
        names,
        octets,
        spare_numbers,
        spare_names,
        spare_save,
    )
}

#[unsafe(no_mangle)]
pub extern "C" fn card_newer(
    octets: &[u8],
    spare_numbers: &mut [u64; NUMBER_COUNT],
    spare_names: &mut [u8; OCTET_COUNT],
    spare_save: &mut [u8; SAVE_LIMIT],
    out: &mut [u8],
    answer: &mut u32,
) -> usize
    ensures { Moves (newer (length out.old) octets.now) answer.new result out.old out.new }
{
    firmware_saves::card_newer(octets, spare_numbers, spare_names, spare_save, out, answer)
}

#[unsafe(no_mangle)]
pub extern "C" fn card_older(
    octets: &[u8],
    spare_numbers: &mut [u64; NUMBER_COUNT],
    spare_names: &mut [u8; OCTET_COUNT],
    spare_save: &mut [u8; SAVE_LIMIT],
    out: &mut [u8],
    answer: &mut u32,
) -> usize
    ensures { Moves (older (length out.old) octets.now) answer.new result out.old out.new }
{
    firmware_saves::card_older(octets, spare_numbers, spare_names, spare_save, out, answer)
}
