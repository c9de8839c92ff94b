// A save is moved to the other form: octets to octets, with no card. Its table is read into spare memory, which holds anything before and
// after, and saved from there in the other form.
// The mover has a core, which says what becomes of the whole output, and for each direction a call that hands back the part that holds the save.
#![tactic(auto)]

ghost use Rattle.std.specs.Prelude.{◌≡◌, not, length};
ghost use Rattle.meaning_save.specs.Save.{form_of, move, newer, older};
ghost use Rattle.save_mover.specs.Moves.{Moves, Gives};
ghost use Rattle.refusals.specs.Refusals.{answer_of, count_of};

use meaning::SAVE_LIMIT;
use memory::{NUMBER_COUNT, OCTET_COUNT};
use refusals::Refusal;

// From the form that `second` says to the other one, at the front of the output; how many octets it has. Where it is refused the output stays.
fn moved(
    octets: &[u8],
    second: bool,
    spare_numbers: &mut [u64; NUMBER_COUNT],
    spare_names: &mut [u8; OCTET_COUNT],
    out: &mut [u8],
) -> Result<usize, Refusal>
    ensures { Moves (move (form_of second) (form_of (not second)) (length out.old) octets.now) (answer_of result) (count_of result) out.old out.new }
{
    if !save_reader::is_taken(octets, second, spare_numbers, spare_names) {
        return Err(Refusal::BadSave);
    }
    save_writer::save_into(spare_numbers, spare_names, !second, out)
}

pub fn move_core(
    octets: &[u8],
    second: bool,
    spare_numbers: &mut [u64; NUMBER_COUNT],
    spare_names: &mut [u8; OCTET_COUNT],
    spare_save: &mut [u8; SAVE_LIMIT],
    out: &mut [u8],
    answer: &mut u32,
) -> usize
    ensures { Moves (move (form_of second) (form_of (not second)) (length out.old) octets.now) answer.new result out.old out.new }
{
    refusals::tell(
        moved(octets, second, spare_numbers, spare_names, out),
        answer,
    )
}

// A save of the old form becomes one of the new form.
pub fn newer<'a>(
    octets: &[u8],
    spare_numbers: &mut [u64; NUMBER_COUNT],
    spare_names: &mut [u8; OCTET_COUNT],
    spare_save: &mut [u8; SAVE_LIMIT],
    out: &'a mut [u8],
    answer: &mut u32,
) -> &'a mut [u8]
    ensures { Gives (newer (length out.old) octets.now) answer.new result.now × (result.ref_ptr ≡ out.entry.ref_ptr) }
{
    let n = move_core(
        octets,
        false,
        spare_numbers,
        spare_names,
        spare_save,
        &mut *out,
        answer,
    );
    &mut out[..n]
}

// The way back.
pub fn older<'a>(
    octets: &[u8],
    spare_numbers: &mut [u64; NUMBER_COUNT],
    spare_names: &mut [u8; OCTET_COUNT],
    spare_save: &mut [u8; SAVE_LIMIT],
    out: &'a mut [u8],
    answer: &mut u32,
) -> &'a mut [u8]
    ensures { Gives (older (length out.old) octets.now) answer.new result.now × (result.ref_ptr ≡ out.entry.ref_ptr) }
{
    let n = move_core(
        octets,
        true,
        spare_numbers,
        spare_names,
        spare_save,
        &mut *out,
        answer,
    );
    &mut out[..n]
}
