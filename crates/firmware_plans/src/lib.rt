// The calls for C of plans: include/card.h declares them, `firmware_plans_c` exports them. Whether a list is accepted or found is handed back; the
// number of a refusal, and how many entries there are, go to lent places. Both only read the card.
// Kept: a truth handed back beside lent numbers, in place of a Result, is the C interface.
#![tactic(auto)]

ghost use Rattle.std.specs.Prelude.{◌≡◌};
ghost use Rattle.meaning.specs.Calls.{over};
ghost use Rattle.memory.specs.Memory.{card_of};
ghost use Rattle.meaning_plan.specs.PlanOctets.{checked_octets, planned_octets};
ghost use Rattle.plan_check.specs.Verdict.{verdict_of};
ghost use Rattle.plan_make.specs.Plan.{plan_of, list_made, entries_of};
ghost use Rattle.firmware_plans.specs.Answers.{is_accepted, check_answer, is_listed, plan_answer};

use meaning_plan::LIST_LIMIT;
use memory::{NUMBER_COUNT, OCTET_COUNT};

pub fn card_check_list(
    numbers: &[u64; NUMBER_COUNT],
    names: &[u8; OCTET_COUNT],
    neighbour: u32,
    sets: &[u8],
    list: &[u8],
    answer: &mut u32,
) -> bool
    ensures { let v = verdict_of (checked_octets (card_of numbers.now names.now) neighbour sets.now list.now) in
        (result ≡ is_accepted v) × (answer.new ≡ check_answer v) }
{
    *answer = 0;
    match plan_check::check_list(numbers, names, neighbour, sets, list) {
        Ok(is_accepted) => is_accepted,
        Err(refusal) => {
            *answer = refusal.number();
            false
        }
    }
}

pub fn card_plan(
    numbers: &[u64; NUMBER_COUNT],
    names: &[u8; OCTET_COUNT],
    neighbour: u32,
    sets: &[u8],
    list: &mut [u8; LIST_LIMIT],
    entries: &mut usize,
    answer: &mut u32,
) -> bool
    ensures { let p = planned_octets (card_of numbers.now names.now) neighbour sets.now in
        (result ≡ is_listed (plan_of p)) × (list.new ≡ over (list_made p) list.old) × (entries.new ≡ entries_of (plan_of p)) × (answer.new ≡ plan_answer (plan_of p)) }
{
    *entries = 0;
    *answer = 0;
    match plan_make::plan(numbers, names, neighbour, sets, list) {
        Ok(Some(count)) => {
            *entries = count;
            true
        }
        Ok(None) => false,
        Err(refusal) => {
            *answer = refusal.number();
            false
        }
    }
}
