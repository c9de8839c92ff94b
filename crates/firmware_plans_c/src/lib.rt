// The exports of `firmware_plans` to C: include/card.h declares them. Each calls the library's function by its name, and states its clauses again.
#![tactic(auto)]

ghost use Rattle.std.specs.Prelude.{◌≡◌};
ghost use Rattle.meaning.specs.Calls.{over};
ghost use Rattle.memory.specs.Memory.{card_of};
ghost use Rattle.meaning_plan.specs.PlanOctets.{checked_octets, planned_octets};
ghost use Rattle.plan_check.specs.Verdict.{verdict_of};
ghost use Rattle.plan_make.specs.Plan.{plan_of, list_made, entries_of};
ghost use Rattle.firmware_plans.specs.Answers.{is_accepted, check_answer, is_listed, plan_answer};

use meaning_plan::LIST_LIMIT;
use memory::{NUMBER_COUNT, OCTET_COUNT};

#[unsafe(no_mangle)]
pub extern "C" fn card_check_list(
    numbers: &[u64; NUMBER_COUNT],
    names: &[u8; OCTET_COUNT],
    neighbour: u32,
    sets: &[u8],
    list: &[u8],
    answer: &mut u32,
) -> bool
    ensures { let v = verdict_of (checked_octets (card_of numbers.now names.now) neighbour sets.now list.now) in
        (result ≡ is_accepted v) × (answer.new ≡ check_answer v) }
{
    firmware_plans::card_check_list(numbers, names, neighbour, sets, list, answer)
}

#[unsafe(no_mangle)]
pub extern "C" fn card_plan(
    numbers: &[u64; NUMBER_COUNT],
    names: &[u8; OCTET_COUNT],
    neighbour: u32,
    sets: &[u8],
    list: &mut [u8; LIST_LIMIT],
    entries: &mut usize,
    answer: &mut u32,
) -> bool
    ensures { let p = planned_octets (card_of numbers.now names.now) neighbour sets.now in
        (result ≡ is_listed (plan_of p)) × (list.new ≡ over (list_made p) list.old) × (entries.new ≡ entries_of (plan_of p)) × (answer.new ≡ plan_answer (plan_of p)) }
{
    firmware_plans::card_plan(numbers, names, neighbour, sets, list, entries, answer)
}
