// The calls for C of events and the start: include/card.h declares them, `firmware_events_c` exports them. Each is the call by that name of
// `card`, with its contract.
// An array that is lent passes as one pointer, a slice as a pointer and a length, so nothing of the card is copied. The number handed
// back says how many octets of the output were written.
// Kept: a number handed back beside a lent answer, in place of a Result, is the C interface.
#![tactic(auto)]

ghost use Rattle.std.specs.Prelude.{◌≡◌, List, ℕ, length};
ghost use Rattle.meaning.specs.Events.{start, event, receive, join, leave, route, lost};
ghost use Rattle.meaning.specs.Calls.{Does};
ghost use Rattle.memory.specs.Memory.{card_of};

use memory::{NUMBER_COUNT, OCTET_COUNT};

pub fn card_start(numbers: &mut [u64; NUMBER_COUNT], base: u32) -> u32
    ensures { (result ≡ (start base).answer) × ((os : List ℕ) → card_of numbers.new os ≡ (start base).card) }
{
    card::start(numbers, base)
}

pub fn card_receive(
    numbers: &mut [u64; NUMBER_COUNT],
    names: &mut [u8; OCTET_COUNT],
    neighbour: u32,
    message: &[u8],
    out: &mut [u8],
    answer: &mut u32,
) -> usize
    ensures { Does (event (length out.old) (card_of numbers.old names.old) (receive neighbour message.now))
        answer.new result out.old out.new (card_of numbers.new names.new) }
{
    card::receive_core(numbers, names, neighbour, message, out, answer)
}

pub fn card_join(
    numbers: &mut [u64; NUMBER_COUNT],
    names: &mut [u8; OCTET_COUNT],
    element: &[u8],
    out: &mut [u8],
    answer: &mut u32,
) -> usize
    ensures { Does (event (length out.old) (card_of numbers.old names.old) (join element.now))
        answer.new result out.old out.new (card_of numbers.new names.new) }
{
    card::join_core(numbers, names, element, out, answer)
}

pub fn card_leave(
    numbers: &mut [u64; NUMBER_COUNT],
    names: &mut [u8; OCTET_COUNT],
    element: &[u8],
    out: &mut [u8],
    answer: &mut u32,
) -> usize
    ensures { Does (event (length out.old) (card_of numbers.old names.old) (leave element.now))
        answer.new result out.old out.new (card_of numbers.new names.new) }
{
    card::leave_core(numbers, names, element, out, answer)
}

pub fn card_route(
    numbers: &mut [u64; NUMBER_COUNT],
    names: &mut [u8; OCTET_COUNT],
    root: &[u8],
    via: u32,
    out: &mut [u8],
    answer: &mut u32,
) -> usize
    ensures { Does (event (length out.old) (card_of numbers.old names.old) (route root.now via))
        answer.new result out.old out.new (card_of numbers.new names.new) }
{
    card::route_core(numbers, names, root, via, out, answer)
}

pub fn card_lost(
    numbers: &mut [u64; NUMBER_COUNT],
    names: &mut [u8; OCTET_COUNT],
    neighbour: u32,
    out: &mut [u8],
    answer: &mut u32,
) -> usize
    ensures { Does (event (length out.old) (card_of numbers.old names.old) (lost neighbour))
        answer.new result out.old out.new (card_of numbers.new names.new) }
{
    card::lost_core(numbers, names, neighbour, out, answer)
}
