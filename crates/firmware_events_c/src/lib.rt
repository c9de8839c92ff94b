// The exports of `firmware_events` to C: include/card.h declares them. Each calls the library's function by its name, and states its clauses again.
#![tactic(auto)]

ghost use Rattle.std.specs.Prelude.{◌≡◌, List, ℕ, length};
ghost use Rattle.meaning.specs.Events.{start, event, receive, join, leave, route, lost};
ghost use Rattle.meaning.specs.Calls.{Does};
ghost use Rattle.memory.specs.Memory.{card_of};

use memory::{NUMBER_COUNT, OCTET_COUNT};

#[unsafe(no_mangle)]
pub extern "C" fn card_start(numbers: &mut [u64; NUMBER_COUNT], base: u32) -> u32
    ensures { (result ≡ (start base).answer) × ((os : List ℕ) → card_of numbers.new os ≡ (start base).card) }
{
    firmware_events::card_start(numbers, base)
}

#[unsafe(no_mangle)]
pub extern "C" fn card_receive(
    numbers: &mut [u64; NUMBER_COUNT],
    names: &mut [u8; OCTET_COUNT],
    neighbour: u32,
    message: &[u8],
    out: &mut [u8],
    answer: &mut u32,
) -> usize
    ensures { Does (event (length out.old) (card_of numbers.old names.old) (receive neighbour message.now))
        answer.new result out.old out.new (card_of numbers.new names.new) }
{
    firmware_events::card_receive(numbers, names, neighbour, message, out, answer)
}

#[unsafe(no_mangle)]
pub extern "C" fn card_join(
    numbers: &mut [u64; NUMBER_COUNT],
    names: &mut [u8; OCTET_COUNT],
    element: &[u8],
    out: &mut [u8],
    answer: &mut u32,
) -> usize
    ensures { Does (event (length out.old) (card_of numbers.old names.old) (join element.now))
        answer.new result out.old out.new (card_of numbers.new names.new) }
{
    firmware_events::card_join(numbers, names, element, out, answer)
}

#[unsafe(no_mangle)]
pub extern "C" fn card_leave(
    numbers: &mut [u64; NUMBER_COUNT],
    names: &mut [u8; OCTET_COUNT],
    element: &[u8],
    out: &mut [u8],
    answer: &mut u32,
) -> usize
    ensures { Does (event (length out.old) (card_of numbers.old names.old) (leave element.now))
        answer.new result out.old out.new (card_of numbers.new names.new) }
{
    firmware_events::card_leave(numbers, names, element, out, answer)
}

#[unsafe(no_mangle)]
pub extern "C" fn card_route(
    numbers: &mut [u64; NUMBER_COUNT],
    names: &mut [u8; OCTET_COUNT],
    root: &[u8],
    via: u32,
    out: &mut [u8],
    answer: &mut u32,
) -> usize
    ensures { Does (event (length out.old) (card_of numbers.old names.old) (route root.now via))
        answer.new result out.old out.new (card_of numbers.new names.new) }
{
    firmware_events::card_route(numbers, names, root, via, out, answer)
}

#[unsafe(no_mangle)]
pub extern "C" fn card_lost(
    numbers: &mut [u64; NUMBER_COUNT],
    names: &mut [u8; OCTET_COUNT],
    neighbour: u32,
    out: &mut [u8],
    answer: &mut u32,
) -> usize
    ensures { Does (event (length out.old) (card_of numbers.old names.old) (lost neighbour))
        answer.new result out.old out.new (card_of numbers.new names.new) }
{
    firmware_events::card_lost(numbers, names, neighbour, out, answer)
}
