// The label part: start and events; `card_lookups` has the lookups. The card lies in two arrays that the caller lends; any content of them denotes a card.
// Each event is tried, and answered with a count or a refusal; its core tells the number, and says what becomes of the whole output; its call hands back the part that holds the records.
#![tactic(auto)]

ghost use Rattle.std.specs.Prelude.{◌≡◌, List, ℕ, length};
ghost use Rattle.meaning.specs.Events.{start, event, receive, join, leave, route, lost, not_root};
ghost use Rattle.meaning.specs.Calls.{Does, Hands};
ghost use Rattle.refusals.specs.Refusals.{answer_of, count_of};
ghost use Rattle.memory.specs.Memory.{card_of};

use meaning::{LEAST_LABEL, MOST_BASE};
use memory::NO_ROUTE;
use refusals::Refusal;
// The lengths of the card's two arrays, and in specs/Table the card that they denote, are handed on: whoever is above needs no more of the memory.
pub use memory::{NUMBER_COUNT, OCTET_COUNT};

// ---- start

// A fresh card, whatever the memory held: 0, or 17 and a fresh card of base 16.
pub fn start(numbers: &mut [u64; NUMBER_COUNT], base: u32) -> u32
    ensures { (result ≡ (start base).answer) × ((os : List ℕ) → card_of numbers.new os ≡ (start base).card) }
{
    let first = base as u64;
    if first < LEAST_LABEL || MOST_BASE < first {
        memory_rows::start_fresh(numbers, LEAST_LABEL);
        Refusal::BadBase.number()
    } else {
        memory_rows::start_fresh(numbers, first);
        0
    }
}

// ---- a message from a neighbour

fn try_receive(
    numbers: &mut [u64; NUMBER_COUNT],
    names: &mut [u8; OCTET_COUNT],
    neighbour: u32,
    message: &[u8],
    out: &mut [u8],
) -> Result<usize, Refusal>
    ensures { Does (event (length out.old) (card_of numbers.old names.old) (receive neighbour message.now))
        (answer_of result) (count_of result) out.old out.new (card_of numbers.new names.new) }
{
    if 15 < neighbour {
        Err(Refusal::NoSuchNeighbour)
    } else {
        card_messages::on_read(numbers, names, neighbour as usize, message, out)
    }
}

pub fn receive_core(
    numbers: &mut [u64; NUMBER_COUNT],
    names: &mut [u8; OCTET_COUNT],
    neighbour: u32,
    message: &[u8],
    out: &mut [u8],
    answer: &mut u32,
) -> usize
    ensures { Does (event (length out.old) (card_of numbers.old names.old) (receive neighbour message.now))
        answer.new result out.old out.new (card_of numbers.new names.new) }
{
    refusals::tell(try_receive(numbers, names, neighbour, message, out), answer)
}

pub fn receive<'a>(
    numbers: &mut [u64; NUMBER_COUNT],
    names: &mut [u8; OCTET_COUNT],
    neighbour: u32,
    message: &[u8],
    out: &'a mut [u8],
    answer: &mut u32,
) -> &'a mut [u8]
    ensures { Hands (event (length out.old) (card_of numbers.old names.old) (receive neighbour message.now))
        answer.new result.now (card_of numbers.new names.new) × (result.ref_ptr ≡ out.entry.ref_ptr) }
{
    let n = receive_core(numbers, names, neighbour, message, &mut *out, answer);
    &mut out[..n]
}

// ---- local leaf orders, on the octets of one element

fn try_join(
    numbers: &mut [u64; NUMBER_COUNT],
    names: &mut [u8; OCTET_COUNT],
    element: &[u8],
    out: &mut [u8],
) -> Result<usize, Refusal>
    ensures { Does (event (length out.old) (card_of numbers.old names.old) (join element.now))
        (answer_of result) (count_of result) out.old out.new (card_of numbers.new names.new) }
{
    wire_name::check_element(element)?;
    event_join::join(numbers, names, element, out)
}

pub fn join_core(
    numbers: &mut [u64; NUMBER_COUNT],
    names: &mut [u8; OCTET_COUNT],
    element: &[u8],
    out: &mut [u8],
    answer: &mut u32,
) -> usize
    ensures { Does (event (length out.old) (card_of numbers.old names.old) (join element.now))
        answer.new result out.old out.new (card_of numbers.new names.new) }
{
    refusals::tell(try_join(numbers, names, element, out), answer)
}

pub fn join<'a>(
    numbers: &mut [u64; NUMBER_COUNT],
    names: &mut [u8; OCTET_COUNT],
    element: &[u8],
    out: &'a mut [u8],
    answer: &mut u32,
) -> &'a mut [u8]
    ensures { Hands (event (length out.old) (card_of numbers.old names.old) (join element.now))
        answer.new result.now (card_of numbers.new names.new) × (result.ref_ptr ≡ out.entry.ref_ptr) }
{
    let n = join_core(numbers, names, element, &mut *out, answer);
    &mut out[..n]
}

fn try_leave(
    numbers: &mut [u64; NUMBER_COUNT],
    names: &mut [u8; OCTET_COUNT],
    element: &[u8],
    out: &mut [u8],
) -> Result<usize, Refusal>
    ensures { Does (event (length out.old) (card_of numbers.old names.old) (leave element.now))
        (answer_of result) (count_of result) out.old out.new (card_of numbers.new names.new) }
{
    wire_name::check_element(element)?;
    event_leave::leave(numbers, names, element, out)
}

pub fn leave_core(
    numbers: &mut [u64; NUMBER_COUNT],
    names: &mut [u8; OCTET_COUNT],
    element: &[u8],
    out: &mut [u8],
    answer: &mut u32,
) -> usize
    ensures { Does (event (length out.old) (card_of numbers.old names.old) (leave element.now))
        answer.new result out.old out.new (card_of numbers.new names.new) }
{
    refusals::tell(try_leave(numbers, names, element, out), answer)
}

pub fn leave<'a>(
    numbers: &mut [u64; NUMBER_COUNT],
    names: &mut [u8; OCTET_COUNT],
    element: &[u8],
    out: &'a mut [u8],
    answer: &mut u32,
) -> &'a mut [u8]
    ensures { Hands (event (length out.old) (card_of numbers.old names.old) (leave element.now))
        answer.new result.now (card_of numbers.new names.new) × (result.ref_ptr ≡ out.entry.ref_ptr) }
{
    let n = leave_core(numbers, names, element, &mut *out, answer);
    &mut out[..n]
}

// ---- the route order

fn not_root(root: &[u8]) -> bool
    ensures { result ≡ not_root root.now }
{
    let n = root.len();
    n != 4 && n != 16
}

fn try_route(
    numbers: &mut [u64; NUMBER_COUNT],
    names: &mut [u8; OCTET_COUNT],
    root: &[u8],
    via: u32,
    out: &mut [u8],
) -> Result<usize, Refusal>
    ensures { Does (event (length out.old) (card_of numbers.old names.old) (route root.now via))
        (answer_of result) (count_of result) out.old out.new (card_of numbers.new names.new) }
{
    let to = via as u64;
    if NO_ROUTE < to {
        Err(Refusal::NoSuchNeighbour)
    } else if not_root(root) {
        Err(Refusal::BadElement)
    } else {
        event_route::change_route(numbers, names, root, to, out)
    }
}

pub fn route_core(
    numbers: &mut [u64; NUMBER_COUNT],
    names: &mut [u8; OCTET_COUNT],
    root: &[u8],
    via: u32,
    out: &mut [u8],
    answer: &mut u32,
) -> usize
    ensures { Does (event (length out.old) (card_of numbers.old names.old) (route root.now via))
        answer.new result out.old out.new (card_of numbers.new names.new) }
{
    refusals::tell(try_route(numbers, names, root, via, out), answer)
}

pub fn route<'a>(
    numbers: &mut [u64; NUMBER_COUNT],
    names: &mut [u8; OCTET_COUNT],
    root: &[u8],
    via: u32,
    out: &'a mut [u8],
    answer: &mut u32,
) -> &'a mut [u8]
    ensures { Hands (event (length out.old) (card_of numbers.old names.old) (route root.now via))
        answer.new result.now (card_of numbers.new names.new) × (result.ref_ptr ≡ out.entry.ref_ptr) }
{
    let n = route_core(numbers, names, root, via, &mut *out, answer);
    &mut out[..n]
}

// ---- a neighbour's session is lost

fn try_lose(
    numbers: &mut [u64; NUMBER_COUNT],
    names: &mut [u8; OCTET_COUNT],
    gone: u32,
    out: &mut [u8],
) -> Result<usize, Refusal>
    ensures { Does (event (length out.old) (card_of numbers.old names.old) (lost gone))
        (answer_of result) (count_of result) out.old out.new (card_of numbers.new names.new) }
{
    if 15 < gone {
        Err(Refusal::NoSuchNeighbour)
    } else {
        event_lost::lose(numbers, names, gone as usize, out)
    }
}

pub fn lost_core(
    numbers: &mut [u64; NUMBER_COUNT],
    names: &mut [u8; OCTET_COUNT],
    gone: u32,
    out: &mut [u8],
    answer: &mut u32,
) -> usize
    ensures { Does (event (length out.old) (card_of numbers.old names.old) (lost gone))
        answer.new result out.old out.new (card_of numbers.new names.new) }
{
    refusals::tell(try_lose(numbers, names, gone, out), answer)
}

pub fn lost<'a>(
    numbers: &mut [u64; NUMBER_COUNT],
    names: &mut [u8; OCTET_COUNT],
    gone: u32,
    out: &'a mut [u8],
    answer: &mut u32,
) -> &'a mut [u8]
    ensures { Hands (event (length out.old) (card_of numbers.old names.old) (lost gone))
        answer.new result.now (card_of numbers.new names.new) × (result.ref_ptr ≡ out.entry.ref_ptr) }
{
    let n = lost_core(numbers, names, gone, &mut *out, answer);
    &mut out[..n]
}
