// The exports of `firmware_lookups` to C: include/card.h declares them. Each calls the library's function by its name, and states its clauses again.
#![tactic(auto)]

ghost use Rattle.std.specs.Prelude.{◌≡◌, List, ℕ};
ghost use Rattle.meaning.specs.Card.{free_labels, lookup_label, lookup_name};
ghost use Rattle.memory.specs.Memory.{card_of};
ghost use Rattle.meaning.specs.Calls.{feed_in};

use meaning::NEIGHBOUR_COUNT;
use memory::{NUMBER_COUNT, OCTET_COUNT};

#[unsafe(no_mangle)]
pub extern "C" fn card_lookup_label(
    numbers: &[u64; NUMBER_COUNT],
    label: u32,
    branches: &mut [u64; NEIGHBOUR_COUNT],
) -> bool
    ensures { (os : List ℕ) → feed_in branches.new result ≡ lookup_label label (card_of numbers.now os) }
{
    firmware_lookups::card_lookup_label(numbers, label, branches)
}

#[unsafe(no_mangle)]
pub extern "C" fn card_lookup_name(
    numbers: &[u64; NUMBER_COUNT],
    names: &[u8; OCTET_COUNT],
    element: &[u8],
    branches: &mut [u64; NEIGHBOUR_COUNT],
) -> bool
    ensures { feed_in branches.new result ≡ lookup_name element.now (card_of numbers.now names.now) }
{
    firmware_lookups::card_lookup_name(numbers, names, element, branches)
}

#[unsafe(no_mangle)]
pub extern "C" fn card_free_labels(numbers: &[u64; NUMBER_COUNT]) -> u32
    ensures { (os : List ℕ) → result ≡ free_labels (card_of numbers.now os) }
{
    firmware_lookups::card_free_labels(numbers)
}
