// The calls for C of lookups: include/card.h declares them, `firmware_lookups_c` exports them. The branches go into a lent array, and the leaf
// mark is handed back.
#![tactic(auto)]

ghost use Rattle.std.specs.Prelude.{◌≡◌, List, ℕ};
ghost use Rattle.meaning.specs.Card.{free_labels, lookup_label, lookup_name};
ghost use Rattle.memory.specs.Memory.{card_of};
ghost use Rattle.meaning.specs.Calls.{feed_in};

use meaning::NEIGHBOUR_COUNT;
use memory::{NUMBER_COUNT, OCTET_COUNT};

pub fn card_lookup_label(
    numbers: &[u64; NUMBER_COUNT],
    label: u32,
    branches: &mut [u64; NEIGHBOUR_COUNT],
) -> bool
    ensures { (os : List ℕ) → feed_in branches.new result ≡ lookup_label label (card_of numbers.now os) }
{
    card_lookups::lookup_label_core(numbers, label, branches)
}

pub fn card_lookup_name(
    numbers: &[u64; NUMBER_COUNT],
    names: &[u8; OCTET_COUNT],
    element: &[u8],
    branches: &mut [u64; NEIGHBOUR_COUNT],
) -> bool
    ensures { feed_in branches.new result ≡ lookup_name element.now (card_of numbers.now names.now) }
{
    card_lookups::lookup_name_core(numbers, names, element, branches)
}

pub fn card_free_labels(numbers: &[u64; NUMBER_COUNT]) -> u32
    ensures { (os : List ℕ) → result ≡ free_labels (card_of numbers.now os) }
{
    card_lookups::free_labels(numbers)
}
