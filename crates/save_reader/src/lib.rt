// The way back from a save of either form: the table in its octets, into the card's memory.
#![tactic(auto)]

ghost use Rattle.std.specs.Prelude.{◌≡◌, true, false, List, ℕ, length};
ghost use Rattle.meaning.specs.Octets.{all};
ghost use Rattle.meaning_save.specs.Save.{form_of, once_each, same_name, same_root, holds_right, table_in, last_right, rows_ruled, is_save, restore};
ghost use Rattle.memory.specs.Sizes.{Numbers, Names};
ghost use Rattle.memory.specs.Memory.{card_of};

use meaning::{LABEL_COUNT, SAVE_LIMIT};
use memory::{NUMBER_COUNT, OCTET_COUNT};
use refusals::Refusal;

// Whether the last label given is none only while no label is in use. (The memory has none beyond the block.)
fn is_last_right(numbers: &[u64]) -> bool
    requires { Numbers numbers.now }
    ensures { (os : List ℕ) → result ≡ last_right (card_of numbers.now os) }
{
    memory::turn(numbers) != 0 || memory_free::free_labels(numbers) == LABEL_COUNT
}

// Whether the table in the memory, where names and roots stand once and trees hold their labels for whom they are to, keeps the rules that
// the form asks for, that of the counts aside: what is read keeps it.
fn is_ruled(numbers: &[u64], names: &[u8], second: bool) -> bool
    requires { let c = card_of numbers.now names.now in Numbers numbers.now × Names names.now × (once_each same_name c.trees ≡ true) × (once_each same_root c.routes ≡ true)
        × (all (holds_right c) c.trees ≡ true) }
    ensures { result ≡ rows_ruled (form_of second) (card_of numbers.now names.now) }
{
    save_rules::keeps_rules(numbers, names) && (!second || is_last_right(numbers))
}

// Whether the octets are a save; where they are, its table is in the memory, which held anything.
pub fn is_taken(octets: &[u8], second: bool, numbers: &mut [u64], names: &mut [u8]) -> bool
    requires { Numbers numbers.old × Names names.old }
    ensures { (result ≡ is_save (form_of second) octets.now) × (result ≡ true → card_of numbers.new names.new ≡ table_in (form_of second) octets.now) }
{
    if !save_decoder::decode(octets, second, numbers, names) {
        return false;
    }
    if !is_ruled(numbers, names, second) {
        return false;
    }
    save_written::is_written(octets, second)
}

fn put_over(numbers: &mut [u64], names: &mut [u8], from: &[u64], octets: &[u8])
    requires { (length from.now ≡ length numbers.old) × (length octets.now ≡ length names.old) }
    ensures { (numbers.new ≡ from.now) × (names.new ≡ octets.now) }
{
    octets::copy_numbers(numbers, from);
    octets::copy(names, octets);
}

// Takes back a save, of the new form where `second` says so: 0, with its table in the card's memory, or 19, with the memory as it was. The
// table is read into spare memory first, so that octets that are no save change nothing. What is spare may hold anything before and after;
// the spare part for a save is lent as ever, and left as it is.
pub fn restore(
    numbers: &mut [u64; NUMBER_COUNT],
    names: &mut [u8; OCTET_COUNT],
    second: bool,
    octets: &[u8],
    spare_numbers: &mut [u64; NUMBER_COUNT],
    spare_names: &mut [u8; OCTET_COUNT],
    spare_save: &mut [u8; SAVE_LIMIT],
) -> u32
    ensures { let c = card_of numbers.old names.old in
        (result ≡ (restore (form_of second) octets.now c).answer)
        × (card_of numbers.new names.new ≡ (restore (form_of second) octets.now c).card) }
{
    if !is_taken(octets, second, spare_numbers, spare_names) {
        return Refusal::BadSave.number();
    }
    put_over(numbers, names, spare_numbers, spare_names);
    0
}
