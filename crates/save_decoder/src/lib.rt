// The table in the octets of a save, of either form, into memory that is lent.
#![tactic(auto)]

ghost use Rattle.std.specs.Prelude.{◌≡◌, true, false, ◌≤◌, get_or};
ghost use Rattle.meaning.specs.Octets.{all, four_at};
ghost use Rattle.meaning_save.specs.Save.{Form, form_of, last_place, once_each, same_name, same_root, holds_right, table_in, is_save};
ghost use Rattle.meaning.specs.Card.{route_limit, tree_limit, most_base};
ghost use Rattle.memory.specs.Sizes.{Numbers, Names};
ghost use Rattle.memory.specs.Memory.{card_of};
ghost use Rattle.save_labels.specs.Labels.{OfBlock};
ghost use Rattle.meaning.specs.Wire.{least_label};

use meaning::{LAST_PLACE, LEAST_LABEL, MOST_BASE};
use memory::{LABELS, ROUTES, TREES};

// Whether the head may be that of a save: its base is in range, and its routes, trees and labels are not too many.
fn is_head(octets: &[u8]) -> bool
    ensures { (result ≡ true → (least_label ≤ four_at octets.now 3) × (four_at octets.now 3 ≤ most_base) × (get_or octets.now 11 0 ≤ route_limit) × (get_or octets.now 12 0 ≤ tree_limit))
        × (result ≡ false → (f : Form) → is_save f octets.now ≡ false) }
{
    let base = octets::four_at(octets, 3);
    if base < LEAST_LABEL {
        return false;
    }
    if MOST_BASE < base {
        return false;
    }
    if ROUTES < octets::at(octets, 11) {
        return false;
    }
    if LABELS < octets::two_at(octets, 13) {
        return false;
    }
    octets::at(octets, 12) <= TREES
}

// Whether the last label given, which the head of the new form says, is none or one of the block.
fn is_last(octets: &[u8], second: bool) -> bool
    ensures { (result ≡ true → second ≡ true → OfBlock (four_at octets.now 3) (four_at octets.now last_place))
        × (result ≡ false → is_save (form_of second) octets.now ≡ false) }
{
    if !second {
        return true;
    }
    let base = octets::four_at(octets, 3);
    let last = octets::four_at(octets, LAST_PLACE);
    if last == 0 {
        return true;
    }
    base <= last && last < base + LABELS
}

// The table in the octets, into memory that held anything. False where the octets can be no save: then a name or a root stands twice, a tree
// holds no label for whom it is to, or the head says what it cannot.
pub fn decode(octets: &[u8], second: bool, numbers: &mut [u64], names: &mut [u8]) -> bool
    requires { Numbers numbers.old × Names names.old }
    ensures { (result ≡ true → (let t = table_in (form_of second) octets.now in
        (card_of numbers.new names.new ≡ t) × (once_each same_name t.trees ≡ true) × (once_each same_root t.routes ≡ true) × (all (holds_right t) t.trees ≡ true)))
        × (result ≡ false → is_save (form_of second) octets.now ≡ false) }
{
    if !is_head(octets) {
        return false;
    }
    if !is_last(octets, second) {
        return false;
    }
    let at = save_rows::read_rows(octets, second, numbers, names);
    if !save_tags::names_once(numbers, names) {
        return false;
    }
    if !save_rules_rows::roots_once(numbers, names) {
        return false;
    }
    save_labels::read_labels(octets, at, second, numbers, names)
}
