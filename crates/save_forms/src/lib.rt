// The numbers in which the two forms of a save differ: the kinds of three records, and the size of the head. Throughout, `second` says that
// the form is the new one.
// Kept: a flag and no enum, since the calls for C pass it and the definitions speak of it (form_of).
#![tactic(auto)]

ghost use Rattle.std.specs.Prelude.{◌≡◌, ◌≤◌};
ghost use Rattle.meaning_save.specs.Save.{form_of, head_kind, tree_kind, use_kind, head_size, last_place};

use meaning::{LAST_END, LAST_PLACE};

pub fn head_kind(second: bool) -> u8
    ensures { result ≡ head_kind (form_of second) }
{
    if second { 5 } else { 1 }
}

pub fn tree_kind(second: bool) -> u8
    ensures { result ≡ tree_kind (form_of second) }
{
    if second { 6 } else { 3 }
}

pub fn use_kind(second: bool) -> u8
    ensures { result ≡ use_kind (form_of second) }
{
    if second { 7 } else { 4 }
}

pub fn head_size(second: bool) -> usize
    ensures { (result ≡ head_size (form_of second)) × (last_place ≤ result) × (result ≤ 19) }
{
    if second { LAST_END } else { LAST_PLACE }
}
