// Whether every name of the card's table is short enough for a form of save: what 19 asks of a table that is to be saved.
#![tactic(auto)]

ghost use Rattle.std.specs.Prelude.{◌≡◌, ◌<◌};
ghost use Rattle.meaning.specs.Octets.{all};
ghost use Rattle.meaning.specs.Card.{tree_at, label_count};
ghost use Rattle.meaning_save.specs.Save.{form_of, is_short_tree, is_short_use, fits_save};
ghost use Rattle.memory.specs.Sizes.{Numbers, Names};
ghost use Rattle.memory.specs.Memory.{card_of, label_in, StandsAt};

use meaning::LABEL_COUNT;

fn is_short_tree(numbers: &[u64], names: &[u8], second: bool, i: usize) -> bool
    requires { Numbers numbers.now × Names names.now × StandsAt numbers.now i }
    ensures { result ≡ is_short_tree (form_of second) (tree_at i (card_of numbers.now names.now)) }
{
    save_texts::is_short(memory_trees::tree_name(names, i), second)
}

fn trees_short(numbers: &[u64], names: &[u8], second: bool) -> bool
    requires { Numbers numbers.now × Names names.now }
    ensures { result ≡ all (is_short_tree (form_of second)) (card_of numbers.now names.now).trees }
{
    let n = memory::tree_count(numbers);
    for i in 0..n {
        if !is_short_tree(numbers, names, second, i) {
            return false;
        }
    }
    true
}

fn is_short_use(numbers: &[u64], names: &[u8], second: bool, p: usize) -> bool
    requires { Numbers numbers.now × Names names.now × (p < label_count) }
    ensures { result ≡ is_short_use (form_of second) (label_in numbers.now names.now p) }
{
    memory_labels::is_free(numbers, p)
        || save_texts::is_short(memory_labels::label_name(names, p), second)
}

fn uses_short(numbers: &[u64], names: &[u8], second: bool) -> bool
    requires { Numbers numbers.now × Names names.now }
    ensures { result ≡ all (is_short_use (form_of second)) (card_of numbers.now names.now).labels }
{
    for p in 0..LABEL_COUNT {
        if !is_short_use(numbers, names, second, p) {
            return false;
        }
    }
    true
}

pub fn fits_save(numbers: &[u64], names: &[u8], second: bool) -> bool
    requires { Numbers numbers.now × Names names.now }
    ensures { result ≡ fits_save (form_of second) (card_of numbers.now names.now) }
{
    trees_short(numbers, names, second) && uses_short(numbers, names, second)
}
