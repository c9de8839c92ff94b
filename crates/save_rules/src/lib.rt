// Whether the card that the memory denotes keeps the rules in force: one function for each rule, and one for what it asks of a row.
// Some rules any memory keeps, since it is read so: the base's range, the identifier's, the numbers of routes, trees and labels, sixteen
// branches to a tree, and a neighbour's number with each label that is mapped. The code tests nothing for them; proofs/Rules.antt says why.
#![tactic(auto)]

ghost use Rattle.std.specs.Prelude.{◌≡◌, true, false, ◌&&◌, List, ℕ, ◌+◌, ◌<◌};
ghost use Rattle.meaning.specs.Octets.{all};
ghost use Rattle.meaning.specs.Card.{tree_at, label_count};
ghost use Rattle.meaning_save.specs.Save.{is_name, is_use, is_carried, all_carried, is_mapped_for, carries_own, holds_right, once_each, same_name, same_root, keeps_rows};
ghost use Rattle.memory.specs.Sizes.{Numbers, Names};
ghost use Rattle.memory.specs.Memory.{card_of, base_in, is_free_at, is_mapped_at, label_in, label_name, StandsAt};

use meaning::LABEL_COUNT;
use memory::{NEIGHBOURS, NOBODY};

// ---- labels

// Whether the label at place p, which is not free, is used for one of the sixteen neighbours.
fn is_near(numbers: &[u64], p: usize) -> bool
    requires { Numbers numbers.now × (p < label_count) × (is_free_at numbers.now p ≡ false) }
    ensures { (os : List ℕ) → is_use (label_in numbers.now os p) ≡ (result && is_name (label_name os p)) }
{
    memory_labels::mapped_at(numbers, p) != NOBODY
        || memory_labels::awaited_at(numbers, p) < NEIGHBOURS
}

// The neighbour of a label in use is one of the sixteen, whatever the memory holds: its name is what can be wrong.
fn is_use(numbers: &[u64], names: &[u8], p: usize) -> bool
    requires { Numbers numbers.now × Names names.now × (p < label_count) }
    ensures { result ≡ is_use (label_in numbers.now names.now p) }
{
    memory_labels::is_free(numbers, p)
        || (is_near(numbers, p) && save_rules_rows::is_name(memory_labels::label_name(names, p)))
}

fn uses_good(numbers: &[u64], names: &[u8]) -> bool
    requires { Numbers numbers.now × Names names.now }
    ensures { result ≡ all is_use (card_of numbers.now names.now).labels }
{
    for p in 0..LABEL_COUNT {
        if !is_use(numbers, names, p) {
            return false;
        }
    }
    true
}

// Whether the label at place p, if it is mapped, is that of the tree of its name. Where no two trees have one name, and each one's label is
// mapped for it, that is whether any tree carries it: its mark says so.
fn is_carried(numbers: &[u64], p: usize) -> bool
    requires { Numbers numbers.now × (p < label_count) }
    ensures { (os : List ℕ) → (let c = card_of numbers.now os in
        once_each same_name c.trees ≡ true → all (carries_own c) c.trees ≡ true → result ≡ is_carried c (base_in numbers.now + p) (label_in numbers.now os p)) }
{
    memory_labels::mapped_at(numbers, p) == NOBODY
        || memory_trees::carrier_at(numbers, p) < memory::tree_count(numbers)
}

fn all_carried(numbers: &[u64]) -> bool
    requires { Numbers numbers.now }
    ensures { (os : List ℕ) → (let c = card_of numbers.now os in
        once_each same_name c.trees ≡ true → all (carries_own c) c.trees ≡ true → result ≡ all_carried c c.base c.labels) }
{
    for p in 0..LABEL_COUNT {
        if !is_carried(numbers, p) {
            return false;
        }
    }
    true
}

// Whether the label at place p is mapped for that name.
pub fn is_mapped_for(numbers: &[u64], names: &[u8], p: usize, name: &[u8]) -> bool
    requires { Numbers numbers.now × Names names.now × (p < label_count) }
    ensures { (result ≡ is_mapped_for name.now (label_in numbers.now names.now p)) × (result ≡ true → is_mapped_at numbers.now p ≡ true) }
{
    memory_labels::mapped_at(numbers, p) != NOBODY
        && octets::equal(memory_labels::label_name(names, p), name)
}

// Whether the label of the tree at place i, if it has one, is mapped for the tree's name.
fn carries_own(numbers: &[u64], names: &[u8], i: usize) -> bool
    requires { Numbers numbers.now × Names names.now × StandsAt numbers.now i }
    ensures { let c = card_of numbers.now names.now in result ≡ carries_own c (tree_at i c) }
{
    let label = memory_trees::tree_label(numbers, i);
    if label == 0 {
        return true;
    }
    let p = memory_labels::place_in_block(numbers, label);
    p < LABEL_COUNT && is_mapped_for(numbers, names, p, memory_trees::tree_name(names, i))
}

fn own_labels(numbers: &[u64], names: &[u8]) -> bool
    requires { Numbers numbers.now × Names names.now }
    ensures { let c = card_of numbers.now names.now in result ≡ all (carries_own c) c.trees }
{
    let n = memory::tree_count(numbers);
    for i in 0..n {
        if !carries_own(numbers, names, i) {
            return false;
        }
    }
    true
}

// ---- all of them

// Each is asked: a table that keeps the rules passes them all. That names and roots stand once, and that trees hold their labels for whom
// they are to, is known.
pub fn keeps_rules(numbers: &[u64], names: &[u8]) -> bool
    requires { let c = card_of numbers.now names.now in Numbers numbers.now × Names names.now × (once_each same_name c.trees ≡ true) × (once_each same_root c.routes ≡ true)
        × (all (holds_right c) c.trees ≡ true) }
    ensures { result ≡ keeps_rows (card_of numbers.now names.now) }
{
    save_rules_rows::routes_good(numbers, names)
        & save_rules_rows::trees_good(numbers, names)
        & uses_good(numbers, names)
        & all_carried(numbers)
        & own_labels(numbers, names)
}
