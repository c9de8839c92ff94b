// A save does not carry the counts of the roots' trees: they are worked out when its routes, trees and labels are in the memory. For whom a
// tree is to hold its label hangs on its root too, which is sought once for both.
#![tactic(auto)]

ghost use Rattle.std.specs.Prelude.{◌≡◌, true, List, [], ℕ, ◌<◌};
ghost use Rattle.meaning.specs.Octets.{all};
ghost use Rattle.meaning.specs.Wire.{root_in};
ghost use Rattle.meaning.specs.Card.{tree_at, bare, route_place};
ghost use Rattle.meaning.specs.Events.{recounted};
ghost use Rattle.meaning_save.specs.Save.{once_each, same_root, all_worked_out, holds_right};
ghost use Rattle.memory.specs.Sizes.{Numbers, Names};
ghost use Rattle.memory.specs.Memory.{card_of, StandsAt};
ghost use Rattle.save_counts.specs.Counted.{counted};

use memory_counts::Counts;

// Whether the tree at place i, whose root's place is k, holds a label for whom it is to.
fn holds_right(numbers: &[u64], i: usize, k: usize) -> bool
    requires { Numbers numbers.now × StandsAt numbers.now i }
    ensures { (os : List ℕ) → (let c = card_of numbers.now os in k ≡ route_place (root_in (tree_at i c).name) c → result ≡ holds_right c (tree_at i c)) }
{
    let u = event_holder::upstream_at(numbers, k);
    memory_trees::held_for(numbers, i) == event_holder::holder(numbers, i, u)
}

// The tree at place i, which is not counted yet, is counted in the entry of its root; whether it holds a label for whom it is to.
fn count_tree(numbers: &mut [u64], names: &[u8], i: usize) -> bool
    requires { Numbers numbers.old × Names names.now × StandsAt numbers.old i }
    ensures { let c = card_of numbers.old names.now in (card_of numbers.new names.now ≡ recounted (bare []) (tree_at i c) c)
        × (result ≡ holds_right c (tree_at i c)) }
{
    let k = memory_counts::its_root(numbers, names, i);
    let right = holds_right(numbers, i, k);
    let none = Counts {
        standing: 0,
        lone: 0,
    };
    memory_counts::recount(numbers, k, none, memory_counts::counts_at(numbers, i));
    right
}

// Whether all trees hold a label for whom they are to; where they do, each is counted in the entry of its root, where no entry counts one
// yet and no root has two.
pub fn work_out_all(numbers: &mut [u64], names: &[u8]) -> bool
    requires { let c = card_of numbers.old names.now in Numbers numbers.old × Names names.now × (once_each same_root c.routes ≡ true) × (all_worked_out [] c.routes ≡ c.routes) }
    ensures { let c = card_of numbers.old names.now in (result ≡ all (holds_right c) c.trees)
        × (result ≡ true → card_of numbers.new names.now ≡ counted c) }
{
    let n = memory::tree_count(numbers);
    for i in 0..n {
        if !count_tree(numbers, names, i) {
            return false;
        }
    }
    true
}
