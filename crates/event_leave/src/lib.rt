// A leaf that leaves its tree. All refusals, 16 too, are tested before the table changes or an octet is written.
#![tactic(auto)]

ghost use Rattle.std.specs.Prelude.{◌≡◌, length};
ghost use Rattle.meaning.specs.Card.{tree_at, tree_place};
ghost use Rattle.meaning.specs.Events.{finish};
ghost use Rattle.meaning.specs.Calls.{Does};
ghost use Rattle.refusals.specs.Refusals.{answer_of, count_of};
ghost use Rattle.memory.specs.Sizes.{Numbers, Names};
ghost use Rattle.memory.specs.Memory.{card_of, StandsAt};
ghost use Rattle.event_leave.specs.Order.{leave_of};

use memory::NO_NEIGHBOUR;
use refusals::Refusal;

// The leaf of the tree at place i leaves.
fn leave_standing(
    numbers: &mut [u64],
    names: &mut [u8],
    i: usize,
    out: &mut [u8],
) -> Result<usize, Refusal>
    requires { let c = card_of numbers.old names.old in Numbers numbers.old × Names names.old × (i ≡ tree_place (tree_at i c).name c) × StandsAt numbers.old i }
    ensures { let c = card_of numbers.old names.old in Does (finish (length out.old) c (leave_of c (tree_at i c).name))
        (answer_of result) (count_of result) out.old out.new (card_of numbers.new names.new) }
{
    let empty = !memory_trees::any_branch(numbers, i, NO_NEIGHBOUR, 0, NO_NEIGHBOUR);
    let k = memory_counts::its_root(numbers, names, i);
    let u = event_tree::leaf_holder(numbers, i, k, false);
    if !memory_trees::is_leaf(numbers, i) {
        if event_holder::no_label_for(numbers, i, u) {
            return Err(Refusal::LabelsShort);
        }
        return Err(Refusal::NotALeaf);
    }
    event_tree::check_standing(numbers, names, i, u, 0, out.len())?;
    let id = memory::next_id(numbers);
    memory_counts::change_leaf(numbers, i, k, false);
    Ok(event_tree::settle(numbers, names, i, u, empty, out, 0, id))
}

pub fn leave(
    numbers: &mut [u64],
    names: &mut [u8],
    name: &[u8],
    out: &mut [u8],
) -> Result<usize, Refusal>
    requires { Numbers numbers.old × Names names.old }
    ensures { let c = card_of numbers.old names.old in Does (finish (length out.old) c (leave_of c name.now))
        (answer_of result) (count_of result) out.old out.new (card_of numbers.new names.new) }
{
    let i = memory_trees::tree_place(numbers, names, name);
    if i < memory::tree_count(numbers) {
        leave_standing(numbers, names, i, out)
    } else {
        Err(Refusal::NotALeaf)
    }
}
