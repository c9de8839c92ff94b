// A leaf that joins a tree. All refusals, 16 too, are tested before the table changes or an octet is written.
#![tactic(auto)]

ghost use Rattle.std.specs.Prelude.{◌≡◌, ◌≤◌, ◌<◌, length};
ghost use Rattle.meaning.specs.Wire.{name_limit};
ghost use Rattle.meaning.specs.Card.{tree_at, tree_place};
ghost use Rattle.meaning.specs.Events.{finish};
ghost use Rattle.meaning.specs.Calls.{Does};
ghost use Rattle.refusals.specs.Refusals.{answer_of, count_of};
ghost use Rattle.memory.specs.Sizes.{Numbers, Names};
ghost use Rattle.memory.specs.Memory.{card_of, tree_count, StandsAt};
ghost use Rattle.event_join.specs.Order.{join_of};

use refusals::Refusal;

// A leaf joins the tree at place i.
fn join_standing(
    numbers: &mut [u64],
    names: &mut [u8],
    i: usize,
    out: &mut [u8],
) -> Result<usize, Refusal>
    requires { let c = card_of numbers.old names.old in Numbers numbers.old × Names names.old × (i ≡ tree_place (tree_at i c).name c) × StandsAt numbers.old i }
    ensures { let c = card_of numbers.old names.old in Does (finish (length out.old) c (join_of c (tree_at i c).name))
        (answer_of result) (count_of result) out.old out.new (card_of numbers.new names.new) }
{
    let k = memory_counts::its_root(numbers, names, i);
    let u = event_tree::leaf_holder(numbers, i, k, true);
    event_tree::check_standing(numbers, names, i, u, 0, out.len())?;
    let id = memory::next_id(numbers);
    memory_counts::change_leaf(numbers, i, k, true);
    Ok(event_tree::settle(numbers, names, i, u, false, out, 0, id))
}

// A leaf joins a tree that does not stand.
fn join_new(
    numbers: &mut [u64],
    names: &mut [u8],
    name: &[u8],
    out: &mut [u8],
) -> Result<usize, Refusal>
    requires { Numbers numbers.old × Names names.old × (length name.now ≤ name_limit) × (tree_place name.now (card_of numbers.old names.old) ≡ tree_count numbers.old) }
    ensures { let c = card_of numbers.old names.old in Does (finish (length out.old) c (join_of c name.now))
        (answer_of result) (count_of result) out.old out.new (card_of numbers.new names.new) }
{
    let k = memory_counts::root_place(numbers, names, name);
    let u = event_holder::upstream_at(numbers, k);
    event_tree::check_new(numbers, u, wire_writer::record_size(name), out.len())?;
    let place = memory::tree_count(numbers);
    let id = memory::next_id(numbers);
    memory_rows::enter_tree(numbers, names, name);
    memory_counts::first_leaf(numbers, place, k);
    Ok(event_tree::grow(numbers, names, place, u, out, id))
}

pub fn join(
    numbers: &mut [u64],
    names: &mut [u8],
    name: &[u8],
    out: &mut [u8],
) -> Result<usize, Refusal>
    requires { Numbers numbers.old × Names names.old × (length name.now ≤ name_limit) }
    ensures { let c = card_of numbers.old names.old in Does (finish (length out.old) c (join_of c name.now))
        (answer_of result) (count_of result) out.old out.new (card_of numbers.new names.new) }
{
    let i = memory_trees::tree_place(numbers, names, name);
    if i < memory::tree_count(numbers) {
        join_standing(numbers, names, i, out)
    } else {
        join_new(numbers, names, name, out)
    }
}
