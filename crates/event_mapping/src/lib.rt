// A Mapping. It tests all its refusals, 16 too, before it changes the table or writes an octet.
#![tactic(auto)]

ghost use Rattle.std.specs.Prelude.{◌≡◌, List, ℕ, ◌≤◌, ◌<◌, length};
ghost use Rattle.meaning.specs.Wire.{name_limit, least_label};
ghost use Rattle.meaning.specs.Card.{tree_at, tree_place, neighbour_count};
ghost use Rattle.meaning.specs.Events.{finish, other_label, on_mapping};
ghost use Rattle.meaning.specs.Calls.{Does};
ghost use Rattle.refusals.specs.Refusals.{answer_of, count_of};
ghost use Rattle.memory.specs.Sizes.{Numbers, Names};
ghost use Rattle.memory.specs.Memory.{card_of, tree_count, StandsAt};

use refusals::Refusal;

// 10: neighbour n's branch of the tree at place i stands with another label.
fn other_label(numbers: &[u64], i: usize, n: usize, label: u64) -> bool
    requires { Numbers numbers.now × (n < neighbour_count) × StandsAt numbers.now i }
    ensures { (os : List ℕ) → result ≡ other_label (tree_at i (card_of numbers.now os)) n label }
{
    let b = memory_trees::branch(numbers, i, n);
    b != 0 && b != label
}

// A Mapping to the tree at place i.
fn map_standing(
    numbers: &mut [u64],
    names: &mut [u8],
    i: usize,
    n: usize,
    label: u64,
    out: &mut [u8],
) -> Result<usize, Refusal>
    requires { let c = card_of numbers.old names.old in Numbers numbers.old × Names names.old × (n < neighbour_count) × (least_label ≤ label)
        × (i ≡ tree_place (tree_at i c).name c) × StandsAt numbers.old i }
    ensures { let c = card_of numbers.old names.old in Does (finish (length out.old) c (on_mapping c n (tree_at i c).name label))
        (answer_of result) (count_of result) out.old out.new (card_of numbers.new names.new) }
{
    if other_label(numbers, i, n, label) {
        return Err(Refusal::OtherLabel);
    }
    let k = memory_counts::its_root(numbers, names, i);
    let u = event_tree::branch_holder(numbers, i, k, n, label);
    event_tree::check_standing(numbers, names, i, u, 0, out.len())?;
    let id = memory::next_id(numbers);
    memory_counts::change_branch(numbers, i, k, n, label);
    Ok(event_tree::settle(numbers, names, i, u, false, out, 0, id))
}

// A Mapping of a tree that does not stand.
fn map_new(
    numbers: &mut [u64],
    names: &mut [u8],
    n: usize,
    name: &[u8],
    label: u64,
    out: &mut [u8],
) -> Result<usize, Refusal>
    requires { Numbers numbers.old × Names names.old × (n < neighbour_count) × (least_label ≤ label) × (length name.now ≤ name_limit) × (tree_place name.now (card_of numbers.old names.old) ≡ tree_count numbers.old) }
    ensures { let c = card_of numbers.old names.old in Does (finish (length out.old) c (on_mapping c n name.now label))
        (answer_of result) (count_of result) out.old out.new (card_of numbers.new names.new) }
{
    let k = memory_counts::root_place(numbers, names, name);
    let u = event_tree::new_holder(numbers, k, n);
    event_tree::check_new(numbers, u, wire_writer::record_size(name), out.len())?;
    let place = memory::tree_count(numbers);
    let id = memory::next_id(numbers);
    memory_rows::enter_tree(numbers, names, name);
    memory_counts::first_branch(numbers, place, k, n, label);
    Ok(event_tree::grow(numbers, names, place, u, out, id))
}

pub fn map(
    numbers: &mut [u64],
    names: &mut [u8],
    n: usize,
    name: &[u8],
    label: u64,
    out: &mut [u8],
) -> Result<usize, Refusal>
    requires { Numbers numbers.old × Names names.old × (n < neighbour_count) × (least_label ≤ label) × (length name.now ≤ name_limit) }
    ensures { let c = card_of numbers.old names.old in Does (finish (length out.old) c (on_mapping c n name.now label))
        (answer_of result) (count_of result) out.old out.new (card_of numbers.new names.new) }
{
    let i = memory_trees::tree_place(numbers, names, name);
    if i < memory::tree_count(numbers) {
        map_standing(numbers, names, i, n, label, out)
    } else {
        map_new(numbers, names, n, name, label, out)
    }
}
