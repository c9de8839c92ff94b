// A Withdraw, and a Release. Each tests all its refusals, 16 too, before it changes the table or writes an octet.
#![tactic(auto)]

ghost use Rattle.std.specs.Prelude.{◌≡◌, List, ℕ, ◌≤◌, ◌<◌, length};
ghost use Rattle.meaning.specs.Wire.{name_limit, least_label};
ghost use Rattle.meaning.specs.Card.{tree_at, tree_place, with_branch, is_empty, neighbour_count};
ghost use Rattle.meaning.specs.Events.{finish, less_branch, on_withdraw, on_release};
ghost use Rattle.meaning.specs.Calls.{Does};
ghost use Rattle.refusals.specs.Refusals.{answer_of, count_of};
ghost use Rattle.memory.specs.Sizes.{Numbers, Names};
ghost use Rattle.memory.specs.Memory.{card_of, tree_count, StandsAt};

use memory::NO_NEIGHBOUR;
use refusals::Refusal;

// What a Withdraw of a label from neighbour n leaves of the tree at place i: its branch there, and whether it is empty.
fn less_branch(numbers: &[u64], i: usize, n: usize, label: u64) -> u64
    requires { Numbers numbers.now × (n < neighbour_count) × StandsAt numbers.now i }
    ensures { (os : List ℕ) → (let c = card_of numbers.now os in with_branch n result (tree_at i c) ≡ less_branch n label (tree_at i c)) }
{
    let b = memory_trees::branch(numbers, i, n);
    if b == label { 0 } else { b }
}

fn less_empty(numbers: &[u64], i: usize, n: usize, left: u64) -> bool
    requires { Numbers numbers.now × (n < neighbour_count) × StandsAt numbers.now i }
    ensures { (os : List ℕ) → result ≡ is_empty (with_branch n left (tree_at i (card_of numbers.now os))) }
{
    !memory_trees::is_leaf(numbers, i)
        && !memory_trees::any_branch(numbers, i, n, left, NO_NEIGHBOUR)
}

// A Withdraw for the tree at place i: the Release goes first.
fn withdraw_standing(
    numbers: &mut [u64],
    names: &mut [u8],
    i: usize,
    n: usize,
    label: u64,
    out: &mut [u8],
) -> Result<usize, Refusal>
    requires { let c = card_of numbers.old names.old in Numbers numbers.old × Names names.old × (n < neighbour_count)
        × (i ≡ tree_place (tree_at i c).name c) × StandsAt numbers.old i }
    ensures { let c = card_of numbers.old names.old in Does (finish (length out.old) c (on_withdraw c n (tree_at i c).name label))
        (answer_of result) (count_of result) out.old out.new (card_of numbers.new names.new) }
{
    let left = less_branch(numbers, i, n, label);
    let empty = less_empty(numbers, i, n, left);
    let k = memory_counts::its_root(numbers, names, i);
    let u = event_tree::branch_holder(numbers, i, k, n, left);
    let name = memory_trees::tree_name(names, i);
    let first = wire_writer::record_size(name);
    event_tree::check_standing(numbers, names, i, u, first, out.len())?;
    let id = wire_writer::send(
        memory::next_id(numbers),
        out,
        0,
        n as u64,
        0x0403,
        label,
        name,
    );
    memory_counts::change_branch(numbers, i, k, n, left);
    Ok(event_tree::settle(numbers, names, i, u, empty, out, first, id))
}

// A Withdraw for a tree that does not stand is answered all the same.
fn withdraw_unknown(
    numbers: &mut [u64],
    names: &[u8],
    n: usize,
    name: &[u8],
    label: u64,
    out: &mut [u8],
) -> Result<usize, Refusal>
    requires { Numbers numbers.old × Names names.now × (n < neighbour_count) × (least_label ≤ label) × (length name.now ≤ name_limit) × (tree_place name.now (card_of numbers.old names.now) ≡ tree_count numbers.old) }
    ensures { let c = card_of numbers.old names.now in Does (finish (length out.old) c (on_withdraw c n name.now label))
        (answer_of result) (count_of result) out.old out.new (card_of numbers.new names.now) }
{
    let size = wire_writer::record_size(name);
    if out.len() < size {
        return Err(Refusal::NoRoom);
    }
    let next = wire_writer::send(
        memory::next_id(numbers),
        out,
        0,
        n as u64,
        0x0403,
        label,
        name,
    );
    memory::set_next_id(numbers, next);
    Ok(size)
}

pub fn withdraw(
    numbers: &mut [u64],
    names: &mut [u8],
    n: usize,
    name: &[u8],
    label: u64,
    out: &mut [u8],
) -> Result<usize, Refusal>
    requires { Numbers numbers.old × Names names.old × (n < neighbour_count) × (least_label ≤ label) × (length name.now ≤ name_limit) }
    ensures { let c = card_of numbers.old names.old in Does (finish (length out.old) c (on_withdraw c n name.now label))
        (answer_of result) (count_of result) out.old out.new (card_of numbers.new names.new) }
{
    let i = memory_trees::tree_place(numbers, names, name);
    if i < memory::tree_count(numbers) {
        withdraw_standing(numbers, names, i, n, label, out)
    } else {
        withdraw_unknown(numbers, names, n, name, label, out)
    }
}

pub fn release(
    numbers: &mut [u64],
    names: &[u8],
    n: usize,
    name: &[u8],
    label: u64,
) -> Result<(), Refusal>
    requires { Numbers numbers.old × Names names.now × (n < neighbour_count) }
    ensures { let c = card_of numbers.old names.now in ((s : List ℕ) → Does (finish (length s) c (on_release c n name.now label))
        (answer_of result) 0 s s (card_of numbers.new names.now)) }
{
    if memory_labels::is_awaited(numbers, names, n as u64, name, label) {
        memory_free::free_label(numbers, label);
        Ok(())
    } else {
        Err(Refusal::NotAwaited)
    }
}
