// A neighbour's session is lost: its room is tested before anything is written, all that is its own goes, labels that lead nowhere
// any more are given up, and empty trees go.
#![tactic(auto)]

ghost use Rattle.std.specs.Prelude.{◌≡◌, ◌+◌, ◌*◌, ◌≤◌, ◌<◌, length, ltb};
ghost use Rattle.meaning.specs.Wire.{records, record_limit};
ghost use Rattle.meaning.specs.Card.{tree_at, tree_limit, neighbour_count};
ghost use Rattle.meaning.specs.Events.{finish, swept, shed, shed_from, swept_below, part};
ghost use Rattle.meaning_laws.specs.Losses.{loss_size};
ghost use Rattle.meaning.specs.Calls.{Does};
ghost use Rattle.memory.specs.Sizes.{Numbers, Names};
ghost use Rattle.memory.specs.Memory.{card_of, StandsAt};
ghost use Rattle.event_holder.specs.Move.{Wrote};
ghost use Rattle.event_tree.specs.End.{Ended};
ghost use Rattle.event_lost.specs.Lost.{lost_to, loss_all};
ghost use Rattle.refusals.specs.Refusals.{answer_of, count_of};

use event_move::Written;
use meaning::{RECORD_BESIDE, RECORD_LIMIT};
use memory::NOBODY;
use refusals::Refusal;

// ---- how much it writes

// How many octets the Withdraw of the tree at place i has, once neighbour n is lost; 0 where it sends none.
fn loss_of(numbers: &[u64], names: &[u8], i: usize, n: usize) -> usize
    requires { Numbers numbers.now × Names names.now × (n < neighbour_count) × StandsAt numbers.now i }
    ensures { let c = card_of numbers.now names.now in (result ≡ loss_size n c (tree_at i c)) × (result ≤ record_limit) }
{
    let u = memory_trees::held_for(numbers, i);
    if u == NOBODY {
        return 0;
    }
    if u == n as u64 {
        return 0;
    }
    let leaf = memory_trees::is_leaf(numbers, i);
    if event_holder::holder_then(numbers, i, n, 0, leaf, u) == NOBODY {
        return RECORD_BESIDE + memory_trees::tree_name(names, i).len();
    }
    0
}

// Of all trees, as they stand before it.
fn loss_size(numbers: &[u64], names: &[u8], n: usize) -> usize
    requires { Numbers numbers.now × Names names.now × (n < neighbour_count) }
    ensures { (result ≡ loss_all n (card_of numbers.now names.now)) × (result ≤ tree_limit * record_limit) }
{
    let k = memory::tree_count(numbers);
    let mut sum = 0;
    for i in 0..k {
        sum += loss_of(numbers, names, i, n);
    }
    sum
}

// 16. Where there is room for a record of each tree that stands, none of them need be looked at.
fn is_short(numbers: &[u64], names: &[u8], n: usize, room: usize) -> bool
    requires { Numbers numbers.now × Names names.now × (n < neighbour_count) }
    ensures { result ≡ ltb room (loss_all n (card_of numbers.now names.now)) }
{
    room < memory::tree_count(numbers) * RECORD_LIMIT && room < loss_size(numbers, names, n)
}

// ---- labels that lead nowhere

// The tree at place i gives up its label where it has no leaf, and no branch but that of the neighbour that the label is mapped to.
fn shed_one(numbers: &mut [u64], names: &[u8], i: usize, out: &mut [u8], from: Written) -> Written
    requires { Numbers numbers.old × Names names.now × (from.at + length (records from.id (shed i (card_of numbers.old names.now)).sent) ≤ length out.old) × StandsAt numbers.old i }
    ensures { Wrote (shed i (card_of numbers.old names.now)) from.id from.at out.old out.new (card_of numbers.new names.now) result.at result.id }
{
    let u = memory_trees::held_for(numbers, i);
    if u == NOBODY {
        return from;
    }
    if event_holder::holder(numbers, i, u) == NOBODY {
        return event_move::let_go(numbers, names, i, out, from.at, from.id);
    }
    from
}

// All trees, oldest first.
fn shed_all(numbers: &mut [u64], names: &[u8], out: &mut [u8], id: u32) -> Written
    requires { let c = card_of numbers.old names.now in Numbers numbers.old × Names names.now
        × (length (records id (shed_from (length c.trees) 0 c).sent) ≤ length out.old) }
    ensures { let c = card_of numbers.old names.now in Wrote (shed_from (length c.trees) 0 c) id 0 out.old out.new (card_of numbers.new names.now) result.at result.id }
{
    let k = memory::tree_count(numbers);
    let mut last = Written { at: 0, id };
    for i in 0..k {
        last = shed_one(numbers, names, i, out, last);
    }
    last
}

// ---- empty trees

fn sweep_one(numbers: &mut [u64], names: &mut [u8], i: usize)
    requires { Numbers numbers.old × Names names.old × StandsAt numbers.old i }
    ensures { card_of numbers.new names.new ≡ swept i (card_of numbers.old names.old) }
{
    if memory_counts::is_empty(numbers, i) {
        memory_rows::remove_tree(numbers, names, i);
    }
}

// From the newest down: a tree that goes moves only those behind it, which have been looked at.
fn sweep(numbers: &mut [u64], names: &mut [u8])
    requires { Numbers numbers.old × Names names.old }
    ensures { let c = card_of numbers.old names.old in card_of numbers.new names.new ≡ swept_below (length c.trees) c }
{
    for i in (0..memory::tree_count(numbers)).rev() {
        sweep_one(numbers, names, i);
    }
}

// ---- all of it

fn part(numbers: &mut [u64], names: &mut [u8], n: usize, out: &mut [u8]) -> usize
    requires { Numbers numbers.old × Names names.old × (n < neighbour_count) × (loss_all n (card_of numbers.old names.old) ≤ length out.old) }
    ensures { let c = card_of numbers.old names.old in Ended (lost_to c n) c.next 0 out.old out.new (card_of numbers.new names.new) result }
{
    let id = memory::next_id(numbers);
    event_parted::part_from(numbers, names, n);
    let w = shed_all(numbers, names, out, id);
    sweep(numbers, names);
    memory::set_next_id(numbers, w.id);
    w.at
}

// Neighbour n is lost.
pub fn lose(
    numbers: &mut [u64],
    names: &mut [u8],
    n: usize,
    out: &mut [u8],
) -> Result<usize, Refusal>
    requires { Numbers numbers.old × Names names.old × (n < neighbour_count) }
    ensures { let c = card_of numbers.old names.old in Does (finish (length out.old) c (part c n))
        (answer_of result) (count_of result) out.old out.new (card_of numbers.new names.new) }
{
    if is_short(numbers, names, n, out.len()) {
        return Err(Refusal::NoRoom);
    }
    Ok(part(numbers, names, n, out))
}
