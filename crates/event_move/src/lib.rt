// The rule of labels, in memory and on the wire: a tree gives up its label and is given one, and the records say so.
#![tactic(auto)]

ghost use Rattle.std.specs.Prelude.{◌≡◌, ◌+◌, ◌≤◌, ◌<◌, length};
ghost use Rattle.meaning.specs.Wire.{records, record_size};
ghost use Rattle.meaning.specs.Card.{tree_at, free_labels, neighbour_count, this_node, nobody};
ghost use Rattle.meaning.specs.Events.{give_up, give, let_go, take_up, move_label, relabel, need_move, need};
ghost use Rattle.memory.specs.Sizes.{Numbers, Names};
ghost use Rattle.memory.specs.Memory.{card_of, StandsAt};
ghost use Rattle.event_holder.specs.Move.{Wrote, move_size, relabel_size};

use memory::NOBODY;

// Where the next record goes, and its identifier.
#[derive(Clone, Copy)]
pub struct Written {
    pub at: usize,
    pub id: u32,
}

// ---- one tree

fn give_up(numbers: &mut [u64], names: &[u8], i: usize, out: &mut [u8], from: Written) -> Written
    requires { let c = card_of numbers.old names.now in Numbers numbers.old × Names names.now × ((tree_at i c).label ≡ 0 → ⊥)
        × (from.at + record_size (tree_at i c).name ≤ length out.old) × StandsAt numbers.old i }
    ensures { let c = card_of numbers.old names.now in Wrote (give_up i c) from.id from.at out.old out.new (card_of numbers.new names.now) result.at result.id
        × (free_labels (card_of numbers.new names.now) ≡ free_labels c) }
{
    let to = memory_trees::held_for(numbers, i);
    let label = memory_trees::tree_label(numbers, i);
    let name = memory_trees::tree_name(names, i);
    let at = from.at + wire_writer::record_size(name);
    let id = wire_writer::send(from.id, out, from.at, to, 0x0402, label, name);
    memory_changes::end_label(numbers, i);
    Written { at, id }
}

// Kept: the four that are public take the place and the identifier apart, since their signatures stay.
pub fn let_go(
    numbers: &mut [u64],
    names: &[u8],
    i: usize,
    out: &mut [u8],
    at: usize,
    id: u32,
) -> Written
    requires { Numbers numbers.old × Names names.now × (at + length (records id (let_go i (card_of numbers.old names.now)).sent) ≤ length out.old) × StandsAt numbers.old i }
    ensures { let c = card_of numbers.old names.now in Wrote (let_go i c) id at out.old out.new (card_of numbers.new names.now) result.at result.id
        × (free_labels (card_of numbers.new names.now) ≡ free_labels c) }
{
    let from = Written { at, id };
    if memory_trees::tree_label(numbers, i) == 0 {
        from
    } else {
        give_up(numbers, names, i, out, from)
    }
}

fn give(
    numbers: &mut [u64],
    names: &mut [u8],
    i: usize,
    u: u64,
    out: &mut [u8],
    from: Written,
) -> Written
    requires { let c = card_of numbers.old names.old in Numbers numbers.old × Names names.old × (u < neighbour_count)
        × (0 < free_labels c)
        × (from.at + record_size (tree_at i c).name ≤ length out.old) × StandsAt numbers.old i }
    ensures { let c = card_of numbers.old names.old in Wrote (give i u c) from.id from.at out.old out.new (card_of numbers.new names.new) result.at result.id
        × (free_labels (card_of numbers.new names.new) + 1 ≡ free_labels c) }
{
    let p = memory_free::next_free(numbers);
    let label = memory::base(numbers) + p as u64;
    let name = memory_trees::tree_name(names, i);
    let at = from.at + wire_writer::record_size(name);
    let id = wire_writer::send(from.id, out, from.at, u, 0x0400, label, name);
    memory_marks::map_label(numbers, names, p, i, u);
    memory::set_turn(numbers, p + 1);
    Written { at, id }
}

pub fn take_up(
    numbers: &mut [u64],
    names: &mut [u8],
    i: usize,
    u: u64,
    out: &mut [u8],
    at: usize,
    id: u32,
) -> Written
    requires { let c = card_of numbers.old names.old in Numbers numbers.old × Names names.old × (u ≤ nobody) × (u ≡ this_node → ⊥)
        × (need_move u ≤ free_labels c)
        × (at + length (records id (take_up i u c).sent) ≤ length out.old) × StandsAt numbers.old i }
    ensures { let c = card_of numbers.old names.old in Wrote (take_up i u c) id at out.old out.new (card_of numbers.new names.new) result.at result.id
        × (free_labels (card_of numbers.new names.new) + need_move u ≡ free_labels c) }
{
    let from = Written { at, id };
    if u == NOBODY {
        from
    } else {
        give(numbers, names, i, u, out, from)
    }
}

// What is handed back is made anew: a copy of both numbers at once would wait for the two that were just written.
pub fn move_label(
    numbers: &mut [u64],
    names: &mut [u8],
    i: usize,
    u: u64,
    out: &mut [u8],
    at: usize,
    id: u32,
) -> Written
    requires { let c = card_of numbers.old names.old in Numbers numbers.old × Names names.old × (u ≤ nobody) × (u ≡ this_node → ⊥)
        × (need_move u ≤ free_labels c)
        × (at + move_size (tree_at i c) u ≤ length out.old) × StandsAt numbers.old i }
    ensures { let c = card_of numbers.old names.old in Wrote (move_label i u c) id at out.old out.new (card_of numbers.new names.new) result.at result.id
        × (free_labels (card_of numbers.new names.new) + need_move u ≡ free_labels c) }
{
    let w = let_go(numbers, names, i, out, at, id);
    let end = w.at;
    let next = w.id;
    let v = take_up(numbers, names, i, u, out, end, next);
    Written { at: v.at, id: v.id }
}

// From now on the tree at place i holds a label for u, or none where u is 17.
pub fn relabel(
    numbers: &mut [u64],
    names: &mut [u8],
    i: usize,
    u: u64,
    out: &mut [u8],
    at: usize,
    id: u32,
) -> Written
    requires { let c = card_of numbers.old names.old in Numbers numbers.old × Names names.old × (u ≤ nobody) × (u ≡ this_node → ⊥)
        × (need c (tree_at i c) u ≤ free_labels c)
        × (at + relabel_size c (tree_at i c) u ≤ length out.old) × StandsAt numbers.old i }
    ensures { Wrote (relabel i u (card_of numbers.old names.old)) id at out.old out.new (card_of numbers.new names.new) result.at result.id }
{
    if memory_trees::held_for(numbers, i) == u {
        Written { at, id }
    } else {
        move_label(numbers, names, i, u, out, at, id)
    }
}
