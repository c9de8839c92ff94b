// The trees of a root, oldest first: what a route order takes, and the move of them all.
#![tactic(auto)]

ghost use Rattle.std.specs.Prelude.{◌≡◌, List, ℕ, ◌+◌, ◌≤◌, ◌<◌, ◌*◌, length, ltb, true};
ghost use Rattle.meaning.specs.Octets.{◌when◌else◌};
ghost use Rattle.meaning.specs.Wire.{records, record_limit};
ghost use Rattle.meaning.specs.Card.{tree_at, free_labels, sent_limit, tree_limit, this_node, nobody};
ghost use Rattle.meaning.specs.Events.{labels_short, need_one, need_all, move_one, move_all};
ghost use Rattle.memory.specs.Sizes.{Numbers, Names};
ghost use Rattle.memory.specs.Memory.{card_of, StandsAt};
ghost use Rattle.event_holder.specs.Move.{Wrote, size_one, size_all};
ghost use Rattle.refusals.specs.Refusals.{answer_of};

use event_move::Written;
use meaning::RECORD_LIMIT;
use memory::NOBODY;
use refusals::Refusal;

// What a move takes: how many free labels, and how many octets its records have.
#[derive(Clone, Copy)]
pub struct Takes {
    pub labels: usize,
    pub octets: usize,
}

// That of one tree.
fn take_one(numbers: &[u64], names: &[u8], i: usize, root: &[u8], u: u64) -> Takes
    requires { Numbers numbers.now × Names names.now × StandsAt numbers.now i }
    ensures { let t = tree_at i (card_of numbers.now names.now) in (result.labels ≡ need_one root.now u t) × (result.octets ≡ size_one root.now u t)
        × (result.labels ≤ 1) × (result.octets ≤ 2 * record_limit) }
{
    if memory_counts::is_of_root(names, i, root) {
        let h = event_holder::holder(numbers, i, u);
        let octets = event_holder::move_size(numbers, names, i, h);
        if h == NOBODY {
            return Takes { labels: 0, octets };
        }
        return Takes { labels: 1, octets };
    }
    Takes {
        labels: 0,
        octets: 0,
    }
}

// That of all trees of a root, in one walk.
pub fn take_all(numbers: &[u64], names: &[u8], root: &[u8], u: u64) -> Takes
    requires { Numbers numbers.now × Names names.now }
    ensures { let c = card_of numbers.now names.now in (result.labels ≡ need_all root.now u c) × (result.octets ≡ size_all root.now u c)
        × (result.labels ≤ tree_limit) × (result.octets ≤ sent_limit) }
{
    let n = memory::tree_count(numbers);
    let mut labels = 0;
    let mut octets = 0;
    for i in 0..n {
        let t = take_one(numbers, names, i, root, u);
        labels += t.labels;
        octets += t.octets;
    }
    Takes { labels, octets }
}

// How many free labels that takes.
pub fn need_all(numbers: &[u64], names: &[u8], root: &[u8], u: u64) -> usize
    requires { Numbers numbers.now × Names names.now }
    ensures { (result ≡ need_all root.now u (card_of numbers.now names.now)) × (result ≤ tree_limit) }
{
    take_all(numbers, names, root, u).labels
}

// Whether there are labels and room for a move of as many trees as stand: then none of them need be looked at.
fn is_plenty(numbers: &[u64], room: usize) -> bool
    requires { Numbers numbers.now }
    ensures { result ≡ true → (os root : List ℕ) (u : ℕ) → (let c = card_of numbers.now os in (need_all root u c ≤ free_labels c) × (size_all root u c ≤ room)) }
{
    let n = memory::tree_count(numbers);
    n * (2 * RECORD_LIMIT) <= room && !memory_free::labels_short(numbers, n)
}

// 12 and 16 for a move of all trees of a root.
pub fn check_moves(
    numbers: &[u64],
    names: &[u8],
    root: &[u8],
    u: u64,
    room: usize,
) -> Result<(), Refusal>
    requires { Numbers numbers.now × Names names.now }
    ensures { let c = card_of numbers.now names.now in answer_of result ≡ 12 when labels_short c (need_all root.now u c) else 16 when ltb room (size_all root.now u c) else 0 }
{
    if is_plenty(numbers, room) {
        return Ok(());
    }
    let t = take_all(numbers, names, root, u);
    if memory_free::labels_short(numbers, t.labels) {
        return Err(Refusal::LabelsShort);
    }
    if room < t.octets {
        return Err(Refusal::NoRoom);
    }
    Ok(())
}

fn move_one(
    numbers: &mut [u64],
    names: &mut [u8],
    i: usize,
    root: &[u8],
    u: u64,
    out: &mut [u8],
    from: Written,
) -> Written
    requires { let c = card_of numbers.old names.old in Numbers numbers.old × Names names.old × (u ≤ nobody) × (u ≡ this_node → ⊥)
        × (need_one root.now u (tree_at i c) ≤ free_labels c)
        × (from.at + length (records from.id (move_one root.now u i c).sent) ≤ length out.old) × StandsAt numbers.old i }
    ensures { let c = card_of numbers.old names.old in Wrote (move_one root.now u i c) from.id from.at out.old out.new (card_of numbers.new names.new) result.at result.id
        × (free_labels (card_of numbers.new names.new) + need_one root.now u (tree_at i c) ≡ free_labels c) }
{
    if memory_counts::is_of_root(names, i, root) {
        let h = event_holder::holder(numbers, i, u);
        event_move::move_label(numbers, names, i, h, out, from.at, from.id)
    } else {
        from
    }
}

// All trees of a root, oldest first.
pub fn move_all(
    numbers: &mut [u64],
    names: &mut [u8],
    root: &[u8],
    u: u64,
    out: &mut [u8],
    id: u32,
) -> Written
    requires { let c = card_of numbers.old names.old in Numbers numbers.old × Names names.old × (u ≤ nobody) × (u ≡ this_node → ⊥)
        × (need_all root.now u c ≤ free_labels c)
        × (size_all root.now u c ≤ length out.old) }
    ensures { Wrote (move_all root.now u (card_of numbers.old names.old)) id 0 out.old out.new (card_of numbers.new names.new) result.at result.id }
{
    let n = memory::tree_count(numbers);
    let mut last = Written { at: 0, id };
    for i in 0..n {
        last = move_one(numbers, names, i, root, u, out, last);
    }
    last
}
