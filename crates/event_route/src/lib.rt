// The route order: all its refusals are tested before the first label moves or the first octet is written.
#![tactic(auto)]

ghost use Rattle.std.specs.Prelude.{◌≡◌, List, ℕ, ◌+◌, ◌≤◌, ◌<◌, length, ◌&&◌, eqb, leb, ltb};
ghost use Rattle.meaning.specs.Octets.{◌when◌else◌};
ghost use Rattle.meaning.specs.Wire.{root_limit};
ghost use Rattle.meaning.specs.Card.{no_route, route_of, route_place, free_labels, with_routes, route_limit, neighbour_count, this_node, nobody};
ghost use Rattle.meaning.specs.Events.{finish, entry_of, routes_full, need_all, upstream};
ghost use Rattle.meaning.specs.Calls.{Does};
ghost use Rattle.memory.specs.Sizes.{Numbers, Names};
ghost use Rattle.memory.specs.Memory.{card_of};
ghost use Rattle.event_holder.specs.Move.{size_all};
ghost use Rattle.event_tree.specs.End.{Ended};
ghost use Rattle.event_route.specs.Order.{labels_few, routes_to, moved_to, route_order};
ghost use Rattle.refusals.specs.Refusals.{answer_of, count_of};

use meaning::ROUTE_LIMIT;
use memory::{NEIGHBOURS, NO_ROUTE};
use memory_counts::Counts;
use refusals::Refusal;

// 15, for a root whose route was `old` and is to be another.
fn routes_full(numbers: &[u64], old: u64) -> bool
    requires { Numbers numbers.now }
    ensures { (os : List ℕ) → result ≡ (eqb old no_route && leb route_limit (length (card_of numbers.now os).routes)) }
{
    old == NO_ROUTE && ROUTE_LIMIT <= memory::route_count(numbers)
}

// The counts of the root's entry, whose place is k; for a new one they are worked out.
fn entry_counts(numbers: &[u64], names: &[u8], k: usize, root: &[u8]) -> Counts
    requires { Numbers numbers.now × Names names.now × (k ≡ route_place root.now (card_of numbers.now names.now)) }
    ensures { let e = entry_of root.now (card_of numbers.now names.now) in (result.standing ≡ e.standing) × (result.lone ≡ e.lone)
        × (result.standing < 256) × (result.lone < 256) }
{
    if k < memory::route_count(numbers) {
        let standing = memory_routes::standing(numbers, k);
        let lone = memory_routes::lone(numbers, k);
        return Counts { standing, lone };
    }
    memory_counts::work_out(numbers, names, root)
}

// 12 at once, without a walk: the trees that are not lone are more than the free labels, and each needs one whatever neighbour is the upstream.
fn surely_short(numbers: &[u64], via: u64, counts: Counts) -> bool
    requires { Numbers numbers.now }
    ensures { (os : List ℕ) → result ≡ (ltb via neighbour_count && ltb (free_labels (card_of numbers.now os) + counts.lone) counts.standing) }
{
    if NEIGHBOURS <= via {
        return false;
    }
    if counts.standing <= counts.lone {
        return false;
    }
    memory_free::labels_short(numbers, (counts.standing - counts.lone) as usize)
}

// 15, 12 and 16 for a route that is another than the old one. Behind the counts the labels are asked once more, so that no order runs out
// of them, whatever the counts are.
fn check_route(
    numbers: &[u64],
    names: &[u8],
    root: &[u8],
    old: u64,
    via: u64,
    u: u64,
    counts: Counts,
    room: usize,
) -> Result<(), Refusal>
    requires { let c = card_of numbers.now names.now in Numbers numbers.now × Names names.now × (u ≡ upstream via) × (route_of root.now c ≡ via → ⊥)
        × (counts.standing ≡ (entry_of root.now c).standing) × (counts.lone ≡ (entry_of root.now c).lone) × (old ≡ route_of root.now c) }
    ensures { let c = card_of numbers.now names.now in answer_of result ≡ 15 when routes_full c root.now via else 12 when labels_few c root.now via
        else 16 when ltb room (size_all root.now (upstream via) c) else 0 }
{
    if routes_full(numbers, old) {
        return Err(Refusal::RootsFull);
    }
    if surely_short(numbers, via, counts) {
        return Err(Refusal::LabelsShort);
    }
    event_roots::check_moves(numbers, names, root, u, room)
}

// The root's entry, whose place is i: anew, or gone where there is no route.
fn set_route(numbers: &mut [u64], names: &mut [u8], i: usize, root: &[u8], via: u64, counts: Counts)
    requires { let c = card_of numbers.old names.old in Numbers numbers.old × Names names.old × (length root.now ≤ root_limit)
        × (route_place root.now c ≡ length c.routes → (via ≡ no_route → ⊥) × (length c.routes < route_limit))
        × (via ≤ no_route) × (counts.standing < 256) × (counts.lone < 256) × (i ≡ route_place root.now c) × (i ≤ length c.routes) }
    ensures { let c = card_of numbers.old names.old in (card_of numbers.new names.new)
        ≡ with_routes (routes_to c (record { root = root.entry.now; via = via; standing = counts.standing; lone = counts.lone })) c }
{
    if via == NO_ROUTE {
        memory_routes::remove_route(numbers, names, i);
    } else {
        memory_routes::enter_route(numbers, names, i, root, via, counts.standing, counts.lone);
    }
}

fn re_route(
    numbers: &mut [u64],
    names: &mut [u8],
    i: usize,
    root: &[u8],
    via: u64,
    u: u64,
    counts: Counts,
    out: &mut [u8],
) -> usize
    requires { let c = card_of numbers.old names.old in Numbers numbers.old × Names names.old × (length root.now ≤ root_limit) × (u ≡ upstream via) × (u ≤ nobody) × (u ≡ this_node → ⊥)
        × (route_place root.now c ≡ length c.routes → (via ≡ no_route → ⊥) × (length c.routes < route_limit))
        × (need_all root.now u c ≤ free_labels c) × (size_all root.now u c ≤ length out.old)
        × (via ≤ no_route) × (counts.standing ≡ (entry_of root.now c).standing) × (counts.lone ≡ (entry_of root.now c).lone) × (counts.standing < 256) × (counts.lone < 256) × (i ≡ route_place root.now c) × (i ≤ length c.routes) }
    ensures { let c = card_of numbers.old names.old in Ended (moved_to c root.now via) c.next 0 out.old out.new (card_of numbers.new names.new) result }
{
    let w = event_roots::move_all(numbers, names, root, u, out, memory::next_id(numbers));
    set_route(numbers, names, i, root, via, counts);
    memory::set_next_id(numbers, w.id);
    w.at
}

// The route of a root of 4 or 16 octets becomes another, or stays.
pub fn change_route(
    numbers: &mut [u64],
    names: &mut [u8],
    root: &[u8],
    via: u64,
    out: &mut [u8],
) -> Result<usize, Refusal>
    requires { Numbers numbers.old × Names names.old × (length root.now ≤ root_limit) × (via ≤ no_route) }
    ensures { let c = card_of numbers.old names.old in Does (finish (length out.old) c (route_order c root.now via))
        (answer_of result) (count_of result) out.old out.new (card_of numbers.new names.new) }
{
    let i = memory_routes::route_place(numbers, names, root);
    let old = memory_routes::route_at(numbers, i);
    if old == via {
        return Ok(0);
    }
    let u = event_holder::upstream_via(via);
    let counts = entry_counts(numbers, names, i, root);
    check_route(numbers, names, root, old, via, u, counts, out.len())?;
    Ok(re_route(numbers, names, i, root, via, u, counts, out))
}
