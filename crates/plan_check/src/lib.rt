// The checker of a plan: whether a list of roots with new neighbours may be carried out, whoever made it. It only reads.
#![tactic(auto)]

ghost use Rattle.std.specs.Prelude.{◌≡◌, ◌&&◌, ◌+◌, ◌≤◌, ◌<◌, length, drop, leb};
ghost use Rattle.meaning.specs.Octets.{pick, count, all};
ghost use Rattle.meaning.specs.Wire.{root_limit};
ghost use Rattle.meaning.specs.Card.{free_labels, route_limit, tree_limit};
ghost use Rattle.meaning.specs.Events.{need_all};
ghost use Rattle.memory.specs.Sizes.{Numbers, Names};
ghost use Rattle.memory.specs.Memory.{card_of, route_in};
ghost use Rattle.meaning_plan.specs.Plan.{move_for, set_of, need_list, may_have, is_move, listed_once, accepts};
ghost use Rattle.meaning_plan.specs.PlanOctets.{space_root, allowed_in, entry_size, entry_in, is_list, list_in, checked_octets};
ghost use Rattle.plan_check.specs.Verdict.{numbered, verdict_of};

use meaning::ROOT_LIMIT;
use meaning_plan::{ENTRY_SIZE, SET_SIZE};
use memory::{NUMBER_COUNT, OCTET_COUNT};
use refusals::Refusal;

// ---- a root in its space

// None where the length before it is more than the space holds.
pub fn root_at(octets: &[u8], at: usize) -> &[u8]
    ensures { (result.now ≡ space_root (drop at octets.now)) × (length result.now ≤ root_limit) }
{
    if ROOT_LIMIT < octets::at(octets, at) as usize {
        return &octets[0..0];
    }
    save_fields::spaced(octets, at, ROOT_LIMIT)
}

// ---- the permitted sets

// The set of the first record for a root; the empty one where there is none.
fn set_of(sets: &[u8], root: &[u8]) -> u64
    ensures { result ≡ set_of (allowed_in sets.now) root.now }
{
    for i in 0..sets.len() / SET_SIZE {
        let at = i * SET_SIZE;
        if octets::equal(root_at(sets, at + 2), root) {
            return octets::two_at(sets, at);
        }
    }
    0
}

// Whether a root that is routed through n may have the neighbour v.
#[tactic(auto, unfolding(meaning_plan::specs::Plan::may_have, meaning_plan::specs::Plan::permits))]
pub fn may_have(n: u64, sets: &[u8], root: &[u8], v: u64) -> bool
    ensures { result ≡ may_have n (allowed_in sets.now) root.now v }
{
    v <= 15 && v != n && (set_of(sets, root) >> v) % 2 == 1
}

// ---- the entries of a list: the neighbour, and the root in its space

// Whether the entry at a place is one of a root routed through n, with a neighbour that it may have.
fn is_move(numbers: &[u64], names: &[u8], n: u64, sets: &[u8], list: &[u8], at: usize) -> bool
    requires { Numbers numbers.now × Names names.now × (at + entry_size ≤ length list.now) }
    ensures { result ≡ is_move (card_of numbers.now names.now) n (allowed_in sets.now) (entry_in (drop at list.now)) }
{
    let root = root_at(list, at + 1);
    memory_routes::route_of(numbers, names, root) == n
        && may_have(n, sets, root, octets::at(list, at))
}

fn all_moves(numbers: &[u64], names: &[u8], n: u64, sets: &[u8], list: &[u8]) -> bool
    requires { Numbers numbers.now × Names names.now }
    ensures { result ≡ all (is_move (card_of numbers.now names.now) n (allowed_in sets.now)) (list_in list.now) }
{
    for i in 0..list.len() / ENTRY_SIZE {
        if !is_move(numbers, names, n, sets, list, i * ENTRY_SIZE) {
            return false;
        }
    }
    true
}

// 1 where the entry at a place is that of a root.
fn listing(list: &[u8], at: usize, root: &[u8]) -> usize
    requires { at + entry_size ≤ length list.now }
    ensures { (result ≡ pick (move_for root.now (entry_in (drop at list.now))) 1 0) × (result ≤ 1) }
{
    usize::from(octets::equal(root_at(list, at + 1), root))
}

// How often a root is listed.
fn listings(list: &[u8], root: &[u8]) -> usize
    ensures { result ≡ count (move_for root.now) (list_in list.now) }
{
    let mut sum = 0;
    for i in 0..list.len() / ENTRY_SIZE {
        sum += listing(list, i * ENTRY_SIZE, root);
    }
    sum
}

// Whether the root of the route at place i, where that is through n, is listed once.
fn is_listed(numbers: &[u64], names: &[u8], n: u64, list: &[u8], i: usize) -> bool
    requires { Numbers numbers.now × Names names.now × (i < route_limit) }
    ensures { result ≡ listed_once n (list_in list.now) (route_in numbers.now names.now i) }
{
    memory_routes::route_via(numbers, i) != n
        || listings(list, memory_routes::root_name(names, i)) == 1
}

fn all_listed(numbers: &[u64], names: &[u8], n: u64, list: &[u8]) -> bool
    requires { Numbers numbers.now × Names names.now }
    ensures { result ≡ all (listed_once n (list_in list.now)) (card_of numbers.now names.now).routes }
{
    for i in 0..memory::route_count(numbers) {
        if !is_listed(numbers, names, n, list, i) {
            return false;
        }
    }
    true
}

// How many free labels the entry at a place takes.
fn entry_need(numbers: &[u64], names: &[u8], list: &[u8], at: usize) -> usize
    requires { Numbers numbers.now × Names names.now × (at + entry_size ≤ length list.now) }
    ensures { let m = entry_in (drop at list.now) in (result ≡ need_all m.root m.via (card_of numbers.now names.now)) × (result ≤ tree_limit) }
{
    let root = root_at(list, at + 1);
    event_roots::need_all(numbers, names, root, octets::at(list, at))
}

// Whether the labels that a list takes are no more than are free. A sum that is above is not added to.
pub fn labels_enough(numbers: &[u64], names: &[u8], list: &[u8]) -> bool
    requires { Numbers numbers.now × Names names.now }
    ensures { let c = card_of numbers.now names.now in result ≡ leb (need_list c (list_in list.now)) (free_labels c) }
{
    let free = memory_free::free_labels(numbers);
    let mut sum = 0;
    for i in 0..list.len() / ENTRY_SIZE {
        sum += entry_need(numbers, names, list, i * ENTRY_SIZE);
        if free < sum {
            return false;
        }
    }
    true
}

// ---- the call

#[tactic(auto, unfolding(meaning_plan::specs::Plan::accepts, meaning_plan::specs::PlanOctets::is_list))]
fn is_accepted(numbers: &[u64], names: &[u8], n: u64, sets: &[u8], list: &[u8]) -> bool
    requires { Numbers numbers.now × Names names.now }
    ensures { result ≡ (is_list list.now && accepts (card_of numbers.now names.now) n (allowed_in sets.now) (list_in list.now)) }
{
    list.len() % ENTRY_SIZE == 0
        && all_moves(numbers, names, n, sets, list)
        && all_listed(numbers, names, n, list)
        && labels_enough(numbers, names, list)
}

// Whether the list is accepted: it may be carried out so that no route through the neighbour n is left.
pub fn check_list(
    numbers: &[u64; NUMBER_COUNT],
    names: &[u8; OCTET_COUNT],
    n: u32,
    sets: &[u8],
    list: &[u8],
) -> Result<bool, Refusal>
    ensures { numbered result ≡ verdict_of (checked_octets (card_of numbers.now names.now) n sets.now list.now) }
{
    if 15 < n {
        return Err(Refusal::NoSuchNeighbour);
    }
    Ok(is_accepted(numbers, names, n as u64, sets, list))
}
