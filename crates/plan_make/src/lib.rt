// The planner: a list of roots with new neighbours that leaves no route through a neighbour, or that there is none. It only reads the card.
#![tactic(auto)]

ghost use Rattle.std.specs.Prelude.{◌≡◌, true, ◌&&◌, List, ◌+◌, ◌*◌, ◌≤◌, ◌<◌, length, leb};
ghost use Rattle.meaning.specs.Octets.{pick, all, place};
ghost use Rattle.meaning.specs.Wire.{root_limit};
ghost use Rattle.meaning.specs.Card.{free_labels, route_limit, tree_limit};
ghost use Rattle.meaning.specs.Events.{need_all};
ghost use Rattle.meaning.specs.Calls.{over};
ghost use Rattle.memory.specs.Sizes.{Numbers, Names};
ghost use Rattle.memory.specs.Memory.{card_of};
ghost use Rattle.meaning_plan.specs.Plan.{Move, may_have, no_choice, choice, is_below, is_before, insert, need_list, proposal, is_found};
ghost use Rattle.meaning_plan.specs.PlanOctets.{allowed_in, entry_size, entry_of, entries_in, list_in, list_limit, planned_octets};
ghost use Rattle.plan_check.specs.Verdict.{numbered};
ghost use Rattle.plan_make.specs.Plan.{plan_of, list_made, entries_of, Readable};
ghost use Rattle.plan_make.specs.Rows.{is_after, Holds};

use meaning::{NEIGHBOUR_COUNT, ROOT_LIMIT, TREE_LIMIT};
use meaning_plan::{ENTRY_SIZE, LIST_LIMIT};
use memory::{NUMBER_COUNT, OCTET_COUNT};
use refusals::Refusal;

// ---- the choice of one root

// in the place of a choice: no neighbour
const NO_CHOICE: u64 = NEIGHBOUR_COUNT as u64;

// What the neighbour v needs for a root that is routed through n; more than any need where the root may not have it.
fn offer(numbers: &[u64], names: &[u8], n: u64, sets: &[u8], root: &[u8], v: u64) -> usize
    requires { Numbers numbers.now × Names names.now }
    ensures { let ps = allowed_in sets.now in (result ≡ pick (may_have n ps root.now v) (need_all root.now v (card_of numbers.now names.now)) (1 + tree_limit))
        × (may_have n ps root.now v ≡ true → result ≤ tree_limit) }
{
    if plan_check::may_have(n, sets, root, v) {
        event_roots::need_all(numbers, names, root, v)
    } else {
        1 + TREE_LIMIT
    }
}

// The permitted neighbour that needs fewest labels, ties to the lowest; NO_CHOICE where none is permitted. From the highest down, so
// that of equals the lower one stays.
fn choose(numbers: &[u64], names: &[u8], n: u64, sets: &[u8], root: &[u8]) -> u64
    requires { Numbers numbers.now × Names names.now }
    ensures { (result ≡ choice (card_of numbers.now names.now) n (allowed_in sets.now) root.now) × (result ≤ no_choice) }
{
    let mut best = NO_CHOICE;
    let mut least = TREE_LIMIT;
    for v in (0..NO_CHOICE).rev() {
        let need = offer(numbers, names, n, sets, root, v);
        if need <= least {
            best = v;
            least = need;
        }
    }
    best
}

// ---- the order of roots

// By the first octet that differs.
// Kept: octet by octet; with `<` of slices a plan of 32 roots took 1.5 times the instructions, of 16 octets each twice as many.
fn is_below(a: &[u8], b: &[u8]) -> bool
    requires { length a.now ≡ length b.now }
    ensures { result ≡ is_below a.now b.now }
{
    for i in 0..a.len() {
        if a[i] != b[i] {
            return a[i] < b[i];
        }
    }
    false
}

// The shorter first, each by rising address.
fn is_before(a: &[u8], b: &[u8]) -> bool
    ensures { result ≡ is_before a.now b.now }
{
    a.len() < b.len() || (a.len() == b.len() && is_below(a, b))
}

// ---- the rows of a list

// Among the first k rows, the place of the first whose root comes after this one; k where none does.
fn row_place(rows: &[u8], k: usize, root: &[u8]) -> usize
    requires { (length rows.now ≡ list_limit) × (k ≤ route_limit) }
    ensures { (result ≤ k) × (result ≡ place (is_after root.now) (entries_in k rows.now)) }
{
    for i in 0..k {
        if is_before(root, plan_check::root_at(rows, i * ENTRY_SIZE + 1)) {
            return i;
        }
    }
    k
}

fn put_row(row: &mut [u8], root: &[u8], via: u64)
    requires { (length row.old ≡ entry_size) × (via < 256) }
    ensures { row.new ≡ entry_of (record { root = root.entry.now; via = via }) }
{
    row[0] = via as u8;
    save_texts::put_space(&mut row[1..ENTRY_SIZE], ROOT_LIMIT, root);
}

// One entry more, at its place: the rows from there on move up.
fn insert_row(rows: &mut [u8], k: usize, root: &[u8], via: u64)
    requires { (length rows.old ≡ list_limit) × (k < route_limit) × (length root.now ≤ root_limit) × (via < 256) }
    ensures { (length rows.new ≡ list_limit)
        × ((ms : List Move) → Holds rows.old k ms → Holds rows.new (k + 1) (insert (record { root = root.entry.now; via = via }) ms)) }
{
    let at = row_place(rows, k, root) * ENTRY_SIZE;
    let e = at + ENTRY_SIZE;
    rows.copy_within(at..k * ENTRY_SIZE, e);
    put_row(&mut rows[at..e], root, via);
}

// ---- the proposal

// For each root routed through n its choice, in the list's order; how many they are.
fn propose(numbers: &[u64], names: &[u8], n: u64, sets: &[u8], rows: &mut [u8]) -> usize
    requires { Numbers numbers.now × Names names.now × (length rows.old ≡ list_limit) }
    ensures { (length rows.new ≡ list_limit) × (result ≤ route_limit)
        × Holds rows.new result (proposal (card_of numbers.now names.now) n (allowed_in sets.now)) }
{
    let mut k = 0;
    for i in (0..memory::route_count(numbers)).rev() {
        if memory_routes::route_via(numbers, i) == n {
            let root = memory_routes::root_name(names, i);
            insert_row(rows, k, root, choose(numbers, names, n, sets, root));
            k += 1;
        }
    }
    k
}

// Whether each entry has a neighbour.
fn all_found(list: &[u8]) -> bool
    ensures { result ≡ all is_found (list_in list.now) }
{
    for i in 0..list.len() / ENTRY_SIZE {
        if NO_CHOICE <= octets::at(list, i * ENTRY_SIZE) {
            return false;
        }
    }
    true
}

// ---- the call

// Whether what is proposed is a plan.
fn is_plan(numbers: &[u64], names: &[u8], list: &[u8]) -> bool
    requires { Numbers numbers.now × Names names.now }
    ensures { let c = card_of numbers.now names.now in result ≡ (all is_found (list_in list.now) && leb (need_list c (list_in list.now)) (free_labels c)) }
{
    all_found(list) && plan_check::labels_enough(numbers, names, list)
}

fn put_front(list: &mut [u8], made: &[u8])
    requires { length made.now ≤ length list.old }
    ensures { list.new ≡ over made.now list.old }
{
    list[..made.len()].copy_from_slice(made);
}

// A list for the neighbour n, at the front of `list`, and how many entries it has; None where there is none. The rest of `list`, and all
// of it where nothing is listed, keeps its octets.
pub fn plan(
    numbers: &[u64; NUMBER_COUNT],
    names: &[u8; OCTET_COUNT],
    n: u32,
    sets: &[u8],
    list: &mut [u8; LIST_LIMIT],
) -> Result<Option<usize>, Refusal>
    ensures fact { let p = planned_octets (card_of numbers.now names.now) n sets.now in
        (numbered result ≡ plan_of p) × (list.new ≡ over (list_made p) list.old) }
    ensures result_bound { (entries_of result ≤ route_limit) × Readable (planned_octets (card_of numbers.now names.now) n sets.now) }
{
    if 15 < n {
        return Err(Refusal::NoSuchNeighbour);
    }
    let mut rows = [0u8; LIST_LIMIT];
    let k = propose(numbers, names, n as u64, sets, &mut rows);
    let e = k * ENTRY_SIZE;
    if is_plan(numbers, names, &rows[0..e]) {
        put_front(list, &rows[0..e]);
        return Ok(Some(k));
    }
    Ok(None)
}
