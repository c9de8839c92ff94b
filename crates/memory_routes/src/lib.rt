// Routes in the card's memory: what is asked of them, and how they come and go.
#![tactic(auto)]

ghost use Rattle.std.specs.Prelude.{◌≡◌, List, [], ◌∷◌, ◌++◌, ℕ, ◌+◌, ◌*◌, ◌-◌, ◌≤◌, ◌<◌, length, set};
ghost use Rattle.meaning.specs.Octets.{put, cut};
ghost use Rattle.meaning.specs.Wire.{root_limit};
ghost use Rattle.meaning.specs.Card.{with_routes, with_counts, route_place, route_limit, route_of};
ghost use Rattle.memory.specs.Sizes.{Numbers, Names};
ghost use Rattle.memory.specs.Memory.{card_of, route_count, root_name, route_in, entry_in};

use meaning::ROOT_LIMIT;
use memory::{NO_ROUTE, ROOT_NAMES, ROOT_SPACE, ROUTE_COLUMN};

// ---- what is asked of them

pub fn root_name(names: &[u8], i: usize) -> &[u8]
    requires { Names names.now × (i < route_limit) }
    ensures { result.now ≡ root_name names.now i }
{
    memory::text(names, ROOT_LIMIT, ROOT_NAMES + i * ROOT_SPACE)
}

pub fn route_via(numbers: &[u64], i: usize) -> u64
    requires { Numbers numbers.now × (i < route_limit) }
    ensures { (os : List ℕ) → result ≡ (route_in numbers.now os i).via }
{
    numbers[ROUTE_COLUMN + i] % 256
}

// How many trees of its root stand, and how many of these are lone.
pub fn standing(numbers: &[u64], i: usize) -> u64
    requires { Numbers numbers.now × (i < route_limit) }
    ensures { ((os : List ℕ) → result ≡ (route_in numbers.now os i).standing) × (result < 256) }
{
    numbers[ROUTE_COLUMN + i] / 256 % 256
}

pub fn lone(numbers: &[u64], i: usize) -> u64
    requires { Numbers numbers.now × (i < route_limit) }
    ensures { ((os : List ℕ) → result ≡ (route_in numbers.now os i).lone) × (result < 256) }
{
    numbers[ROUTE_COLUMN + i] / 65536 % 256
}

// The part from the front to the end is lent on, and not the slice itself: compiled, a slice is two words that the caller has just
// written, and a copy of both at once would wait for them.
pub fn route_place(numbers: &[u64], names: &[u8], root: &[u8]) -> usize
    requires { Numbers numbers.now × Names names.now }
    ensures { (result ≡ route_place root.now (card_of numbers.now names.now)) × (result ≤ route_count numbers.now) × (result ≤ route_limit) }
{
    let n = memory::route_count(numbers);
    let e = root.len();
    memory::text_place(names, ROOT_LIMIT, ROOT_NAMES, n, &root[..e])
}

// The route of the root whose place is i: 0 to 15 a neighbour, 16 this node, 17 no route.
pub fn route_at(numbers: &[u64], i: usize) -> u64
    requires { Numbers numbers.now }
    ensures { (os root : List ℕ) → (let c = card_of numbers.now os in i ≡ route_place root c → result ≡ route_of root c) }
{
    if i < memory::route_count(numbers) {
        numbers[ROUTE_COLUMN + i] % 256
    } else {
        NO_ROUTE
    }
}

pub fn route_of(numbers: &[u64], names: &[u8], root: &[u8]) -> u64
    requires { Numbers numbers.now × Names names.now }
    ensures { result ≡ route_of root.now (card_of numbers.now names.now) }
{
    route_at(numbers, route_place(numbers, names, root))
}

// ---- what changes in one place

// The number that holds a route and its counts.
fn entry_number(via: u64, standing: u64, lone: u64) -> u64
    requires { (via < 256) × (standing < 256) × (lone < 256) }
    ensures { (o : List ℕ) → entry_in o result ≡ record { root = o; via = via; standing = standing; lone = lone } }
{
    via + 256 * standing + 65536 * lone
}

pub fn set_counts(numbers: &mut [u64], i: usize, standing: u64, lone: u64)
    requires { Numbers numbers.old × (i < route_count numbers.old) × (i < route_limit) × (standing < 256) × (lone < 256) }
    ensures { (os : List ℕ) → (let c = card_of numbers.old os in card_of numbers.new os
        ≡ with_routes (set c.routes i (with_counts standing lone (route_in numbers.old os i))) c) }
{
    let k = ROUTE_COLUMN + i;
    numbers[k] = entry_number(numbers[k] % 256, standing, lone);
}

// ---- routes that come and go

// A route comes, behind the others.
pub fn append_route(
    numbers: &mut [u64],
    names: &mut [u8],
    root: &[u8],
    via: u64,
    standing: u64,
    lone: u64,
)
    requires { Numbers numbers.old × Names names.old × (route_count numbers.old < route_limit) × (length root.now ≤ root_limit) × (via < 256) × (standing < 256) × (lone < 256) }
    ensures { let c = card_of numbers.old names.old in card_of numbers.new names.new
        ≡ with_routes (c.routes ++ (record { root = root.entry.now; via = via; standing = standing; lone = lone } ∷ [])) c }
{
    let n = memory::route_count(numbers);
    memory::set_text(names, ROOT_NAMES + n * ROOT_SPACE, root);
    numbers[ROUTE_COLUMN + n] = entry_number(via, standing, lone);
    numbers[2] = (n + 1) as u64;
}

// The route of the root whose place is i: its entry, or a new one behind the others.
pub fn enter_route(
    numbers: &mut [u64],
    names: &mut [u8],
    i: usize,
    root: &[u8],
    via: u64,
    standing: u64,
    lone: u64,
)
    requires { let c = card_of numbers.old names.old in Numbers numbers.old × Names names.old × (length root.now ≤ root_limit)
        × (i ≡ route_place root.now c)
        × (route_count numbers.old ≤ route_place root.now c → route_count numbers.old < route_limit)
        × (via < 256) × (standing < 256) × (lone < 256) }
    ensures { let c = card_of numbers.old names.old in card_of numbers.new names.new
        ≡ with_routes (put c.routes (route_place root.entry.now c) (record { root = root.entry.now; via = via; standing = standing; lone = lone })) c }
{
    let n = memory::route_count(numbers);
    if i < n {
        numbers[ROUTE_COLUMN + i] = entry_number(via, standing, lone);
        return;
    }
    append_route(numbers, names, root, via, standing, lone);
}

// A root's entry goes, and the gap is closed.
pub fn remove_route(numbers: &mut [u64], names: &mut [u8], i: usize)
    requires { Numbers numbers.old × Names names.old × (i < route_count numbers.old) × (i < route_limit) }
    ensures { let c = card_of numbers.old names.old in card_of numbers.new names.new
        ≡ with_routes (cut c.routes i) c }
{
    let n = memory::route_count(numbers);
    memory::close_numbers(numbers, ROUTE_COLUMN + i, ROUTE_COLUMN + n, 1);
    memory::close_octets(
        names,
        ROOT_NAMES + i * ROOT_SPACE,
        ROOT_NAMES + n * ROOT_SPACE,
        ROOT_SPACE,
    );
    numbers[2] = (n - 1) as u64;
}
