// The records of a save, each written to a place of its own size: docs/SAVE.md draws them.
#![tactic(auto)]

ghost use Rattle.std.specs.Prelude.{◌≡◌, false, List, ◌∷◌, ◌++◌, ℕ, ◌+◌, ◌*◌, ◌<◌, length};
ghost use Rattle.meaning.specs.Octets.{pick, four};
ghost use Rattle.meaning.specs.Card.{tree_at, label_count, neighbour_count, route_limit};
ghost use Rattle.meaning_save.specs.Save.{form_of, name_saved, marked, tree_kind, use_kind, head_saved, route_saved, fours_of, tree_saved, use_saved, head_size, route_size, tree_beside, use_beside};
ghost use Rattle.meaning_laws.specs.SaveFields.{name_size};
ghost use Rattle.memory.specs.Sizes.{Numbers, Names};
ghost use Rattle.memory.specs.Memory.{card_of, base_in, route_in, is_free_at, label_in, label_name, StandsAt};

use meaning::{LABEL_COUNT, NEIGHBOUR_COUNT, ROOT_LIMIT, ROUTE_SIZE, USE_BESIDE};
use memory::NOBODY;

// ---- the head

// The last label given; 0 for none.
fn last_given(numbers: &[u64]) -> u64
    requires { Numbers numbers.now }
    ensures { (os : List ℕ) → result ≡ (card_of numbers.now os).last }
{
    let v = memory::turn(numbers);
    if v == 0 {
        return 0;
    }
    memory::base(numbers) + v as u64 - 1
}

// The head of the old form is what the new one has before the last label given.
pub fn put_save_head(numbers: &[u64], second: bool, out: &mut [u8])
    requires { Numbers numbers.now × (length out.old ≡ head_size (form_of second)) }
    ensures { (os : List ℕ) → out.new ≡ head_saved (form_of second) (card_of numbers.now os) }
{
    let base = memory::base(numbers);
    let next = memory::next_id(numbers);
    let last = last_given(numbers);
    let uses = LABEL_COUNT - memory_free::free_labels(numbers);
    let kind = save_forms::head_kind(second);
    let [.., b3, b2, b1, b0] = base.to_be_bytes();
    let [n3, n2, n1, n0] = next.to_be_bytes();
    let routes = memory::route_count(numbers) as u8;
    let trees = memory::tree_count(numbers) as u8;
    let [.., u1, u0] = uses.to_be_bytes();
    let [.., l3, l2, l1, l0] = last.to_be_bytes();
    let head = [
        0x4c, 0x53, kind, b3, b2, b1, b0, n3, n2, n1, n0, routes, trees, u1, u0, l3, l2, l1, l0,
    ];
    let n = save_forms::head_size(second);
    octets::copy(out, &head[0..n]);
}

// ---- a route

pub fn put_route_record(numbers: &[u64], names: &[u8], i: usize, out: &mut [u8])
    requires { Numbers numbers.now × Names names.now × (i < route_limit) × (length out.old ≡ route_size) }
    ensures { out.new ≡ route_saved (route_in numbers.now names.now i) }
{
    let head = [
        0x4c,
        0x53,
        2,
        (memory_routes::route_via(numbers, i) % 256) as u8,
    ];
    octets::copy(&mut out[0..4], &head);
    save_texts::put_space(
        &mut out[4..ROUTE_SIZE],
        ROOT_LIMIT,
        memory_routes::root_name(names, i),
    );
}

// ---- a tree

// A number in four octets.
fn put_four(out: &mut [u8], n: u64)
    requires { length out.old ≡ 4 }
    ensures { out.new ≡ four n }
{
    let [.., n3, n2, n1, n0] = n.to_be_bytes();
    octets::copy(out, &[n3, n2, n1, n0]);
}

// The sixteen branch labels of the tree at place i.
fn put_fours(numbers: &[u64], i: usize, out: &mut [u8])
    requires { Numbers numbers.now × (length out.old ≡ 4 * neighbour_count) × StandsAt numbers.now i }
    ensures { (os : List ℕ) → out.new ≡ fours_of (tree_at i (card_of numbers.now os)).branches }
{
    for k in 0..NEIGHBOUR_COUNT {
        let a = k * 4;
        let e = a + 4;
        put_four(&mut out[a..e], memory_trees::branch(numbers, i, k));
    }
}

fn leaf_octet(numbers: &[u64], i: usize) -> u8
    requires { Numbers numbers.now × StandsAt numbers.now i }
    ensures { (os : List ℕ) → result ≡ pick (tree_at i (card_of numbers.now os)).leaf 1 0 }
{
    u8::from(memory_trees::is_leaf(numbers, i))
}

// The mark, the kind and the name.
fn put_tree_name(out: &mut [u8], name: &[u8], second: bool)
    requires { length out.old ≡ 3 + name_size (form_of second) name.now }
    ensures { out.new ≡ marked (tree_kind (form_of second)) (name_saved (form_of second) name.now) }
{
    let e = out.len();
    let head = [0x4c, 0x53, save_forms::tree_kind(second)];
    octets::copy(&mut out[0..3], &head);
    save_texts::put_name(&mut out[3..e], name, second);
}

// What stands behind the name: the leaf mark and the branches.
fn put_tree_rest(numbers: &[u64], i: usize, out: &mut [u8])
    requires { Numbers numbers.now × (length out.old ≡ 1 + 4 * neighbour_count) × StandsAt numbers.now i }
    ensures { (os : List ℕ) → (let t = tree_at i (card_of numbers.now os) in out.new ≡ pick t.leaf 1 0 ∷ fours_of t.branches) }
{
    let leaf = [leaf_octet(numbers, i)];
    octets::copy(&mut out[0..1], &leaf);
    let e = 1 + 4 * NEIGHBOUR_COUNT;
    put_fours(numbers, i, &mut out[1..e]);
}

pub fn put_tree_record(numbers: &[u64], names: &[u8], second: bool, i: usize, out: &mut [u8])
    requires { Numbers numbers.now × Names names.now × (length out.old ≡ tree_beside + name_size (form_of second) (tree_at i (card_of numbers.now names.now)).name) × StandsAt numbers.now i }
    ensures { out.new ≡ tree_saved (form_of second) (tree_at i (card_of numbers.now names.now)) }
{
    let name = memory_trees::tree_name(names, i);
    let a = 3 + save_texts::name_size(name, second);
    let e = out.len();
    put_tree_name(&mut out[0..a], name, second);
    put_tree_rest(numbers, i, &mut out[a..e]);
}

// ---- a label in use

// A label in state 1, mapped to the neighbour, or 2, awaiting release from it.
fn put_state(out: &mut [u8], second: bool, label: u64, state: u8, neighbour: u64, name: &[u8])
    requires { (length out.old ≡ use_beside + name_size (form_of second) name.now) × (neighbour < 256) }
    ensures { out.new ≡ marked (use_kind (form_of second)) (four label ++ (state ∷ neighbour ∷ name_saved (form_of second) name.now)) }
{
    let [.., l3, l2, l1, l0] = label.to_be_bytes();
    let kind = save_forms::use_kind(second);
    let head = [0x4c, 0x53, kind, l3, l2, l1, l0, state, neighbour as u8];
    let e = out.len();
    octets::copy(&mut out[0..USE_BESIDE], &head);
    save_texts::put_name(&mut out[USE_BESIDE..e], name, second);
}

// The label at place p of the block, which is not free.
pub fn put_use_record(numbers: &[u64], names: &[u8], second: bool, p: usize, out: &mut [u8])
    requires { Numbers numbers.now × Names names.now × (p < label_count) × (is_free_at numbers.now p ≡ false)
        × (length out.old ≡ use_beside + name_size (form_of second) (label_name names.now p)) }
    ensures { out.new ≡ use_saved (form_of second) (base_in numbers.now + p) (label_in numbers.now names.now p) }
{
    let label = memory::base(numbers) + p as u64;
    let name = memory_labels::label_name(names, p);
    let n = memory_labels::mapped_at(numbers, p);
    if n == NOBODY {
        let awaited = memory_labels::awaited_at(numbers, p);
        put_state(out, second, label, 2, awaited, name);
    } else {
        put_state(out, second, label, 1, n, name);
    }
}
