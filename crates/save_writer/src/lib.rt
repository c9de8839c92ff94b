// The save of the card that the memory denotes, in either form: the octets that docs/SAVE.md draws, written record by record.
// The writer has a core, which says what becomes of the whole output, and a call that hands back the part that holds the save.
#![tactic(auto)]

ghost use Rattle.std.specs.Prelude.{◌≡◌, List, ℕ, ◌+◌, ◌*◌, ◌≤◌, ◌<◌, length};
ghost use Rattle.meaning_save.specs.Save.{old, new, form_of, use_saved, routes_saved, trees_saved, uses_saved, saved, save, save_limit, tree_beside, use_beside, name_most};
ghost use Rattle.meaning_laws.specs.SaveFields.{name_size};
ghost use Rattle.meaning.specs.Calls.{over, Does, Hands};
ghost use Rattle.meaning.specs.Card.{label_count, tree_at, tree_limit};
ghost use Rattle.memory.specs.Sizes.{Numbers, Names};
ghost use Rattle.memory.specs.Memory.{card_of, base_in, tree_count, label_in, label_name};
ghost use Rattle.save_texts.specs.Laid.{laid};
ghost use Rattle.refusals.specs.Refusals.{answer_of, count_of};

use meaning::{LABEL_COUNT, ROUTE_SIZE, SPACED_NAME, TREE_BESIDE, USE_BESIDE};
use memory::{NUMBER_COUNT, OCTET_COUNT};
use refusals::Refusal;

// ---- how many octets a record takes

fn tree_size(names: &[u8], second: bool, i: usize) -> usize
    requires { Names names.now × (i < tree_limit) }
    ensures { ((ns : List ℕ) → i < tree_count ns → result ≡ tree_beside + name_size (form_of second) (tree_at i (card_of ns names.now)).name)
        × (result ≤ tree_beside + name_most new) }
{
    TREE_BESIDE + save_texts::name_size(memory_trees::tree_name(names, i), second)
}

// The label at place p of the block, which is not free.
fn use_size(names: &[u8], second: bool, p: usize) -> usize
    requires { Names names.now × (p < label_count) }
    ensures { (result ≡ use_beside + name_size (form_of second) (label_name names.now p)) × (result ≤ use_beside + name_most new) }
{
    USE_BESIDE + save_texts::name_size(memory_labels::label_name(names, p), second)
}

// ---- routes, trees and labels in use, one behind the other

// All routes from a place on; the place behind them.
fn put_routes(numbers: &[u64], names: &[u8], out: &mut [u8], from: usize) -> usize
    requires { Numbers numbers.now × Names names.now
        × (from + length (routes_saved (card_of numbers.now names.now).routes) ≤ length out.old) }
    ensures { let c = card_of numbers.now names.now in
        (out.new ≡ laid from (routes_saved c.routes) out.old)
        × (result ≡ from + length (routes_saved c.routes)) }
{
    let n = memory::route_count(numbers);
    let mut at = from;
    for i in 0..n {
        let e = at + ROUTE_SIZE;
        save_records::put_route_record(numbers, names, i, &mut out[at..e]);
        at = e;
    }
    at
}

// All trees from a place on; the place behind them.
fn put_trees(numbers: &[u64], names: &[u8], second: bool, out: &mut [u8], from: usize) -> usize
    requires { Numbers numbers.now × Names names.now
        × (from + length (trees_saved (form_of second) (card_of numbers.now names.now).trees) ≤ length out.old) }
    ensures { let c = card_of numbers.now names.now in
        (out.new ≡ laid from (trees_saved (form_of second) c.trees) out.old)
        × (result ≡ from + length (trees_saved (form_of second) c.trees)) }
{
    let n = memory::tree_count(numbers);
    let mut at = from;
    for i in 0..n {
        let e = at + tree_size(names, second, i);
        save_records::put_tree_record(numbers, names, second, i, &mut out[at..e]);
        at = e;
    }
    at
}

// The record of the label at place p of the block, and the place behind it: of a free label nothing is written.
fn put_label(
    numbers: &[u64],
    names: &[u8],
    second: bool,
    p: usize,
    out: &mut [u8],
    at: usize,
) -> usize
    requires { Numbers numbers.now × Names names.now × (p < label_count)
        × (at + length (use_saved (form_of second) (base_in numbers.now + p) (label_in numbers.now names.now p)) ≤ length out.old) }
    ensures { (out.new ≡ laid at (use_saved (form_of second) (base_in numbers.now + p) (label_in numbers.now names.now p)) out.old)
        × (result ≡ at + length (use_saved (form_of second) (base_in numbers.now + p) (label_in numbers.now names.now p))) }
{
    if memory_labels::is_free(numbers, p) {
        return at;
    }
    let e = at + use_size(names, second, p);
    save_records::put_use_record(numbers, names, second, p, &mut out[at..e]);
    e
}

// All labels in use from a place on; the place behind them.
fn put_labels(numbers: &[u64], names: &[u8], second: bool, out: &mut [u8], from: usize) -> usize
    requires { Numbers numbers.now × Names names.now
        × (from + length (uses_saved (form_of second) (base_in numbers.now) (card_of numbers.now names.now).labels) ≤ length out.old) }
    ensures { let c = card_of numbers.now names.now in
        (out.new ≡ laid from (uses_saved (form_of second) (base_in numbers.now) c.labels) out.old)
        × (result ≡ from + length (uses_saved (form_of second) (base_in numbers.now) c.labels)) }
{
    let mut at = from;
    for p in 0..LABEL_COUNT {
        at = put_label(numbers, names, second, p, out, at);
    }
    at
}

// ---- the save

fn trees_size(numbers: &[u64], names: &[u8], second: bool) -> usize
    requires { Numbers numbers.now × Names names.now }
    ensures { (result ≡ length (trees_saved (form_of second) (card_of numbers.now names.now).trees)) × (result ≤ tree_limit * (tree_beside + name_most new)) }
{
    let n = memory::tree_count(numbers);
    if !second {
        return n * (TREE_BESIDE + SPACED_NAME);
    }
    let mut total = 0;
    for i in 0..n {
        total += tree_size(names, second, i);
    }
    total
}

// Of a free label nothing is written.
fn label_size(numbers: &[u64], names: &[u8], second: bool, p: usize) -> usize
    requires { Numbers numbers.now × Names names.now × (p < label_count) }
    ensures { (result ≡ length (use_saved (form_of second) (base_in numbers.now + p) (label_in numbers.now names.now p))) × (result ≤ use_beside + name_most new) }
{
    if memory_labels::is_free(numbers, p) {
        return 0;
    }
    use_size(names, second, p)
}

// In the old form all records of labels have one size.
fn spaced_labels_size(numbers: &[u64]) -> usize
    requires { Numbers numbers.now }
    ensures { ((os : List ℕ) → result ≡ length (uses_saved old (base_in numbers.now) (card_of numbers.now os).labels)) × (result ≤ label_count * (use_beside + name_most old)) }
{
    (LABEL_COUNT - memory_free::free_labels(numbers)) * (USE_BESIDE + SPACED_NAME)
}

fn labels_size(numbers: &[u64], names: &[u8], second: bool) -> usize
    requires { Numbers numbers.now × Names names.now }
    ensures { (result ≡ length (uses_saved (form_of second) (base_in numbers.now) (card_of numbers.now names.now).labels)) × (result ≤ label_count * (use_beside + name_most new)) }
{
    if !second {
        return spaced_labels_size(numbers);
    }
    let mut total = 0;
    for p in 0..LABEL_COUNT {
        total += label_size(numbers, names, second, p);
    }
    total
}

// How many octets the save has.
pub fn saved_size(numbers: &[u64], names: &[u8], second: bool) -> usize
    requires { Numbers numbers.now × Names names.now }
    ensures { (result ≡ length (saved (form_of second) (card_of numbers.now names.now))) × (result ≤ save_limit new) }
{
    let routes = memory::route_count(numbers);
    let trees = trees_size(numbers, names, second);
    let uses = labels_size(numbers, names, second);
    save_forms::head_size(second) + routes * ROUTE_SIZE + trees + uses
}

// The save at the front of the output, the rest of which stays; how many octets it has.
pub fn write_save(numbers: &[u64], names: &[u8], second: bool, out: &mut [u8]) -> usize
    requires { Numbers numbers.now × Names names.now × (length (saved (form_of second) (card_of numbers.now names.now)) ≤ length out.old) }
    ensures { let c = card_of numbers.now names.now in
        (out.new ≡ over (saved (form_of second) c) out.old) × (result ≡ length (saved (form_of second) c)) }
{
    let h = save_forms::head_size(second);
    save_records::put_save_head(numbers, second, &mut out[0..h]);
    let a = put_routes(numbers, names, out, h);
    let b = put_trees(numbers, names, second, out, a);
    put_labels(numbers, names, second, out, b)
}

// ---- the call: `second` says that the save is of the new form

// The save at the front of the output, and how many octets it has. Where it is refused the output stays.
// It is put into its callers, and `save_core` into none: so compiled, the Result between them takes no stack.
#[inline(always)]
pub fn save_into(
    numbers: &[u64],
    names: &[u8],
    second: bool,
    out: &mut [u8],
) -> Result<usize, Refusal>
    requires { Numbers numbers.now × Names names.now }
    ensures { let c = card_of numbers.now names.now in
        Does (save (form_of second) (length out.old) c) (answer_of result) (count_of result) out.old out.new c }
{
    if !save_spaces::fits_save(numbers, names, second) {
        return Err(Refusal::BadSave);
    }
    if out.len() < saved_size(numbers, names, second) {
        return Err(Refusal::NoRoom);
    }
    Ok(write_save(numbers, names, second, out))
}

#[inline(never)]
pub fn save_core(
    numbers: &[u64; NUMBER_COUNT],
    names: &[u8; OCTET_COUNT],
    second: bool,
    out: &mut [u8],
    answer: &mut u32,
) -> usize
    ensures { let c = card_of numbers.now names.now in
        Does (save (form_of second) (length out.old) c) answer.new result out.old out.new c }
{
    refusals::tell(save_into(numbers, names, second, out), answer)
}

pub fn save<'a>(
    numbers: &[u64; NUMBER_COUNT],
    names: &[u8; OCTET_COUNT],
    second: bool,
    out: &'a mut [u8],
    answer: &mut u32,
) -> &'a mut [u8]
    ensures { let c = card_of numbers.now names.now in
        Hands (save (form_of second) (length out.old) c) answer.new result.now c × (result.ref_ptr ≡ out.entry.ref_ptr) }
{
    let n = save_core(numbers, names, second, &mut *out, answer);
    &mut out[..n]
}
