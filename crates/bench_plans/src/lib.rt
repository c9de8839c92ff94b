// The orders on plans: the planner or the checker is asked, and the line that tells of it is written to the front of a lent text.
#![tactic(auto)]

ghost use Rattle.std.specs.Prelude.{◌≡◌, ℕ, ◌+◌, ◌≤◌, length, take, drop};
ghost use Rattle.memory.specs.Memory.{card_of};
ghost use Rattle.meaning_plan.specs.PlanOctets.{entry_size, entry_in, list_in, list_limit, checked_octets, planned_octets};
ghost use Rattle.bench_words.specs.Words.{octets_of, hex_limit};
ghost use Rattle.bench_verbs.specs.Line.{Said};
ghost use Rattle.bench_orders.specs.Tells.{meant, InLine};
ghost use Rattle.bench_lines.specs.Text.{Adds, text_space};
ghost use Rattle.bench_replies.specs.Kinds.{Kind, kind_of};
ghost use Rattle.bench_replies.specs.Reply.{reply_to, Says};
ghost use Rattle.bench_replies.specs.PlanText.{said_line, move_text, move_space, moves_text, moves_space, moves_line, plan_line, verdict_line};

use bench_orders::Order;
use meaning_plan::{ENTRY_SIZE, LIST_LIMIT};
use memory::{NUMBER_COUNT, OCTET_COUNT};

// ---- the entries of a list

// ` ROOT:NEIGHBOUR`, of the entry at a place.
fn add_move(text: &mut [u8], at: usize, list: &[u8], place: usize) -> usize
    requires { (at + move_space ≤ length text.old) × (place + entry_size ≤ length list.now) }
    ensures adds { Adds (move_text (entry_in (drop place list.now))) text.old text.new at result }
    ensures upper_bound { result ≤ at + move_space }
{
    let root = plan_check::root_at(list, place + 1);
    let at = bench_lines::add(text, at, b" ");
    let at = bench_lines::add_hex(text, at, root);
    let at = bench_lines::add(text, at, b":");
    bench_lines::add_number(text, at, octets::at(list, place))
}

fn add_moves(text: &mut [u8], from: usize, list: &[u8]) -> usize
    requires { (length list.now ≤ list_limit) × (from + moves_space ≤ length text.old) }
    ensures adds { Adds (moves_text (list_in list.now)) text.old text.new from result }
    ensures upper_bound { result ≤ from + moves_space }
{
    let mut at = from;
    for i in 0..list.len() / ENTRY_SIZE {
        at = add_move(text, at, list, i * ENTRY_SIZE);
    }
    at
}

// ---- lines

// `WORD SAID`
fn put_said(text: &mut [u8], word: &[u8], said: &[u8]) -> usize
    requires { (length word.now ≤ 8) × (length said.now ≤ 8) × (text_space ≤ length text.old) }
    ensures text_after { take result text.new ≡ said_line word.now said.now }
    ensures upper_bound { result ≤ text_space }
{
    let at = bench_lines::add(text, 0, word);
    let at = bench_lines::add(text, at, b" ");
    let at = bench_lines::add(text, at, said);
    bench_lines::add(text, at, b"\n")
}

// `plan 0`, and each entry.
fn put_moves(text: &mut [u8], list: &[u8]) -> usize
    requires { (length list.now ≤ list_limit) × (text_space ≤ length text.old) }
    ensures text_after { take result text.new ≡ moves_line (list_in list.now) }
    ensures upper_bound { result ≤ text_space }
{
    let at = bench_lines::add(text, 0, b"plan 0");
    let at = add_moves(text, at, list);
    bench_lines::add(text, at, b"\n")
}

// What the planner says.
fn put_plan(
    numbers: &[u64; NUMBER_COUNT],
    names: &[u8; OCTET_COUNT],
    n: u32,
    sets: &[u8],
    text: &mut [u8],
) -> usize
    requires { text_space ≤ length text.old }
    ensures text_after { take result text.new ≡ plan_line (planned_octets (card_of numbers.now names.now) n sets.now) }
    ensures upper_bound { result ≤ text_space }
{
    let mut list = [0u8; LIST_LIMIT];
    match plan_make::plan(numbers, names, n, sets, &mut list) {
        Ok(Some(k)) => {
            let e = k * ENTRY_SIZE;
            put_moves(text, &list[0..e])
        }
        Ok(None) => put_said(text, b"plan", b"none"),
        Err(refusal) => bench_lines::put_count(text, b"plan", u64::from(refusal.number())),
    }
}

// What the checker says.
fn put_verdict(
    numbers: &[u64; NUMBER_COUNT],
    names: &[u8; OCTET_COUNT],
    n: u32,
    sets: &[u8],
    list: &[u8],
    text: &mut [u8],
) -> usize
    requires { text_space ≤ length text.old }
    ensures text_after { take result text.new ≡ verdict_line (checked_octets (card_of numbers.now names.now) n sets.now list.now) }
    ensures upper_bound { result ≤ text_space }
{
    match plan_check::check_list(numbers, names, n, sets, list) {
        Ok(true) => bench_lines::put_count(text, b"vet", 0),
        Ok(false) => put_said(text, b"vet", b"rejected"),
        Err(refusal) => bench_lines::put_count(text, b"vet", u64::from(refusal.number())),
    }
}

// ---- the orders

// A list that empties the line to a neighbour.
fn on_plan(
    numbers: &[u64; NUMBER_COUNT],
    names: &[u8; OCTET_COUNT],
    neighbour: u32,
    hex: &[u8],
    text: &mut [u8],
) -> usize
    requires { (length hex.now ≤ hex_limit) × (text_space ≤ length text.old) }
    ensures { let c = card_of numbers.now names.now in
        ((number room : ℕ) → Says (reply_to number room c (Said.plan neighbour (octets_of hex.now))) result text.new c) }
{
    let mut sets = bench_replies::input();
    let n = bench_words::decode_hex(hex, &mut sets);
    put_plan(numbers, names, neighbour, &sets[..n], text)
}

// Whether a list may be carried out.
fn on_vet(
    numbers: &[u64; NUMBER_COUNT],
    names: &[u8; OCTET_COUNT],
    neighbour: u32,
    hex: &[u8],
    listed: &[u8],
    text: &mut [u8],
) -> usize
    requires { (length hex.now ≤ hex_limit) × (length listed.now ≤ hex_limit) × (text_space ≤ length text.old) }
    ensures { let c = card_of numbers.now names.now in
        ((number room : ℕ) → Says (reply_to number room c (Said.vet neighbour (octets_of hex.now) (octets_of listed.now))) result text.new c) }
{
    let mut sets = bench_replies::input();
    let n = bench_words::decode_hex(hex, &mut sets);
    let mut list = bench_replies::input();
    let k = bench_words::decode_hex(listed, &mut list);
    put_verdict(numbers, names, neighbour, &sets[..n], &list[..k], text)
}

// An order on plans: no other comes here.
pub fn on_planned(
    numbers: &[u64; NUMBER_COUNT],
    names: &[u8; OCTET_COUNT],
    line: &[u8],
    order: Order,
    text: &mut [u8],
) -> usize
    requires { InLine line.now order × (kind_of order ≡ Kind.plans) × (text_space ≤ length text.old) }
    ensures { let c = card_of numbers.now names.now in
        ((number room : ℕ) → Says (reply_to number room c (meant line.now order)) result text.new c) }
{
    match order {
        Order::Plan { neighbour, hex } => on_plan(numbers, names, neighbour, hex.of(line), text),
        Order::Vet {
            neighbour,
            sets,
            hex,
        } => on_vet(numbers, names, neighbour, sets.of(line), hex.of(line), text),
        _ => 0,
    }
}
