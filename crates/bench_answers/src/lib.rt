// What a line is answered with: the order that it is, obeyed, and the line that tells of it, at the front of a lent text.
#![tactic(auto)]

ghost use Rattle.std.specs.Prelude.{◌≡◌, List, ℕ, ◌≤◌, length};
ghost use Rattle.meaning.specs.Card.{Card, sent_limit};
ghost use Rattle.meaning.specs.Calls.{Does};
ghost use Rattle.bench_lines.specs.Text.{text_space};
ghost use Rattle.memory.specs.Memory.{card_of};
ghost use Rattle.bench_words.specs.Words.{octets_of, hex_limit};
ghost use Rattle.bench_verbs.specs.Line.{Said, order_of};
ghost use Rattle.bench_orders.specs.Tells.{meant, InLine};
ghost use Rattle.bench_replies.specs.Kinds.{Kind, kind_of};
ghost use Rattle.bench_replies.specs.Reply.{event_room, reply_to, Says, Answers};
ghost use Rattle.bench_answers.specs.Held.{hex_in, held_in, call_of, word_of};

use bench_orders::Order;
use bench_words::Word;
use meaning::NEIGHBOUR_COUNT;
use memory::{NUMBER_COUNT, OCTET_COUNT};

// ---- lookups

// Where a label leads.
fn on_label(numbers: &[u64; NUMBER_COUNT], label: u32, text: &mut [u8]) -> usize
    requires { text_space ≤ length text.old }
    ensures { (number room : ℕ) (os : List ℕ) → (let c = card_of numbers.now os in Says (reply_to number room c (Said.label label)) result text.new c) }
{
    let mut branches = [0u64; NEIGHBOUR_COUNT];
    let leaf = card_lookups::lookup_label_core(numbers, label, &mut branches);
    bench_lines::put_feed(text, b"label", leaf, &branches)
}

// Where a name leads.
fn on_tree(
    numbers: &[u64; NUMBER_COUNT],
    names: &[u8; OCTET_COUNT],
    hex: &[u8],
    text: &mut [u8],
) -> usize
    requires { (length hex.now ≤ hex_limit) × (text_space ≤ length text.old) }
    ensures { let c = card_of numbers.now names.now in
        ((number room : ℕ) → Says (reply_to number room c (Said.tree (octets_of hex.now))) result text.new c) }
{
    let mut element = bench_replies::input();
    let n = bench_words::decode_hex(hex, &mut element);
    let mut branches = [0u64; NEIGHBOUR_COUNT];
    let leaf = card_lookups::lookup_name_core(numbers, names, &element[..n], &mut branches);
    bench_lines::put_feed(text, b"tree", leaf, &branches)
}

// ---- events

// Where the HEX of an order that writes records lies in its line.
fn hex_in(order: Order) -> Word
    ensures { result ≡ hex_in order }
{
    match order {
        Order::Take { hex, .. } => hex,
        Order::Join(hex) => hex,
        Order::Leave(hex) => hex,
        Order::Route { hex, .. } => hex,
        Order::Notice { hex, .. } => hex,
        _ => Word { start: 0, end: 0 },
    }
}

// The call of an order that writes records, with its octets: no other comes here.
fn call(
    numbers: &mut [u64; NUMBER_COUNT],
    names: &mut [u8; OCTET_COUNT],
    order: Order,
    octets: &[u8],
    out: &mut [u8],
    answer: &mut u32,
) -> usize
    requires { kind_of order ≡ Kind.records }
    ensures { Does (call_of (length out.old) (card_of numbers.old names.old) order octets.now)
        answer.new result out.old out.new (card_of numbers.new names.new) }
{
    match order {
        Order::Take { neighbour, .. } => {
            card::receive_core(numbers, names, neighbour, octets, out, answer)
        }
        Order::Join(_) => card::join_core(numbers, names, octets, out, answer),
        Order::Leave(_) => card::leave_core(numbers, names, octets, out, answer),
        Order::Route { route, .. } => card::route_core(numbers, names, octets, route, out, answer),
        Order::Notice {
            neighbour,
            number,
            ..
        } => notice_writer::notice_core(numbers, neighbour, number, octets, out, answer),
        Order::Lost(neighbour) => card::lost_core(numbers, names, neighbour, out, answer),
        _ => 0,
    }
}

// The word of the line that tells of an order that writes records: no other comes here.
fn word_of(order: Order) -> &'static [u8]
    requires { kind_of order ≡ Kind.records }
    ensures { (result.now ≡ word_of order) × (length result.now ≤ 8) }
{
    match order {
        Order::Take { .. } => b"take",
        Order::Join(_) => b"join",
        Order::Leave(_) => b"leave",
        Order::Route { .. } => b"route",
        Order::Notice { .. } => b"notice",
        Order::Lost(_) => b"lost",
        _ => b"",
    }
}

fn tell_call(
    numbers: &mut [u64; NUMBER_COUNT],
    names: &mut [u8; OCTET_COUNT],
    order: Order,
    octets: &[u8],
    out: &mut [u8],
    text: &mut [u8],
) -> usize
    requires { (kind_of order ≡ Kind.records) × (length out.old ≤ sent_limit) × (text_space ≤ length text.old) }
    ensures { (number room : ℕ) (l : List ℕ) → length out.old ≡ event_room room → octets.now ≡ held_in l order
        → Says (reply_to number room (card_of numbers.old names.old) (meant l order))
        result text.new (card_of numbers.new names.new) }
{
    let mut answer: u32 = 0;
    let n = call(numbers, names, order, octets, out, &mut answer);
    bench_lines::put_event(text, word_of(order), answer, &out[..n])
}

// An order that writes records: no other comes here. The HEX is read and the output lent in one place for all.
fn on_event(
    numbers: &mut [u64; NUMBER_COUNT],
    names: &mut [u8; OCTET_COUNT],
    line: &[u8],
    order: Order,
    room: u32,
    text: &mut [u8],
) -> usize
    requires { InLine line.now order × (kind_of order ≡ Kind.records) × (text_space ≤ length text.old) }
    ensures { (number : ℕ) → Says (reply_to number room (card_of numbers.old names.old) (meant line.now order))
        result text.new (card_of numbers.new names.new) }
{
    let hex = hex_in(order);
    let mut octets = bench_replies::input();
    let n = bench_words::decode_hex(hex.of(line), &mut octets);
    let mut out = bench_replies::output();
    tell_call(
        numbers,
        names,
        order,
        &octets[..n],
        bench_replies::lent(&mut out, room),
        text,
    )
}

// ---- counts

// An order that is answered with one count: no other comes here.
fn on_counted(
    numbers: &mut [u64; NUMBER_COUNT],
    order: Order,
    number: u64,
    text: &mut [u8],
) -> usize
    requires { (kind_of order ≡ Kind.count) × (text_space ≤ length text.old) }
    ensures { (room : ℕ) (l os : List ℕ) → Says (reply_to number room (card_of numbers.old os) (meant l order))
        result text.new (card_of numbers.new os) }
{
    match order {
        Order::Bad => bench_lines::put_count(text, b"?", number),
        Order::Start(base) => bench_lines::put_count(
            text,
            b"start",
            card::start(numbers, base) as u64,
        ),
        Order::Room(n) => bench_lines::put_count(text, b"room", n as u64),
        Order::Free => bench_lines::put_count(
            text,
            b"free",
            card_lookups::free_labels(numbers) as u64,
        ),
        _ => 0,
    }
}

// ---- any order

// Does what is ordered.
fn obey(
    numbers: &mut [u64; NUMBER_COUNT],
    names: &mut [u8; OCTET_COUNT],
    line: &[u8],
    order: Order,
    number: u64,
    room: u32,
    text: &mut [u8],
) -> usize
    requires { InLine line.now order × (text_space ≤ length text.old) }
    ensures { Says (reply_to number room (card_of numbers.old names.old) (meant line.now order))
        result text.new (card_of numbers.new names.new) }
{
    match order {
        Order::Blank => 0,
        Order::Bad | Order::Start(_) | Order::Room(_) | Order::Free => {
            on_counted(numbers, order, number, text)
        }
        Order::Label(label) => on_label(numbers, label, text),
        Order::Tree(hex) => on_tree(numbers, names, hex.of(line), text),
        Order::Save(_) | Order::Restore { .. } | Order::Move { .. } => {
            bench_saves::on_saved(numbers, names, line, order, room, text)
        }
        Order::Layers(_) | Order::Wrap { .. } | Order::Unwrap(_) => {
            bench_wraps::on_layered(line, order, room, text)
        }
        Order::Plan { .. } | Order::Vet { .. } => {
            bench_plans::on_planned(numbers, names, line, order, text)
        }
        _ => on_event(numbers, names, line, order, room, text),
    }
}

// What a line is answered with: a text's length, and the room from here on.
#[derive(Clone, Copy)]
pub struct Answered {
    pub length: usize,
    pub room: u32,
}

fn next_room(room: u32, order: Order) -> u32
    ensures { (number : ℕ) (c : Card) (l : List ℕ) → result ≡ (reply_to number room c (meant l order)).room }
{
    match order {
        Order::Room(n) => n,
        _ => room,
    }
}

pub fn answer(
    numbers: &mut [u64; NUMBER_COUNT],
    names: &mut [u8; OCTET_COUNT],
    line: &[u8],
    number: u64,
    room: u32,
    text: &mut [u8],
) -> Answered
    requires { text_space ≤ length text.old }
    ensures { Answers (reply_to number room (card_of numbers.old names.old) (order_of line.now))
        result.length text.new (card_of numbers.new names.new) result.room }
{
    let order = bench_orders::read_order(line);
    Answered {
        length: obey(numbers, names, line, order, number, room, text),
        room: next_room(room, order),
    }
}
