// The orders of the bench on saves: the call of either form that each is, and the line that tells of it, at the front of a lent text.
#![tactic(auto)]

ghost use Rattle.std.specs.Prelude.{◌≡◌, not, ℕ, ◌≤◌, ◌*◌, length};
ghost use Rattle.meaning.specs.Card.{Card};
ghost use Rattle.meaning_save.specs.Save.{old, new, form_of, save_limit};
ghost use Rattle.bench_lines.specs.Text.{text_space};
ghost use Rattle.memory.specs.Memory.{card_of};
ghost use Rattle.bench_words.specs.Words.{octets_of};
ghost use Rattle.bench_verbs.specs.Line.{Said};
ghost use Rattle.bench_orders.specs.Tells.{meant, InLine};
ghost use Rattle.bench_replies.specs.Kinds.{Kind, kind_of};
ghost use Rattle.bench_replies.specs.Reply.{save_word, restore_word, move_word, reply_to, Says};

use bench_orders::{OLD_SAVE_LIMIT, Order};
use meaning::SAVE_LIMIT;
use memory::{NUMBER_COUNT, OCTET_COUNT};

// ---- what both forms need

// The longest save: 32 routes, 64 trees and 256 labels behind the head, with the longest names.
fn longest_save() -> [u8; SAVE_LIMIT]
    ensures { save_limit new ≡ length result }
{
    [0; SAVE_LIMIT]
}

fn longest_old() -> [u8; OLD_SAVE_LIMIT]
    ensures { save_limit old ≡ length result }
{
    [0; OLD_SAVE_LIMIT]
}

// The octets that a save of the form is lent: as many as the longest has.
fn most_of(second: bool) -> usize
    ensures { (result ≡ save_limit (form_of second)) × (result ≤ save_limit new) }
{
    if second { SAVE_LIMIT } else { OLD_SAVE_LIMIT }
}

fn save_word(second: bool) -> &'static [u8]
    ensures { (result.now ≡ save_word (form_of second)) × (length result.now ≤ 8) }
{
    if second { b"save2" } else { b"save" }
}

fn restore_word(second: bool) -> &'static [u8]
    ensures { (result.now ≡ restore_word (form_of second)) × (length result.now ≤ 8) }
{
    if second { b"restore2" } else { b"restore" }
}

// From this form to the other.
fn move_word(second: bool) -> &'static [u8]
    ensures { (result.now ≡ move_word (form_of second)) × (length result.now ≤ 8) }
{
    if second { b"older" } else { b"newer" }
}

// ---- the orders

// The table as octets, for a card swap.
fn on_save(
    numbers: &[u64; NUMBER_COUNT],
    names: &[u8; OCTET_COUNT],
    second: bool,
    room: u32,
    text: &mut [u8],
) -> usize
    requires { text_space ≤ length text.old }
    ensures { let c = card_of numbers.now names.now in
        ((number : ℕ) → Says (reply_to number room c (Said.save (form_of second))) result text.new c) }
{
    let mut out = longest_save();
    let most = most_of(second);
    let mut answer: u32 = 0;
    let octets = save_writer::save(
        numbers,
        names,
        second,
        bench_replies::lent(&mut out[..most], room),
        &mut answer,
    );
    bench_lines::put_event(text, save_word(second), answer, octets)
}

fn on_restore(
    numbers: &mut [u64; NUMBER_COUNT],
    names: &mut [u8; OCTET_COUNT],
    second: bool,
    hex: &[u8],
    text: &mut [u8],
) -> usize
    requires { (length hex.now ≤ 2 * save_limit new) × (text_space ≤ length text.old) }
    ensures { (number room : ℕ) → Says (reply_to number room (card_of numbers.old names.old) (Said.restore (form_of second) (octets_of hex.now)))
        result text.new (card_of numbers.new names.new) }
{
    let mut octets = longest_save();
    let n = bench_words::decode_hex(hex, &mut octets);
    let mut spare_numbers = [0u64; NUMBER_COUNT];
    let mut spare_names = [0u8; OCTET_COUNT];
    let mut spare_save = [0u8; SAVE_LIMIT];
    let answer = save_reader::restore(
        numbers,
        names,
        second,
        &octets[..n],
        &mut spare_numbers,
        &mut spare_names,
        &mut spare_save,
    );
    bench_lines::put_count(text, restore_word(second), answer as u64)
}

// A save of this form becomes one of the other, in a space for the longest of that; the card has no part in it.
fn move_into(second: bool, hex: &[u8], space: &mut [u8], room: u32, text: &mut [u8]) -> usize
    requires { (length hex.now ≤ 2 * save_limit new) × (text_space ≤ length text.old) × (length space.old ≡ save_limit (form_of (not second))) }
    ensures { (number : ℕ) (c : Card) → Says (reply_to number room c (Said.moves (form_of second) (octets_of hex.now))) result text.new c }
{
    let mut octets = longest_save();
    let n = bench_words::decode_hex(hex, &mut octets);
    let mut spare_numbers = [0u64; NUMBER_COUNT];
    let mut spare_names = [0u8; OCTET_COUNT];
    let mut spare_save = [0u8; SAVE_LIMIT];
    let out = bench_replies::lent(space, room);
    let mut answer: u32 = 0;
    let k = save_mover::move_core(
        &octets[..n],
        second,
        &mut spare_numbers,
        &mut spare_names,
        &mut spare_save,
        &mut *out,
        &mut answer,
    );
    bench_lines::put_event(text, move_word(second), answer, &out[..k])
}

// Kept: a space for each form; with one for the longest of both an `older` that is refused took 1.4 times the time, most of it to clear it.
fn on_move(second: bool, hex: &[u8], room: u32, text: &mut [u8]) -> usize
    requires { (length hex.now ≤ 2 * save_limit new) × (text_space ≤ length text.old) }
    ensures { (number : ℕ) (c : Card) → Says (reply_to number room c (Said.moves (form_of second) (octets_of hex.now))) result text.new c }
{
    if second {
        let mut space = longest_old();
        move_into(second, hex, &mut space, room, text)
    } else {
        let mut space = longest_save();
        move_into(second, hex, &mut space, room, text)
    }
}

// An order on saves: no other comes here.
pub fn on_saved(
    numbers: &mut [u64; NUMBER_COUNT],
    names: &mut [u8; OCTET_COUNT],
    line: &[u8],
    order: Order,
    room: u32,
    text: &mut [u8],
) -> usize
    requires { InLine line.now order × (kind_of order ≡ Kind.saves) × (text_space ≤ length text.old) }
    ensures { (number : ℕ) → Says (reply_to number room (card_of numbers.old names.old) (meant line.now order))
        result text.new (card_of numbers.new names.new) }
{
    match order {
        Order::Save(second) => on_save(numbers, names, second, room, text),
        Order::Restore { second, hex } => on_restore(numbers, names, second, hex.of(line), text),
        Order::Move { second, hex } => on_move(second, hex.of(line), room, text),
        _ => 0,
    }
}
