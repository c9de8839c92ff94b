// Orders on names inside names: the call is made, and the line that tells of it is written to the front of a lent text.
#![tactic(auto)]

ghost use Rattle.std.specs.Prelude.{◌≡◌, ℕ, ◌≤◌, length, take};
ghost use Rattle.meaning.specs.Wire.{name_limit};
ghost use Rattle.meaning.specs.Card.{Card};
ghost use Rattle.meaning_layers.specs.Layers.{unwrap};
ghost use Rattle.bench_layers.specs.LayerText.{unwrap_line};
ghost use Rattle.bench_lines.specs.Text.{text_space};
ghost use Rattle.bench_words.specs.Words.{octets_of, hex_limit};
ghost use Rattle.bench_verbs.specs.Line.{Said};
ghost use Rattle.bench_orders.specs.Tells.{meant, InLine};
ghost use Rattle.bench_replies.specs.Kinds.{Kind, kind_of};
ghost use Rattle.bench_replies.specs.Reply.{reply_to, Says};

use bench_orders::Order;
use meaning::NAME_LIMIT;

fn output() -> [u8; NAME_LIMIT]
    ensures { name_limit ≡ length result }
{
    [0; NAME_LIMIT]
}

fn on_layers(hex: &[u8], text: &mut [u8]) -> usize
    requires { (length hex.now ≤ hex_limit) × (text_space ≤ length text.old) }
    ensures { (number room : ℕ) (c : Card) → Says (reply_to number room c (Said.layers (octets_of hex.now))) result text.new c }
{
    let mut name = bench_replies::input();
    let n = bench_words::decode_hex(hex, &mut name);
    bench_layers::put_layers(text, &name[..n])
}

fn on_wrap(root: &[u8], eight: &[u8], hex: &[u8], room: u32, text: &mut [u8]) -> usize
    requires { (length root.now ≤ hex_limit) × (length eight.now ≤ hex_limit) × (length hex.now ≤ hex_limit) × (text_space ≤ length text.old) }
    ensures { (number : ℕ) (c : Card) → Says (reply_to number room c (Said.wrap (octets_of root.now) (octets_of eight.now) (octets_of hex.now)))
        result text.new c }
{
    let mut outer = bench_replies::input();
    let k = bench_words::decode_hex(root, &mut outer);
    let mut between = bench_replies::input();
    let m = bench_words::decode_hex(eight, &mut between);
    let mut name = bench_replies::input();
    let n = bench_words::decode_hex(hex, &mut name);
    let mut out = output();
    let mut answer: u32 = 0;
    let wrapped = wire_wraps::wrap(
        &outer[..k],
        &between[..m],
        &name[..n],
        bench_replies::lent(&mut out, room),
        &mut answer,
    );
    bench_lines::put_event(text, b"wrap", answer, wrapped)
}

// The name comes as a part: an array that is lent once is not borrowed again beside it.
fn tell_unwrapped(name: &[u8], out: &mut [u8], text: &mut [u8]) -> usize
    requires { (length out.old ≤ name_limit) × (text_space ≤ length text.old) }
    ensures { (take result text.new ≡ unwrap_line (unwrap (length out.old) name.now)) × (result ≤ text_space) }
{
    let mut lengths = [0u64; 2];
    let mut answer: u32 = 0;
    let inner = wire_wraps::unwrap(name, out, &mut lengths, &mut answer);
    if answer != 0 {
        return bench_lines::put_count(text, b"unwrap", answer as u64);
    }
    bench_layers::put_unwrapped(
        text,
        inner,
        wire_name::root_of(name),
        wire_layers::eight_of(name),
    )
}

fn on_unwrap(hex: &[u8], room: u32, text: &mut [u8]) -> usize
    requires { (length hex.now ≤ hex_limit) × (text_space ≤ length text.old) }
    ensures { (number : ℕ) (c : Card) → Says (reply_to number room c (Said.unwrap (octets_of hex.now))) result text.new c }
{
    let mut name = bench_replies::input();
    let n = bench_words::decode_hex(hex, &mut name);
    let mut out = output();
    tell_unwrapped(&name[..n], bench_replies::lent(&mut out, room), text)
}

// An order on layers: no other comes here.
pub fn on_layered(line: &[u8], order: Order, room: u32, text: &mut [u8]) -> usize
    requires { InLine line.now order × (kind_of order ≡ Kind.layers) × (text_space ≤ length text.old) }
    ensures { (number : ℕ) (c : Card) → Says (reply_to number room c (meant line.now order)) result text.new c }
{
    match order {
        Order::Layers(hex) => on_layers(hex.of(line), text),
        Order::Wrap { root, eight, hex } => {
            on_wrap(root.of(line), eight.of(line), hex.of(line), room, text)
        }
        Order::Unwrap(hex) => on_unwrap(hex.of(line), room, text),
        _ => 0,
    }
}
