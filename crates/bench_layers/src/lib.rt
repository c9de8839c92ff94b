// The layers of a name as text, at a place of a lent text: the reader calls itself on the part from the name inside on.
#![tactic(auto)]

ghost use Rattle.std.specs.Prelude.{◌≡◌, ◌∷◌, ◌++◌, ◌+◌, ◌*◌, ◌≤◌, length, take};
ghost use Rattle.meaning.specs.Wire.{root_length, opaque_in, element_refusal, name_limit, root_limit};
ghost use Rattle.meaning_layers.specs.Layers.{before_inner, layer_of, peel, read, eight_size};
ghost use Rattle.bench_words.specs.Words.{hex_of};
ghost use Rattle.bench_lines.specs.Text.{Adds, text_space};
ghost use Rattle.bench_layers.specs.LayerText.{eight_text, layer_text, innermost_text, peeled_text, layers_line, or_dash, unwrapped_line};

// `/` and the eight octets of a layer, or nothing.
fn add_eight(text: &mut [u8], at: usize, eight: &[u8]) -> usize
    requires { at + 1 + length eight.now * 2 ≤ length text.old }
    ensures adds { Adds (eight_text eight.now) text.old text.new at result }
    ensures upper_bound { result ≤ at + 1 + length eight.now * 2 }
{
    if eight.len() == 0 {
        return at;
    }
    let at = bench_lines::add(text, at, b"/");
    bench_lines::add_hex(text, at, eight)
}

// An outer layer, and what parts it from the next.
fn add_layer(text: &mut [u8], at: usize, name: &[u8]) -> usize
    requires { at + 4 + 2 * (root_length name.now + before_inner (opaque_in name.now)) ≤ length text.old }
    ensures adds { Adds (layer_text (layer_of name.now)) text.old text.new at result }
    ensures upper_bound { result ≤ at + 4 + 2 * (root_length name.now + before_inner (opaque_in name.now)) }
{
    let at = bench_lines::add_hex(text, at, wire_name::root_of(name));
    let at = add_eight(text, at, wire_layers::eight_of(name));
    bench_lines::add(text, at, b" > ")
}

fn add_innermost(text: &mut [u8], at: usize, name: &[u8]) -> usize
    requires { (element_refusal name.now ≡ 0) × (at + 3 * length name.now ≤ length text.old) }
    ensures adds { Adds (innermost_text name.now) text.old text.new at result }
    ensures upper_bound { result ≤ at + 3 * length name.now }
{
    let at = bench_lines::add_hex(text, at, wire_name::root_of(name));
    let at = bench_lines::add(text, at, b" ");
    let opaque = 6 + wire_name::root_length(name);
    bench_lines::add_hex(text, at, &name[opaque..])
}

// All layers of a name, down to the innermost.
pub fn add_layers(text: &mut [u8], at: usize, name: &[u8]) -> usize
    requires { (element_refusal name.now ≡ 0) × (at + 3 * length name.now ≤ length text.old) }
    ensures adds { Adds (peeled_text (peel name.now)) text.old text.new at result }
    ensures upper_bound { result ≤ at + 3 * length name.now }
{
    let k = wire_layers::inner_start(name);
    if k == 0 {
        return add_innermost(text, at, name);
    }
    let next = add_layer(text, at, name);
    add_layers(text, next, &name[k..])
}

// `layers 0` and the layers, or the refusal's number.
pub fn put_layers(text: &mut [u8], name: &[u8]) -> usize
    requires { text_space ≤ length text.old }
    ensures text_after { take result text.new ≡ layers_line (read name.now) }
    ensures upper_bound { result ≤ text_space }
{
    if let Err(refusal) = wire_name::check_element(name) {
        return bench_lines::put_count(text, b"layers", refusal.number() as u64);
    }
    let at = bench_lines::add(text, 0, b"layers 0 ");
    let at = add_layers(text, at, name);
    bench_lines::add(text, at, b"\n")
}

fn add_or_dash(text: &mut [u8], at: usize, octets: &[u8]) -> usize
    requires { at + 1 + length octets.now * 2 ≤ length text.old }
    ensures adds { Adds (or_dash octets.now) text.old text.new at result }
    ensures upper_bound { result ≤ at + 1 + length octets.now * 2 }
{
    if octets.len() == 0 {
        return bench_lines::add(text, at, b"-");
    }
    bench_lines::add_hex(text, at, octets)
}

// ` ROOT EIGHT` behind the name inside.
fn add_outer(text: &mut [u8], at: usize, root: &[u8], eight: &[u8]) -> usize
    requires { at + 3 + (length root.now * 2 + length eight.now * 2) ≤ length text.old }
    ensures adds { Adds ((32 ∷ hex_of root.now) ++ (32 ∷ or_dash eight.now)) text.old text.new at result }
    ensures upper_bound { result ≤ at + 3 + (length root.now * 2 + length eight.now * 2) }
{
    let at = bench_lines::add(text, at, b" ");
    let at = bench_lines::add_hex(text, at, root);
    let at = bench_lines::add(text, at, b" ");
    add_or_dash(text, at, eight)
}

// `unwrap 0`, the name inside, the outer root and the eight octets.
pub fn put_unwrapped(text: &mut [u8], name: &[u8], root: &[u8], eight: &[u8]) -> usize
    requires { (length name.now ≤ name_limit) × (length root.now ≤ root_limit) × (length eight.now ≤ eight_size) × (text_space ≤ length text.old) }
    ensures text_after { take result text.new ≡ unwrapped_line name.now root.now eight.now }
    ensures upper_bound { result ≤ text_space }
{
    let at = bench_lines::add(text, 0, b"unwrap 0 ");
    let at = bench_lines::add_hex(text, at, name);
    let at = add_outer(text, at, root, eight);
    bench_lines::add(text, at, b"\n")
}
