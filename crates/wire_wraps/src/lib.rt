// A name wrapped in a layer (RFC 6512), and unwrapped. Each has a core, which says what becomes of the whole output, and a call that
// hands back the part that holds the name.
#![tactic(auto)]

ghost use Rattle.std.specs.Prelude.{◌≡◌, ◌&&◌, ◌||◌, [], ◌∷◌, ◌++◌, ◌+◌, ◌≤◌, ◌<◌, length, eqb};
ghost use Rattle.meaning.specs.Octets.{pick, two};
ghost use Rattle.meaning.specs.Calls.{over};
ghost use Rattle.meaning_layers.specs.Layers.{plain_kind, eight_kind, eight_size, family_of, wrapped, wrap_refusal, wrap as wrapOf, unwrap_refusal, unwrap as unwrapOf};
ghost use Rattle.meaning_layers.specs.LayerCalls.{Writes, HandsPart, layer_in, lengths_of};
ghost use Rattle.refusals.specs.Refusals.{answer_of};
ghost use Rattle.wire_wraps.specs.Room.{Fits, head_of};

use meaning::{OPAQUE_LIMIT, ROOT_LIMIT};
use meaning_layers::{EIGHT_KIND, EIGHT_SIZE, HOLDER_HEAD, PLAIN_KIND};
use refusals::Refusal;

// ---- wrapping

// Whether these can be a layer's root and octets: 4 or 16, and none or eight.
fn is_layer(root: &[u8], eight: &[u8]) -> bool
    ensures { result ≡ ((eqb (length root.now) 4 || eqb (length root.now) 16)
        && (eqb (length eight.now) 0 || eqb (length eight.now) eight_size)) }
{
    ((root.len() == 4) | (root.len() == ROOT_LIMIT))
        & ((eight.len() == 0) | (eight.len() == EIGHT_SIZE))
}

// The refusals 6, 7, 18 and 16; where none applies, all has its place.
fn check_wrap(root: &[u8], eight: &[u8], name: &[u8], room: usize) -> Result<(), Refusal>
    ensures { (answer_of result ≡ wrap_refusal room root.now eight.now name.now)
        × (answer_of result ≡ 0 → Fits root.now eight.now name.now room) }
{
    if !is_layer(root, eight) {
        return Err(Refusal::BadElement);
    }
    let named = wire_name::check_element(name);
    if named == Err(Refusal::BadElement) {
        return named;
    }
    if OPAQUE_LIMIT - HOLDER_HEAD - eight.len() < name.len() {
        return Err(Refusal::BadOpaque);
    }
    named?;
    if room < 9 + root.len() + (eight.len() + name.len()) {
        return Err(Refusal::NoRoom);
    }
    Ok(())
}

fn family_of(root: &[u8]) -> u64
    ensures { (result ≡ family_of root.now) × (result ≤ 2) }
{
    if root.len() == 4 {
        return 1;
    }
    2
}

fn kind_of(eight: usize) -> u64
    ensures { (result ≡ pick (eqb eight 0) plain_kind eight_kind) × (result ≤ eight_kind) }
{
    if eight == 0 {
        return PLAIN_KIND;
    }
    EIGHT_KIND
}

fn put_element_head(out: &mut [u8], family: u64, size: u64)
    requires { (length out.old ≡ 4) × (size ≤ 255) }
    ensures { out.new ≡ 6 ∷ (two family ++ (size ∷ [])) }
{
    let [.., f1, f0] = family.to_be_bytes();
    let head = [6, f1, f0, size as u8];
    octets::copy(out, &head);
}

// The opaque length field, and the head of the one element that holds the name.
fn put_holder_head(out: &mut [u8], kind: u64, held: u64)
    requires { (length out.old ≡ 5) × (kind ≤ 255) × (held ≤ 255) }
    ensures { out.new ≡ two (3 + held) ++ (kind ∷ two held) }
{
    let opaque = 3 + held;
    let [.., o1, o0] = opaque.to_be_bytes();
    let [.., h1, h0] = held.to_be_bytes();
    let head = [o1, o0, kind as u8, h1, h0];
    octets::copy(out, &head);
}

// All that stands before the eight octets and the name.
fn put_layer_head(out: &mut [u8], root: &[u8], kind: u64, held: u64)
    requires { (length out.old ≡ 9 + length root.now) × (length root.now ≤ 16) × (kind ≤ 255) × (held ≤ 255) }
    ensures { out.new ≡ head_of root.now kind held }
{
    let size = root.len();
    put_element_head(&mut out[0..4], family_of(root), size as u64);
    let a = 4 + size;
    octets::copy(&mut out[4..a], root);
    let e = a + 5;
    put_holder_head(&mut out[a..e], kind, held);
}

// The wrapped name at the front of the output: the octets behind it stay.
fn put_wrapped(out: &mut [u8], root: &[u8], eight: &[u8], name: &[u8])
    requires { Fits root.now eight.now name.now (length out.old) }
    ensures { out.new ≡ over (wrapped root.now eight.now name.now) out.old }
{
    let a = 9 + root.len();
    let held = eight.len() + name.len();
    put_layer_head(&mut out[0..a], root, kind_of(eight.len()), held as u64);
    let b = a + eight.len();
    octets::copy(&mut out[a..b], eight);
    let e = b + name.len();
    octets::copy(&mut out[b..e], name);
}

// Nothing is written before the refusals are tested.
pub fn wrap_core(root: &[u8], eight: &[u8], name: &[u8], out: &mut [u8], answer: &mut u32) -> usize
    ensures { let w = wrapOf (length out.old) root.now eight.now name.now in
        Writes w.answer w.octets answer.new result out.old out.new }
{
    let done = check_wrap(root, eight, name, out.len());
    *answer = refusals::answer_of(&done);
    if done.is_err() {
        return 0;
    }
    put_wrapped(out, root, eight, name);
    9 + root.len() + (eight.len() + name.len())
}

pub fn wrap<'a>(
    root: &[u8],
    eight: &[u8],
    name: &[u8],
    out: &'a mut [u8],
    answer: &mut u32,
) -> &'a mut [u8]
    ensures { (let w = wrapOf (length out.old) root.now eight.now name.now in
        HandsPart w.answer w.octets answer.new result.now) × (result.ref_ptr ≡ out.entry.ref_ptr) }
{
    let n = wrap_core(root, eight, name, &mut *out, answer);
    &mut out[..n]
}

// ---- unwrapping

// The refusals 6, 7, 18, 22 and 16.
fn check_unwrap(name: &[u8], room: usize) -> Result<(), Refusal>
    ensures { answer_of result ≡ unwrap_refusal room name.now }
{
    wire_name::check_element(name)?;
    let k = wire_layers::inner_start(name);
    if k == 0 {
        return Err(Refusal::LastLayer);
    }
    if room < name.len() - k {
        return Err(Refusal::NoRoom);
    }
    Ok(())
}

// The name inside goes to the output. The outer root and any eight octets are parts of the caller's own name: the root from octet 4 on,
// and the eight octets from 9 behind the root's length on; `lengths` says how many octets of each.
pub fn unwrap_core(name: &[u8], out: &mut [u8], lengths: &mut [u64; 2], answer: &mut u32) -> usize
    ensures { let u = unwrapOf (length out.old) name.now in
        Writes u.answer u.octets answer.new result out.old out.new
        × (layer_in name.now lengths.new ≡ u.layer) × (lengths.new ≡ lengths_of u.layer) }
{
    let done = check_unwrap(name, out.len());
    *answer = refusals::answer_of(&done);
    if done.is_err() {
        *lengths = [0, 0];
        return 0;
    }
    let k = wire_layers::inner_start(name);
    let n = name.len() - k;
    octets::copy(&mut out[0..n], &name[k..]);
    *lengths = [
        wire_name::root_length(name) as u64,
        wire_layers::eight_of(name).len() as u64,
    ];
    n
}

pub fn unwrap<'a>(
    name: &[u8],
    out: &'a mut [u8],
    lengths: &mut [u64; 2],
    answer: &mut u32,
) -> &'a mut [u8]
    ensures { (let u = unwrapOf (length out.old) name.now in
        HandsPart u.answer u.octets answer.new result.now
        × (layer_in name.now lengths.new ≡ u.layer) × (lengths.new ≡ lengths_of u.layer)) × (result.ref_ptr ≡ out.entry.ref_ptr) }
{
    let n = unwrap_core(name, &mut *out, lengths, answer);
    &mut out[..n]
}
