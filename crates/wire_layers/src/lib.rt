// Names inside names (RFC 6512), read layer by layer down to the innermost.
// A layer's root is `wire_name::root_of` of the name that begins there, and its eight octets are `eight_of` of it.
#![tactic(auto)]

ghost use Rattle.std.specs.Prelude.{◌≡◌, ◌||◌, ◌+◌, ◌≤◌, ◌<◌, length, eqb};
ghost use Rattle.meaning.specs.Octets.{pick};
ghost use Rattle.meaning.specs.Wire.{opaque_in};
ghost use Rattle.meaning_layers.specs.Layers.{plain_kind, eight_kind, eight_size, eight_in};
ghost use Rattle.meaning_layers.specs.InnerStart.{inner_start, layer_count, layer_start};

use meaning_layers::{EIGHT_KIND, EIGHT_SIZE, HOLDER_HEAD, PLAIN_KIND};

// ---- one layer

fn holds(kind: u64) -> bool
    ensures { result ≡ (eqb kind plain_kind || eqb kind eight_kind) }
{
    (kind == PLAIN_KIND) | (kind == EIGHT_KIND)
}

// How many octets stand before the name inside, by the type of the element that holds it.
fn before_inner(kind: u64) -> usize
    ensures { (result ≡ pick (eqb kind eight_kind) eight_size 0) × (result ≤ eight_size) }
{
    if kind == EIGHT_KIND {
        return EIGHT_SIZE;
    }
    0
}

// Where the name inside begins; 0 for a last layer.
// Kept: 0 for none, since its clause promises the number `inner_start`.
pub fn inner_start(name: &[u8]) -> usize
    ensures { (result ≡ inner_start name.now) × (result ≤ length name.now) × ((result ≡ 0 → ⊥) → 9 ≤ result) }
{
    let opaque = 6 + wire_name::root_length(name);
    let kind = octets::at(name, opaque);
    if !holds(kind) {
        return 0;
    }
    if name.len() != opaque + HOLDER_HEAD + octets::two_at(name, opaque + 1) as usize {
        return 0;
    }
    let start = opaque + HOLDER_HEAD + before_inner(kind);
    if name.len() < start {
        return 0;
    }
    if wire_name::check_element(&name[start..]).is_err() {
        return 0;
    }
    start
}

// The part that holds the eight octets of an outer layer, or none.
pub fn eight_of(name: &[u8]) -> &[u8]
    ensures { result.now ≡ eight_in (opaque_in name.now) }
{
    let opaque = 6 + wire_name::root_length(name);
    let n = before_inner(octets::at(name, opaque));
    let from = opaque + HOLDER_HEAD;
    if name.len() < from {
        return &name[0..0];
    }
    if name.len() - from < n {
        return &name[from..];
    }
    let end = from + n;
    &name[from..end]
}

// ---- down to the innermost: each calls itself on the part from the name inside on, which is shorter

// How many layers a name has; the innermost counts.
pub fn layer_count(name: &[u8]) -> usize
    ensures { (result ≡ layer_count name.now) × (result ≤ length name.now + 1) }
{
    let k = inner_start(name);
    if k == 0 {
        1
    } else {
        layer_count(&name[k..]) + 1
    }
}

// Where the name so many layers down begins; behind the end where there is none.
pub fn layer_start(name: &[u8], down: usize) -> usize
    ensures { (result ≡ layer_start down name.now) × (result ≤ length name.now) }
{
    if down == 0 {
        return 0;
    }
    let k = inner_start(name);
    if k == 0 {
        return name.len();
    }
    k + layer_start(&name[k..], down - 1)
}
