// The fields of a save's records, read: the octets in a space, and a name in either form.
#![tactic(auto)]

ghost use Rattle.std.specs.Prelude.{◌≡◌, [], ◌∷◌, ◌++◌, ◌+◌, ◌≤◌, ◌<◌, length, take, drop, eqb};
ghost use Rattle.meaning.specs.Octets.{pick, two, four_at};
ghost use Rattle.meaning.specs.Wire.{name_limit, root_limit};
ghost use Rattle.meaning_save.specs.Save.{old, new, form_of, spaced_in, name_in, extent, saved_opaque};
ghost use Rattle.memory.specs.Memory.{Placed};

use meaning::{NAME_LIMIT, ROOT_LIMIT, SAVED_OPAQUE, SAVED_ROOT_SPACE, SPACED_NAME};

// The number of four octets at a place.
pub fn four_at(octets: &[u8], at: usize) -> u64
    requires { at + 4 < 18446744073709551616 }
    ensures { (result ≡ four_at octets.now at) × (result < 4294967296) }
{
    octets::four_at(octets, at)
}

// The octets that stand in a space of n, with their number before them.
pub fn spaced(octets: &[u8], at: usize, n: usize) -> &[u8]
    ensures { (result.now ≡ spaced_in n (drop at octets.now)) × (length result.now ≤ n) }
{
    if octets.len() <= at {
        return &octets[0..0];
    }
    let k = octets::at(octets, at) as usize;
    let s = at + 1;
    let e = s + k.min(n).min(octets.len() - s);
    &octets[s..e]
}

// The address family of a root, by its length.
fn family(k: usize) -> u8
    ensures { result ≡ pick (eqb k 4) 1 2 }
{
    if k == 4 { 1 } else { 2 }
}

// What stands before the root in a name: the element's type, the family by the root's length, and that length.
fn put_element_head(out: &mut [u8], k: usize)
    requires { (length out.old ≡ 4) × (k ≤ root_limit) }
    ensures { out.new ≡ 6 ∷ (two (pick (eqb k 4) 1 2) ++ (k ∷ [])) }
{
    let head = [6, 0, family(k), k as u8];
    octets::copy(out, &head);
}

fn put_two(out: &mut [u8], n: usize)
    requires { (length out.old ≡ 2) × (n ≤ saved_opaque) }
    ensures { out.new ≡ two n }
{
    let both = [0, n as u8];
    octets::copy(out, &both);
}

// The name whose root and opaque value stand at a place, each in its space, at the front of a buffer; its length.
fn read_spaces(octets: &[u8], at: usize, out: &mut [u8]) -> usize
    requires { (length out.old ≡ name_limit) × (at < 1073741824) }
    ensures { (take result out.new ≡ name_in old (drop at octets.now)) × (result ≤ name_limit) }
{
    let root = spaced(octets, at, ROOT_LIMIT);
    let opaque = spaced(octets, at + SAVED_ROOT_SPACE, SAVED_OPAQUE);
    let a = 4 + root.len();
    let b = a + 2;
    let e = b + opaque.len();
    put_element_head(&mut out[0..4], root.len());
    octets::copy_field(&mut out[4..a], root);
    put_two(&mut out[a..b], opaque.len());
    octets::copy_field(&mut out[b..e], opaque);
    e
}

// The name that stands whole at a place, with its length before it.
fn read_whole(octets: &[u8], at: usize, out: &mut [u8]) -> usize
    requires { length out.old ≡ name_limit }
    ensures { (take result out.new ≡ name_in new (drop at octets.now)) × (result ≤ name_limit) }
{
    let name = spaced(octets, at, NAME_LIMIT);
    let n = name.len();
    octets::copy_text(&mut out[0..n], name);
    n
}

// The name at a place, at the front of a buffer; its length.
fn read_name(octets: &[u8], at: usize, second: bool, out: &mut [u8]) -> usize
    requires { (length out.old ≡ name_limit) × (at < 1073741824) }
    ensures { (take result out.new ≡ name_in (form_of second) (drop at octets.now)) × (result ≤ name_limit) }
{
    if second {
        return read_whole(octets, at, out);
    }
    read_spaces(octets, at, out)
}

// The name at a place, into its space at place a of the card's memory.
pub fn lay_name(octets: &[u8], at: usize, second: bool, names: &mut [u8], a: usize)
    requires { (a + 1 + name_limit ≤ length names.old) × (at < 1073741824) }
    ensures { Placed name_limit a (name_in (form_of second) (drop at octets.now)) names.old names.new }
{
    let f = a + 1;
    let e = f + NAME_LIMIT;
    let n = read_name(octets, at, second, &mut names[f..e]);
    names[a] = n as u8;
}

// How many octets the name at a place takes.
pub fn extent_at(octets: &[u8], at: usize, second: bool) -> usize
    ensures { (result ≡ extent (form_of second) (drop at octets.now)) × (result ≤ 256) }
{
    if second {
        return octets::at(octets, at) as usize + 1;
    }
    SPACED_NAME
}
