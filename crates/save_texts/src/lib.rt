// Texts in their spaces, as a save has them: how many octets, these, and zeros; and a name, which is two of them in the old form, and one
// without zeros in the new one.
#![tactic(auto)]

ghost use Rattle.std.specs.Prelude.{◌≡◌, ◌+◌, ◌≤◌, length, take};
ghost use Rattle.meaning.specs.Wire.{opaque_in, name_limit};
ghost use Rattle.meaning_save.specs.Save.{old, form_of, padded, spaced, name_saved, name_most, is_short, spaced_name};
ghost use Rattle.meaning_laws.specs.SaveFields.{name_size};

use meaning::{NAME_LIMIT, ROOT_LIMIT, SAVED_OPAQUE, SAVED_ROOT_SPACE, SPACED_NAME};

// How many octets of a text find room.
fn fitting(text: &[u8], room: usize) -> usize
    ensures { (result ≡ length (take room text.now)) × (result ≤ room) × (result ≤ length text.now) }
{
    text.len().min(room)
}

// A text and zeros behind it, all of which are written first: the room is known when compiled, the text is not. What goes beyond the room
// is left out.
fn put_padded(out: &mut [u8], room: usize, text: &[u8])
    requires { length out.old ≡ room }
    ensures { out.new ≡ padded room (take room text.now) }
{
    out.fill(0);
    let n = fitting(text, room);
    octets::copy_field(&mut out[0..n], &text[0..n]);
}

// A text in its space: how many octets of it find room, and these.
pub fn put_space(out: &mut [u8], room: usize, text: &[u8])
    requires { (length out.old ≡ 1 + room) × (room ≤ 255) }
    ensures { out.new ≡ spaced room text.now }
{
    let n = [fitting(text, room) as u8];
    octets::copy(&mut out[0..1], &n);
    let e = 1 + room;
    put_padded(&mut out[1..e], room, text);
}

// The part of a name that holds the opaque value.
fn opaque_of(name: &[u8]) -> &[u8]
    ensures { result.now ≡ opaque_in name.now }
{
    let n = 6 + wire_name::root_length(name);
    if name.len() < n {
        return &name[0..0];
    }
    &name[n..]
}

// Whether a name is short enough for the form. Its opaque value is at least 6 octets shorter, so of most names the root need not be read.
pub fn is_short(name: &[u8], second: bool) -> bool
    ensures { result ≡ is_short (form_of second) name.now }
{
    second || name.len() <= 6 + SAVED_OPAQUE || opaque_of(name).len() <= SAVED_OPAQUE
}

// How many octets a name takes.
pub fn name_size(name: &[u8], second: bool) -> usize
    ensures { (result ≡ name_size (form_of second) name.now) × (1 ≤ result) × (result ≤ name_most (form_of second)) × (result ≤ 1 + name_limit) }
{
    if second {
        return 1 + fitting(name, NAME_LIMIT);
    }
    SPACED_NAME
}

// For a name that is cut off before its opaque value; what it says holds of any.
fn put_cut(out: &mut [u8], name: &[u8])
    requires { length out.old ≡ spaced_name }
    ensures { out.new ≡ name_saved old name.now }
{
    put_space(
        &mut out[0..SAVED_ROOT_SPACE],
        ROOT_LIMIT,
        wire_name::root_of(name),
    );
    put_space(
        &mut out[SAVED_ROOT_SPACE..SPACED_NAME],
        SAVED_OPAQUE,
        opaque_of(name),
    );
}

// The root's length is read once, and says where both parts are.
fn put_spaces(out: &mut [u8], name: &[u8])
    requires { length out.old ≡ spaced_name }
    ensures { out.new ≡ name_saved old name.now }
{
    let k = wire_name::root_length(name);
    let e = 4 + k;
    let f = 6 + k;
    if name.len() < f {
        put_cut(out, name);
        return;
    }
    put_space(&mut out[0..SAVED_ROOT_SPACE], ROOT_LIMIT, &name[4..e]);
    put_space(
        &mut out[SAVED_ROOT_SPACE..SPACED_NAME],
        SAVED_OPAQUE,
        &name[f..],
    );
}

pub fn put_name(out: &mut [u8], name: &[u8], second: bool)
    requires { length out.old ≡ name_size (form_of second) name.now }
    ensures { out.new ≡ name_saved (form_of second) name.now }
{
    if second {
        let room = fitting(name, NAME_LIMIT);
        put_space(out, room, name);
    } else {
        put_spaces(out, name);
    }
}
