// The calls for C of names inside names: include/card.h declares them, `firmware_layers_c` exports them. How many layers a name has and where each
// lies, which are read from the name alone; a name wrapped in a layer, and unwrapped. No card is lent.
// Kept: a number handed back beside a lent answer, in place of a Result, is the C interface.
#![tactic(auto)]

ghost use Rattle.std.specs.Prelude.{◌≡◌, ◌∷◌, ◌<◌, length};
ghost use Rattle.meaning_layers.specs.Layers.{read, wrap, unwrap};
ghost use Rattle.meaning_layers.specs.LayerCalls.{Writes, layer_in, lengths_of};
ghost use Rattle.meaning_layers.specs.InnerStart.{layer_count};
ghost use Rattle.refusals.specs.Refusals.{answer_of as told_of, count_of as told_count_of};
ghost use Rattle.firmware_layers.specs.Fields.{answer_of, count_of, layer_answer, layer_fields, fields_of};

use refusals::Refusal;

// ---- reading

fn count_layers(name: &[u8]) -> Result<usize, Refusal>
    ensures { (told_of result ≡ answer_of (read name.now)) × (told_count_of result ≡ count_of (read name.now)) }
{
    wire_name::check_element(name)?;
    Ok(wire_layers::layer_count(name))
}

pub fn card_layers(name: &[u8], answer: &mut u32) -> usize
    ensures { (answer.new ≡ answer_of (read name.now)) × (result ≡ count_of (read name.now)) }
{
    refusals::tell(count_layers(name), answer)
}

// The refusals 6, 7 and 18; and 22 where no layer lies so far down.
fn check_layer(name: &[u8], down: usize) -> Result<(), Refusal>
    ensures { (told_of result ≡ layer_answer down (read name.now)) × (told_of result ≡ 0 → down < layer_count name.now) }
{
    wire_name::check_element(name)?;
    if wire_layers::layer_count(name) <= down {
        return Err(Refusal::LastLayer);
    }
    Ok(())
}

// What a layer adds, by lengths in the octets of its name, which begin at `start`.
fn fields_of(layer: &[u8], start: usize) -> [u64; 4]
    ensures { result ≡ start ∷ layer_fields layer.now }
{
    let root = wire_name::root_of(layer).len();
    let inner = wire_layers::inner_start(layer);
    if inner == 0 {
        return [start as u64, root as u64, 0, 0];
    }
    let eight = wire_layers::eight_of(layer).len();
    [start as u64, root as u64, eight as u64, inner as u64]
}

pub fn card_layer(name: &[u8], down: usize, fields: &mut [u64; 4]) -> u32
    ensures { (result ≡ layer_answer down (read name.now)) × (fields.new ≡ fields_of down name.now fields.old) }
{
    if let Err(refusal) = check_layer(name, down) {
        return refusal.number();
    }
    let start = wire_layers::layer_start(name, down);
    *fields = fields_of(&name[start..], start);
    0
}

// ---- wrapping and unwrapping

pub fn card_wrap(root: &[u8], eight: &[u8], name: &[u8], out: &mut [u8], answer: &mut u32) -> usize
    ensures { let w = wrap (length out.old) root.now eight.now name.now in
        Writes w.answer w.octets answer.new result out.old out.new }
{
    wire_wraps::wrap_core(root, eight, name, out, answer)
}

pub fn card_unwrap(name: &[u8], out: &mut [u8], lengths: &mut [u64; 2], answer: &mut u32) -> usize
    ensures { let u = unwrap (length out.old) name.now in
        Writes u.answer u.octets answer.new result out.old out.new
        × (layer_in name.now lengths.new ≡ u.layer) × (lengths.new ≡ lengths_of u.layer) }
{
    wire_wraps::unwrap_core(name, out, lengths, answer)
}
