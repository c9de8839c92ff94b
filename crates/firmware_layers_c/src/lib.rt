// The exports of `firmware_layers` to C: include/card.h declares them. Each calls the library's function by its name, and states its clauses again.
#![tactic(auto)]

ghost use Rattle.std.specs.Prelude.{◌≡◌, length};
ghost use Rattle.meaning_layers.specs.Layers.{read, wrap, unwrap};
ghost use Rattle.meaning_layers.specs.LayerCalls.{Writes, layer_in, lengths_of};
ghost use Rattle.firmware_layers.specs.Fields.{answer_of, count_of, layer_answer, fields_of};

#[unsafe(no_mangle)]
pub extern "C" fn card_layers(name: &[u8], answer: &mut u32) -> usize
    ensures { (answer.new ≡ answer_of (read name.now)) × (result ≡ count_of (read name.now)) }
{
    firmware_layers::card_layers(name, answer)
}

#[unsafe(no_mangle)]
pub extern "C" fn card_layer(name: &[u8], down: usize, fields: &mut [u64; 4]) -> u32
    ensures { (result ≡ layer_answer down (read name.now)) × (fields.new ≡ fields_of down name.now fields.old) }
{
    firmware_layers::card_layer(name, down, fields)
}

#[unsafe(no_mangle)]
pub extern "C" fn card_wrap(
    root: &[u8],
    eight: &[u8],
    name: &[u8],
    out: &mut [u8],
    answer: &mut u32,
) -> usize
    ensures { let w = wrap (length out.old) root.now eight.now name.now in
        Writes w.answer w.octets answer.new result out.old out.new }
{
    firmware_layers::card_wrap(root, eight, name, out, answer)
}

#[unsafe(no_mangle)]
pub extern "C" fn card_unwrap(
    name: &[u8],
    out: &mut [u8],
    lengths: &mut [u64; 2],
    answer: &mut u32,
) -> usize
    ensures { let u = unwrap (length out.old) name.now in
        Writes u.answer u.octets answer.new result out.old out.new
        × (layer_in name.now lengths.new ≡ u.layer) × (lengths.new ≡ lengths_of u.layer) }
{
    firmware_layers::card_unwrap(name, out, lengths, answer)
}
