// A message from a neighbour: read, and handed to the event of its kind.
#![tactic(auto)]

ghost use Rattle.std.specs.Prelude.{◌<◌, length};
ghost use Rattle.meaning.specs.Events.{finish};
ghost use Rattle.meaning.specs.Calls.{Does};
ghost use Rattle.refusals.specs.Refusals.{answer_of, count_of};
ghost use Rattle.memory.specs.Sizes.{Numbers, Names};
ghost use Rattle.memory.specs.Memory.{card_of};
ghost use Rattle.card_messages.specs.Messages.{on_read};
ghost use Rattle.meaning.specs.Card.{neighbour_count};

use refusals::Refusal;
use wire_reader::Kind;

// What a message that was read says, or its refusal.
pub fn on_read(
    numbers: &mut [u64],
    names: &mut [u8],
    n: usize,
    message: &[u8],
    out: &mut [u8],
) -> Result<usize, Refusal>
    requires { Numbers numbers.old × Names names.old × (n < neighbour_count) }
    ensures { let c = card_of numbers.old names.old in Does (finish (length out.old) c (on_read c n message.now))
        (answer_of result) (count_of result) out.old out.new (card_of numbers.new names.new) }
{
    let said = wire_reader::read_message(message)?;
    let name = &message[said.start..said.end];
    match said.kind {
        Kind::Mapping => event_mapping::map(numbers, names, n, name, said.label, out),
        Kind::Withdraw => event_withdraw::withdraw(numbers, names, n, name, said.label, out),
        Kind::Release => {
            event_withdraw::release(numbers, names, n, name, said.label)?;
            Ok(0)
        }
    }
}
