// The offsets of the modules, into two lent lists.
ghost use Rattle.std.specs.Prelude.{◌≡◌, length};
ghost use Rattle.octets.specs.Refusals.{told};
ghost use Rattle.configuration.specs.Reading.{input_offsets, output_offsets, offsets_of, list_by};

use crate::gathering::gather;
use crate::reading::read;
use configuration::Reading;
use octets::Refusal;

// Reads a configuration, and stores each module's offset on each side: where its bytes begin there,
// or would begin where it has none. A refusal stores nothing in either list.
#[tactic(auto, unfolding(configuration::specs::Reading::with_room))]
pub fn offsets(bytes: &[u8], inputs: &mut [u16], outputs: &mut [u16]) -> Result<Reading, Refusal>
    ensures answer { told result ≡ offsets_of bytes.now (length inputs.old) (length outputs.old) }
    ensures inputs { inputs.new ≡ list_by (offsets_of bytes.now (length inputs.old) (length outputs.old)) (input_offsets bytes.now) inputs.old }
    ensures outputs { outputs.new ≡ list_by (offsets_of bytes.now (length inputs.old) (length outputs.old)) (output_offsets bytes.now) outputs.old }
{
    let reading = read(bytes)?;
    if inputs.len() < reading.modules {
        return Err(Refusal::NoRoom);
    }
    if outputs.len() < reading.modules {
        return Err(Refusal::NoRoom);
    }
    // The second pass finds what the first did, and stores the offsets.
    gather(bytes, inputs, outputs)
}
