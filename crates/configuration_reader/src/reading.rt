// Reading a whole configuration: its modules are counted, and their bytes on each side added up.
ghost use Rattle.std.specs.Prelude.{◌≡◌};
ghost use Rattle.octets.specs.Refusals.{told};
ghost use Rattle.configuration.specs.Reading.{read_of};

use crate::gathering::gather;
use configuration::Reading;
use octets::Refusal;

// Reads a configuration: all of the lent slice is one.
#[tactic(auto, unfolding(configuration::specs::Reading::read_of, configuration::specs::Reading::within_limit))]
pub fn read(bytes: &[u8]) -> Result<Reading, Refusal>
    ensures { told result ≡ read_of bytes.now }
{
    if bytes.len() < 1 {
        return Err(Refusal::DataLength);
    }
    if 244 < bytes.len() {
        return Err(Refusal::DataLength);
    }
    let reading = gather(bytes, &mut [], &mut [])?;
    if 244 < reading.inputs {
        return Err(Refusal::OverLimit);
    }
    if 244 < reading.outputs {
        return Err(Refusal::OverLimit);
    }
    Ok(reading)
}
