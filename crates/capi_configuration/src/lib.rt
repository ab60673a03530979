// Configuration through the C interface: the offsets of its modules, and its totals.
#![tactic(auto)]

ghost use Rattle.std.specs.Prelude.{◌≡◌};
ghost use Rattle.capi_configuration.specs.Configuration.{offsets_of, refusal_of, totals_after, inputs_after, outputs_after};

// Reads a configuration, and stores the offsets of its modules and its totals.
#[unsafe(no_mangle)]
pub extern "C" fn rabtunex_configuration_offsets(
    bytes: &[u8],
    inputs: &mut [u16],
    outputs: &mut [u16],
    totals: &mut [usize; 3],
) -> u8
    ensures refusal { result ≡ refusal_of (offsets_of bytes.now inputs.old outputs.old) }
    ensures inputs { inputs.new ≡ inputs_after bytes.now inputs.old outputs.old }
    ensures outputs { outputs.new ≡ outputs_after bytes.now inputs.old outputs.old }
    ensures totals { totals.new ≡ totals_after (offsets_of bytes.now inputs.old outputs.old) totals.old }
{
    match configuration_reader::offsets(bytes, inputs, outputs) {
        Ok(reading) => {
            *totals = [reading.modules, reading.inputs, reading.outputs];
            0
        }
        Err(refusal) => refusal.number(),
    }
}
