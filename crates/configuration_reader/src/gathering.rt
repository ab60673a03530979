// One walk over all modules: what they add up to, and where each begins.
ghost use Rattle.std.specs.Prelude.{◌≡◌, ◌≤◌, length, set};
ghost use Rattle.octets.specs.Refusals.{told};
ghost use Rattle.std.proofs.lemmas.List.Edits.{sets};
ghost use Rattle.configuration.specs.Walk.{walk_of};
ghost use Rattle.configuration.specs.Reading.{totals_of, input_offsets, output_offsets};

use configuration::{Position, Reading, Step, side_length};
use configuration_walk::next;
use octets::Refusal;

// Stores at place n, where the list has one.
fn put(list: &mut [u16], n: usize, offset: u16)
    ensures { list.new ≡ set list.old n offset }
{
    if n < list.len() {
        list[n] = offset;
    }
}

// Counts the modules, adds up their bytes on each side, and stores the offsets that the lists have room for: none in an
// empty list. So it serves both passes, the one that may refuse and the one that stores, and `next` has one caller,
// into which it is compiled. The bound keeps the sums small.
pub(crate) fn gather(s: &[u8], inputs: &mut [u16], outputs: &mut [u16]) -> Result<Reading, Refusal>
    requires { length s.now ≤ 244 }
    ensures answer { told result ≡ totals_of 0 0 0 (walk_of s.now 0) }
    ensures inputs { inputs.new ≡ sets inputs.old 0 (input_offsets s.now) }
    ensures outputs { outputs.new ≡ sets outputs.old 0 (output_offsets s.now) }
{
    let mut at = 0;
    let mut n = 0;
    let mut i = 0;
    let mut o = 0;
    while let Step::Module {
        module,
        start: _,
        len: _,
        next,
    } = next(s, Position { at })?
    {
        put(inputs, n, i as u16);
        put(outputs, n, o as u16);
        n += 1;
        i += side_length(module.input);
        o += side_length(module.output);
        at = next.at;
    }
    Ok(Reading {
        modules: n,
        inputs: i,
        outputs: o,
    })
}
