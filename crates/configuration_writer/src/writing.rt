// Writing a module from its fields, and a whole configuration from the bytes of its modules.
ghost use Rattle.std.specs.Prelude.{◌≡◌, true, [], ◌∷◌, ◌++◌, ◌≤◌, length};
ghost use Rattle.octets.specs.Refusals.{told};
ghost use Rattle.octets.specs.Front.{AtFront, answer_by, held_by};
ghost use Rattle.configuration.specs.Writing.{presence, side_byte, good_units, good_side, good_general, either_side, side_bytes, general_byte, general_verdict, special_bytes, special_verdict, module_verdict, module_bytes, verdict_of};

use configuration::{Identifier, Module, Side};
use configuration_reader::read;
use octets::Refusal;

// How many bytes the length of a side takes in the special format, which is also its bit.
fn present(side: Side) -> u8
    ensures { result ≡ presence side }
{
    match side {
        Side::Absent => 0,
        Side::Present {
            units: _,
            words: _,
            consistent: _,
        } => 1,
    }
}

fn good_units(most: u8, units: u8) -> bool
    ensures { result ≡ good_units most units }
{
    (1..=most).contains(&units)
}

fn good_side(most: u8, side: Side) -> bool
    ensures { result ≡ good_side most side }
{
    match side {
        Side::Absent => true,
        Side::Present {
            units,
            words: _,
            consistent: _,
        } => good_units(most, units),
    }
}

// Whether one byte can say both sides: there is one, or two that are alike.
#[tactic(auto, unfolding(configuration::specs::Writing::good_general))]
fn good_general(input: Side, output: Side) -> bool
    ensures { result ≡ good_general input output }
{
    match input {
        Side::Absent => match output {
            Side::Absent => false,
            Side::Present {
                units,
                words: _,
                consistent: _,
            } => good_units(16, units),
        },
        Side::Present {
            units,
            words,
            consistent,
        } => match output {
            Side::Absent => good_units(16, units),
            Side::Present {
                units: n,
                words: w,
                consistent: c,
            } => n == units && w == words && c == consistent && good_units(16, units),
        },
    }
}

// The bits that the length of a side takes in its byte.
fn side_byte(side: Side) -> u8
    requires { good_side 64 side ≡ true }
    ensures { result ≡ side_byte side }
{
    match side {
        Side::Absent => 0,
        Side::Present {
            units,
            words,
            consistent,
        } => units - 1 + 64 * words as u8 + 128 * consistent as u8,
    }
}

// The side that is there, input's where both are.
fn either(input: Side, output: Side) -> Side
    ensures { result ≡ either_side input output }
{
    match input {
        Side::Absent => output,
        Side::Present {
            units: _,
            words: _,
            consistent: _,
        } => input,
    }
}

fn general_byte(input: Side, output: Side) -> u8
    requires { good_general input output ≡ true }
    ensures { result ≡ general_byte input output }
{
    let side = either(input, output);
    16 * present(input) + 32 * present(output) + side_byte(side)
}

#[tactic(auto, unfolding(configuration::specs::Writing::general_verdict, octets::specs::Front::answer_by, octets::specs::Front::held_by))]
fn write_general(input: Side, output: Side, vendor: &[u8], out: &mut [u8]) -> Result<usize, Refusal>
    ensures answer { told result ≡ answer_by (general_verdict input output vendor.now) (general_byte input output ∷ []) (length out.old) }
    ensures bytes { out.new ≡ held_by (general_verdict input output vendor.now) (general_byte input output ∷ []) out.old }
{
    if 0 < vendor.len() {
        return Err(Refusal::DataLength);
    }
    if !good_general(input, output) {
        return Err(Refusal::DataByte);
    }
    if out.len() < 1 {
        return Err(Refusal::NoRoom);
    }
    out[0] = general_byte(input, output);
    Ok(1)
}

fn put_side(side: Side, out: &mut [u8]) -> usize
    requires { (good_side 64 side ≡ true) × (length (side_bytes side) ≤ length out.old) }
    ensures { AtFront (side_bytes side) out.old out.new result }
{
    match side {
        Side::Absent => 0,
        Side::Present {
            units: _,
            words: _,
            consistent: _,
        } => {
            out[0] = side_byte(side);
            1
        }
    }
}

// Stores input's length byte and the vendor bytes.
fn put_input(input: Side, vendor: &[u8], out: &mut [u8]) -> usize
    requires { (good_side 64 input ≡ true) × (length (side_bytes input ++ vendor.now) ≤ length out.old) }
    ensures { AtFront (side_bytes input ++ vendor.now) out.old out.new result }
{
    let n = put_side(input, out);
    octets::store_behind(n, vendor, out)
}

// Stores output's length byte and what follows it.
fn put_output(output: Side, input: Side, vendor: &[u8], out: &mut [u8]) -> usize
    requires { (good_side 64 output ≡ true) × (good_side 64 input ≡ true) × (length (side_bytes output ++ (side_bytes input ++ vendor.now)) ≤ length out.old) }
    ensures { AtFront (side_bytes output ++ (side_bytes input ++ vendor.now)) out.old out.new result }
{
    let n = put_side(output, out);
    n + put_input(input, vendor, &mut out[n..])
}

// Stores a whole module of the special format.
fn put_special(input: Side, output: Side, vendor: &[u8], out: &mut [u8]) -> usize
    requires { (good_side 64 output ≡ true) × (good_side 64 input ≡ true) × (length vendor.now ≤ 14) × (length (special_bytes input output vendor.now) ≤ length out.old) }
    ensures { AtFront (special_bytes input output vendor.now) out.old out.new result }
{
    out[0] = 128 * present(output) + 64 * present(input) + vendor.len() as u8;
    1 + put_output(output, input, vendor, &mut out[1..])
}

#[tactic(auto, using(configuration::proofs::Lemmas::Sides::special_length_lem), unfolding(configuration::specs::Writing::special_verdict, octets::specs::Front::answer_by, octets::specs::Front::held_by))]
fn write_special(input: Side, output: Side, vendor: &[u8], out: &mut [u8]) -> Result<usize, Refusal>
    ensures answer { told result ≡ answer_by (special_verdict input output vendor.now) (special_bytes input output vendor.now) (length out.old) }
    ensures bytes { out.new ≡ held_by (special_verdict input output vendor.now) (special_bytes input output vendor.now) out.old }
{
    if 15 < vendor.len() {
        return Err(Refusal::DataByte);
    }
    if vendor.len() == 15 {
        return Err(Refusal::VendorCount);
    }
    if !good_side(64, output) {
        return Err(Refusal::DataByte);
    }
    if !good_side(64, input) {
        return Err(Refusal::DataByte);
    }
    let front = 1 + present(output) + present(input);
    if out.len() < front as usize + vendor.len() {
        return Err(Refusal::NoRoom);
    }
    Ok(put_special(input, output, vendor, out))
}

// Writes one module from its fields and vendor bytes.
pub fn write_module(fields: Module, vendor: &[u8], out: &mut [u8]) -> Result<usize, Refusal>
    ensures answer { told result ≡ answer_by (module_verdict fields vendor.now) (module_bytes fields vendor.now) (length out.old) }
    ensures bytes { out.new ≡ held_by (module_verdict fields vendor.now) (module_bytes fields vendor.now) out.old }
{
    let identifier = fields.identifier;
    let input = fields.input;
    let output = fields.output;
    match identifier {
        Identifier::General => write_general(input, output, vendor, out),
        Identifier::Special => write_special(input, output, vendor, out),
    }
}

// Writes a whole configuration from its modules' bytes, one after the other: what reading would refuse
// is refused with the same number.
#[tactic(auto, unfolding(octets::specs::Front::answer_by, octets::specs::Front::held_by, octets::specs::Front::front_of, octets::specs::Front::count_of))]
pub fn write(modules: &[u8], out: &mut [u8]) -> Result<usize, Refusal>
    ensures answer { told result ≡ answer_by (verdict_of modules.now) modules.now (length out.old) }
    ensures bytes { out.new ≡ held_by (verdict_of modules.now) modules.now out.old }
{
    read(modules)?;
    if out.len() < modules.len() {
        return Err(Refusal::NoRoom);
    }
    Ok(octets::store(modules, out))
}
