// Writing a typed value.
ghost use Rattle.std.specs.Prelude.{◌≡◌, ◌∷◌, length};
ghost use Rattle.octets.specs.Refusals.{told};
ghost use Rattle.octets.specs.Number.{bytes_of};
ghost use Rattle.octets.specs.Front.{fine, answer_by, held_by};
ghost use Rattle.typed.specs.Value.{boolean_byte};
ghost use Rattle.typed.specs.Writing.{verdict_of, bytes_for};

use crate::signed::{pattern8, pattern16, pattern32};
use octets::Refusal;
use typed::{
    BOOLEAN, FLOATING_POINT, SIGNED_8, SIGNED_16, SIGNED_32, UNSIGNED_8, UNSIGNED_16, UNSIGNED_32,
    Value,
};

// The byte of a Boolean.
fn boolean_byte(yes: bool) -> u8
    ensures { result ≡ boolean_byte yes }
{
    if yes { 0xFF } else { 0 }
}

// Writes a code and a pattern of one byte.
#[tactic(auto, unfolding(octets::specs::Front::answer_by, octets::specs::Front::held_by))]
fn write8(code: u8, pattern: u8, out: &mut [u8]) -> Result<usize, Refusal>
    ensures answer { told result ≡ answer_by fine (code ∷ bytes_of 1 pattern) (length out.old) }
    ensures bytes { out.new ≡ held_by fine (code ∷ bytes_of 1 pattern) out.old }
{
    if out.len() < 2 {
        return Err(Refusal::NoRoom);
    }
    out[0] = code;
    out[1] = pattern;
    Ok(2)
}

// Writes a code and a pattern of two bytes.
#[tactic(auto, unfolding(octets::specs::Front::answer_by, octets::specs::Front::held_by))]
fn write16(code: u8, pattern: u16, out: &mut [u8]) -> Result<usize, Refusal>
    ensures answer { told result ≡ answer_by fine (code ∷ bytes_of 2 pattern) (length out.old) }
    ensures bytes { out.new ≡ held_by fine (code ∷ bytes_of 2 pattern) out.old }
{
    if out.len() < 3 {
        return Err(Refusal::NoRoom);
    }
    out[0] = code;
    Ok(1 + octets::store16(pattern, &mut out[1..]))
}

// Writes a code and a pattern of four bytes.
#[tactic(auto, unfolding(octets::specs::Front::answer_by, octets::specs::Front::held_by))]
fn write32(code: u8, pattern: u32, out: &mut [u8]) -> Result<usize, Refusal>
    ensures answer { told result ≡ answer_by fine (code ∷ bytes_of 4 pattern) (length out.old) }
    ensures bytes { out.new ≡ held_by fine (code ∷ bytes_of 4 pattern) out.old }
{
    if out.len() < 5 {
        return Err(Refusal::NoRoom);
    }
    out[0] = code;
    Ok(1 + octets::store32(pattern, &mut out[1..]))
}

// Writes a floating-point value. A NaN that is given as an `f32` has no pattern to write.
#[tactic(auto, unfolding(octets::specs::Front::answer_by, octets::specs::Front::held_by))]
fn write_float(number: f32, out: &mut [u8]) -> Result<usize, Refusal>
    ensures answer { told result ≡ answer_by (verdict_of (Value.Float number)) (bytes_for (Value.Float number)) (length out.old) }
    ensures bytes { out.new ≡ held_by (verdict_of (Value.Float number)) (bytes_for (Value.Float number)) out.old }
{
    let bits = float::pattern_of(number).ok_or(Refusal::Field)?;
    write32(FLOATING_POINT, bits, out)
}

// Writes a NaN's pattern. Bits that are a number's would not be read back as a NaN's.
#[tactic(auto, unfolding(octets::specs::Front::answer_by, octets::specs::Front::held_by))]
fn write_nan(bits: u32, out: &mut [u8]) -> Result<usize, Refusal>
    ensures answer { told result ≡ answer_by (verdict_of (Value.Nan bits)) (bytes_for (Value.Nan bits)) (length out.old) }
    ensures bytes { out.new ≡ held_by (verdict_of (Value.Nan bits)) (bytes_for (Value.Nan bits)) out.old }
{
    if !float::is_nan_pattern(bits) {
        return Err(Refusal::Field);
    }
    write32(FLOATING_POINT, bits, out)
}

// Writes a typed value.
pub fn write(value: Value, out: &mut [u8]) -> Result<usize, Refusal>
    ensures answer { told result ≡ answer_by (verdict_of value) (bytes_for value) (length out.old) }
    ensures bytes { out.new ≡ held_by (verdict_of value) (bytes_for value) out.old }
{
    match value {
        Value::Boolean(yes) => write8(BOOLEAN, boolean_byte(yes), out),
        Value::I8(z) => write8(SIGNED_8, pattern8(z), out),
        Value::I16(z) => write16(SIGNED_16, pattern16(z), out),
        Value::I32(z) => write32(SIGNED_32, pattern32(z), out),
        Value::U8(n) => write8(UNSIGNED_8, n, out),
        Value::U16(n) => write16(UNSIGNED_16, n, out),
        Value::U32(n) => write32(UNSIGNED_32, n, out),
        Value::Float(x) => write_float(x, out),
        Value::Nan(bits) => write_nan(bits, out),
    }
}
