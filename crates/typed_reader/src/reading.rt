// Reading a typed value.
ghost use Rattle.std.specs.Prelude.{◌≡◌, ◌+◌, length, drop};
ghost use Rattle.octets.specs.Refusals.{told};
ghost use Rattle.octets.specs.Number.{number_of};
ghost use Rattle.typed.specs.Value.{floating, kind_of, width_of, value_of};
ghost use Rattle.typed.specs.Reading.{good_code, good_boolean, read_of};

use crate::signed::{signed8, signed16, signed32};
use float::Floating;
use octets::Refusal;
use typed::{
    BOOLEAN, FLOATING_POINT, SIGNED_8, SIGNED_16, SIGNED_32, UNSIGNED_8, UNSIGNED_16, UNSIGNED_32,
    Value,
};

// Codes 1 to 8.
fn good_code(code: u8) -> bool
    ensures { result ≡ good_code code }
{
    1 <= code && code <= FLOATING_POINT
}

// How many bytes follow a code.
#[tactic(auto, unfolding(typed::specs::Value::kind_of))]
fn width(code: u8) -> usize
    ensures { result ≡ width_of code }
{
    match code {
        BOOLEAN => 1,
        SIGNED_8 => 1,
        SIGNED_16 => 2,
        SIGNED_32 => 4,
        UNSIGNED_8 => 1,
        UNSIGNED_16 => 2,
        _ => 4,
    }
}

// The byte of a Boolean is 00 or FF; of any other value it is any.
fn good_boolean(code: u8, first: u8) -> bool
    ensures { result ≡ good_boolean code first }
{
    code != BOOLEAN || first == 0 || first == 0xFF
}

// The number of the two bytes behind the code.
fn word(bytes: &[u8]) -> u16
    requires { length bytes.now ≡ 3 }
    ensures { result ≡ number_of (drop 1 bytes.now) }
{
    octets::join16(bytes[1], bytes[2])
}

// The number of the four bytes behind the code.
fn long(bytes: &[u8]) -> u32
    requires { length bytes.now ≡ 5 }
    ensures { result ≡ number_of (drop 1 bytes.now) }
{
    octets::join32(bytes[1], bytes[2], bytes[3], bytes[4])
}

// The floating-point value of a pattern.
#[tactic(auto, unfolding(typed::specs::Value::value_of))]
fn float(pattern: u32) -> Value
    ensures { result ≡ value_of floating pattern }
{
    match float::floating_of(pattern) {
        Floating::Number(number) => Value::Float(number),
        Floating::Nan(bits) => Value::Nan(bits),
    }
}

// The value of a code and the bytes behind it.
#[tactic(auto, unfolding(typed::specs::Value::kind_of, typed::specs::Value::value_of))]
fn value(code: u8, bytes: &[u8]) -> Value
    requires { length bytes.now ≡ 1 + width_of code }
    ensures { result ≡ value_of (kind_of code) (number_of (drop 1 bytes.now)) }
{
    match code {
        BOOLEAN => Value::Boolean(bytes[1] == 0xFF),
        SIGNED_8 => Value::I8(signed8(bytes[1])),
        SIGNED_16 => Value::I16(signed16(word(bytes))),
        SIGNED_32 => Value::I32(signed32(long(bytes))),
        UNSIGNED_8 => Value::U8(bytes[1]),
        UNSIGNED_16 => Value::U16(word(bytes)),
        UNSIGNED_32 => Value::U32(long(bytes)),
        _ => float(long(bytes)),
    }
}

// Reads a typed value: all of the lent slice is one.
#[tactic(auto, unfolding(typed::specs::Reading::read_of))]
pub fn read(bytes: &[u8]) -> Result<Value, Refusal>
    ensures { told result ≡ read_of bytes.now }
{
    if bytes.len() == 0 {
        return Err(Refusal::DataLength);
    }
    let code = bytes[0];
    if !good_code(code) {
        return Err(Refusal::TypedCode);
    }
    let size = 1 + width(code);
    if bytes.len() != size {
        return Err(Refusal::DataLength);
    }
    if !good_boolean(code, bytes[1]) {
        return Err(Refusal::TypedCode);
    }
    Ok(value(code, bytes))
}
