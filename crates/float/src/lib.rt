// Patterns of 32 bits and the floating-point numbers that they stand for. The language has one NaN
// and no way from a NaN's pattern to an `f32` or back, so such a pattern stays a number here.
#![tactic(auto)]

ghost use Rattle.std.specs.Prelude.{◌≡◌};
ghost use Rattle.float.specs.Float.{is_nan_pattern, floating_of, pattern_of};

// What a pattern of 32 bits stands for: a number, infinities and zeros of either sign included, or a
// NaN, with the 32 bits as they are.
#[derive(Drop)]
pub enum Floating {
    Number(f32),
    Nan(u32),
}

// Without its sign, the pattern of a NaN is above that of infinity.
pub fn is_nan_pattern(bits: u32) -> bool
    ensures { result ≡ is_nan_pattern bits }
{
    0x7F80_0000 < bits % 0x8000_0000
}

// What a pattern stands for.
pub fn floating_of(bits: u32) -> Floating
    ensures { result ≡ floating_of bits }
{
    if is_nan_pattern(bits) {
        return Floating::Nan(bits);
    }
    Floating::Number(f32::from_bits(bits))
}

// The pattern of a number. A NaN alone differs from itself.
pub fn pattern_of(number: f32) -> Option<u32>
    ensures { result ≡ pattern_of number }
{
    if number != number {
        return None;
    }
    Some(f32::to_bits(number))
}
