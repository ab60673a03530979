// The values and their codes.
pub const BOOLEAN: u8 = 1;

pub const SIGNED_8: u8 = 2;

pub const SIGNED_16: u8 = 3;

pub const SIGNED_32: u8 = 4;

pub const UNSIGNED_8: u8 = 5;

pub const UNSIGNED_16: u8 = 6;

pub const UNSIGNED_32: u8 = 7;

pub const FLOATING_POINT: u8 = 8;

// One case for each code, in their order; the last two share one. A floating-point value keeps its
// 32 bits exactly: a NaN's pattern, which no `f32` can be had of, is kept as a number.
#[derive(Drop)]
pub enum Value {
    Boolean(bool),
    I8(i8),
    I16(i16),
    I32(i32),
    U8(u8),
    U16(u16),
    U32(u32),
    Float(f32),
    Nan(u32),
}
