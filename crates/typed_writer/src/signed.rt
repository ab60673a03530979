// The patterns of signed numbers, in two's complement. A cast must lose nothing, so a negative number
// goes by its complement, which is not negative.
ghost use Rattle.std.specs.Prelude.{◌≡◌};
ghost use Rattle.std.specs.Int.{w8, w16, w32};
ghost use Rattle.std.proofs.Common.{of_z};

pub(crate) fn pattern8(number: i8) -> u8
    ensures { result ≡ of_z w8 number }
{
    if number < 0 {
        0xFF - (!number as u8)
    } else {
        number as u8
    }
}

pub(crate) fn pattern16(number: i16) -> u16
    ensures { result ≡ of_z w16 number }
{
    if number < 0 {
        0xFFFF - (!number as u16)
    } else {
        number as u16
    }
}

pub(crate) fn pattern32(number: i32) -> u32
    ensures { result ≡ of_z w32 number }
{
    if number < 0 {
        0xFFFF_FFFF - (!number as u32)
    } else {
        number as u32
    }
}
