// Signed numbers of their patterns, in two's complement. A cast must lose nothing, so the pattern of a
// negative number goes by its complement.
ghost use Rattle.std.specs.Prelude.{◌≡◌};
ghost use Rattle.std.specs.Int.{w8, w16, w32};
ghost use Rattle.std.proofs.Common.{to_z};

pub(crate) fn signed8(pattern: u8) -> i8
    ensures { result ≡ to_z w8 pattern }
{
    if pattern < 0x80 {
        pattern as i8
    } else {
        !((0xFF - pattern) as i8)
    }
}

pub(crate) fn signed16(pattern: u16) -> i16
    ensures { result ≡ to_z w16 pattern }
{
    if pattern < 0x8000 {
        pattern as i16
    } else {
        !((0xFFFF - pattern) as i16)
    }
}

pub(crate) fn signed32(pattern: u32) -> i32
    ensures { result ≡ to_z w32 pattern }
{
    if pattern < 0x8000_0000 {
        pattern as i32
    } else {
        !((0xFFFF_FFFF - pattern) as i32)
    }
}
