// The lines that several services have: a number, bytes, an ident number, a flag, groups.
ghost use Rattle.std.specs.Prelude.{◌<◌};

use crate::text::{decimal, hex_bytes, hex16, line_end, text};
use std::io;

pub(crate) fn count_line(rt: &impl Print, name: &[u8], count: usize) -> io::Result<()> {
    text(rt, name)?;
    text(rt, b" ")?;
    decimal(rt, count)?;
    line_end(rt)
}

pub(crate) fn number_line(rt: &impl Print, name: &[u8], number: u8) -> io::Result<()> {
    count_line(rt, name, number as usize)
}

// Nothing where there are no bytes.
pub(crate) fn bytes_line(rt: &impl Print, name: &[u8], bytes: &[u8]) -> io::Result<()> {
    if 0 < bytes.len() {
        text(rt, name)?;
        hex_bytes(rt, bytes)?;
        line_end(rt)?;
    }
    Ok(())
}

pub(crate) fn ident_line(rt: &impl Print, ident: u16) -> io::Result<()> {
    text(rt, b"ident ")?;
    hex16(rt, ident)?;
    line_end(rt)
}

fn is_set(byte: u8, bit: u8) -> bool
    requires { bit < 8 }
{
    (byte >> bit) % 2 == 1
}

// Nothing where the bit is not set.
pub(crate) fn flag_line(rt: &impl Print, byte: u8, bit: u8, name: &[u8]) -> io::Result<()>
    requires { bit < 8 }
{
    if is_set(byte, bit) {
        text(rt, b"flag ")?;
        text(rt, name)?;
        line_end(rt)?;
    }
    Ok(())
}

// Bit 0 is group 1.
fn group(rt: &impl Print, groups: u8, bit: u8) -> io::Result<()>
    requires { bit < 8 }
{
    if is_set(groups, bit) {
        text(rt, b" ")?;
        decimal(rt, bit as usize + 1)?;
    }
    Ok(())
}

pub(crate) fn group_line(rt: &impl Print, groups: u8) -> io::Result<()> {
    if groups == 0 {
        return text(rt, b"no group\n");
    }
    text(rt, b"groups")?;
    for bit in 0..8 {
        group(rt, groups, bit)?;
    }
    line_end(rt)
}
