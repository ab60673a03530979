// What the answers to services and to their data have in common: the refusal number; or 0 and the
// fields, and after = the bytes that writing makes of them again. What a walk finds stands between the
// two, also where the data is refused: an item after each bar, then a point for the end, or ! and the
// refusal number.
use crate::text::{byte_field, decimal, hex_fields, text};
use octets::Refusal;
use std::io;

pub(crate) fn refused(rt: &impl Print, refusal: Refusal) -> io::Result<()> {
    decimal(rt, refusal.number() as usize)
}

pub(crate) fn walk_refused(rt: &impl Print, refusal: Refusal) -> io::Result<()> {
    text(rt, b" !")?;
    byte_field(rt, refusal.number())
}

// What was written to out.
pub(crate) fn again(
    rt: &impl Print,
    written: Result<usize, Refusal>,
    out: &[u8],
) -> io::Result<()> {
    text(rt, b" =")?;
    match written {
        Ok(n) => hex_fields(rt, octets::part(out, 0, n)),
        Err(refusal) => byte_field(rt, refusal.number()),
    }
}

// What a writer answered that was given fields: the refusal number; or 0, and after = the bytes that it
// stored.
pub(crate) fn stored(
    rt: &impl Print,
    written: Result<usize, Refusal>,
    out: &[u8],
) -> io::Result<()> {
    match written {
        Ok(n) => {
            text(rt, b"0 =")?;
            hex_fields(rt, octets::part(out, 0, n))?;
        }
        Err(refusal) => refused(rt, refusal)?,
    }
    text(rt, b"\n")
}

// What stands behind the first n bytes.
pub(crate) fn behind(bytes: &[u8], n: usize) -> &[u8] {
    bytes.get(n..).unwrap_or(&[])
}
