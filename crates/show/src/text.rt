// Words, numbers and bytes on standard output.
use std::io;

pub(crate) fn text(rt: &impl Print, words: &[u8]) -> io::Result<()> {
    rt.write_all(words)
}

pub(crate) fn line_end(rt: &impl Print) -> io::Result<()> {
    text(rt, b"\n")
}

pub(crate) fn decimal(rt: &impl Print, number: usize) -> io::Result<()> {
    print!(rt; "{number}")
}

// A number of one byte.
pub(crate) fn decimal8(rt: &impl Print, number: u8) -> io::Result<()> {
    decimal(rt, number as usize)
}

// The capital digit of the low four bits.
fn hex_digit(number: u8) -> u8 {
    let digit = number % 16;
    if digit < 10 {
        b'0' + digit
    } else {
        b'A' + (digit - 10)
    }
}

// A space and the byte's two digits.
pub(crate) fn hex(rt: &impl Print, byte: u8) -> io::Result<()> {
    text(rt, &[b' ', hex_digit(byte / 16), hex_digit(byte)])
}

// Each byte behind a space.
pub(crate) fn hex_bytes(rt: &impl Print, bytes: &[u8]) -> io::Result<()> {
    for byte in bytes {
        hex(rt, *byte)?;
    }
    Ok(())
}

// A number's four digits, with no space.
pub(crate) fn hex16(rt: &impl Print, number: u16) -> io::Result<()> {
    let high = (number / 256) as u8;
    let low = (number % 256) as u8;
    text(
        rt,
        &[
            hex_digit(high / 16),
            hex_digit(high),
            hex_digit(low / 16),
            hex_digit(low),
        ],
    )
}
