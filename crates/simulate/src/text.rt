// Words, numbers and bytes on standard output.
use std::io;

pub(crate) fn text(rt: &impl Print, words: &[u8]) -> io::Result<()> {
    rt.write_all(words)
}

pub(crate) fn decimal(rt: &impl Print, number: u16) -> io::Result<()> {
    print!(rt; "{number}")
}

// A number of one byte.
pub(crate) fn decimal8(rt: &impl Print, number: u8) -> io::Result<()> {
    decimal(rt, number as u16)
}

// The capital digit of the low four bits.
fn hex_digit(number: u8) -> u8 {
    let digit = number % 16;
    if digit < 10 {
        b'0' + digit
    } else {
        b'A' + (digit - 10)
    }
}

// A space and the byte's two digits.
pub(crate) fn hex(rt: &impl Print, byte: u8) -> io::Result<()> {
    text(rt, &[b' ', hex_digit(byte / 16), hex_digit(byte)])
}
