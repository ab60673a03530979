// Words, numbers and bytes on standard output. Each is written in one piece: a call for every digit
// would take most of the time.
use std::io;

pub(crate) fn text(rt: &impl Print, words: &[u8]) -> io::Result<()> {
    rt.write_all(words)
}

pub(crate) fn decimal(rt: &impl Print, number: usize) -> io::Result<()> {
    print!(rt; "{number}")
}

// A space and the number.
pub(crate) fn field(rt: &impl Print, number: usize) -> io::Result<()> {
    print!(rt; " {number}")
}

pub(crate) fn byte_field(rt: &impl Print, byte: u8) -> io::Result<()> {
    field(rt, byte as usize)
}

pub(crate) fn flag_field(rt: &impl Print, flag: bool) -> io::Result<()> {
    if flag { field(rt, 1) } else { field(rt, 0) }
}

pub(crate) fn word_field(rt: &impl Print, word: u16) -> io::Result<()> {
    field(rt, word as usize)
}

// Where a part of the bytes stands.
pub(crate) fn place(rt: &impl Print, start: usize, len: usize) -> io::Result<()> {
    field(rt, start)?;
    field(rt, len)
}

fn hex_digit(value: u8) -> u8 {
    match value {
        0..=9 => b'0' + value,
        _ => b'a' - 10 + value % 16,
    }
}

// Puts a space and the byte's hex digits behind the n bytes in front of words, and answers how many
// stand there then. Where there is no room, those in front are written out first.
fn put_hex(rt: &impl Print, n: usize, byte: u8, words: &mut [u8]) -> io::Result<usize> {
    let digits = [b' ', hex_digit(byte / 16), hex_digit(byte % 16)];
    let count = octets::store_behind(n, &digits, words);
    if count != 0 {
        return Ok(count);
    }
    text(rt, octets::part(words, 0, n))?;
    Ok(octets::store(&digits, words))
}

// Each byte as a space and two hex digits.
pub(crate) fn hex_fields(rt: &impl Print, bytes: &[u8]) -> io::Result<()> {
    let mut words = [0u8; 768];
    let mut n = 0;
    for byte in bytes {
        n = put_hex(rt, n, *byte, &mut words)?;
    }
    text(rt, octets::part(&words, 0, n))
}
