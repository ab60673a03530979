// The answer to a whole download to a fresh printer whose slots are all empty: the refusal number; or 0,
// how it ended, as the C interface has it, how many sendings there were, how many writes the printer has
// counted, and after a bar each slot that has a template then, with its length and bytes.
use crate::answer::malformed;
use crate::outcome::{behind, refused};
use crate::text::{byte_field, hex_fields, text, word_field};
use protocol::{Ending, Pending, Printer, Settings};
use std::io;

fn ending_fields(rt: &impl Print, how: Ending) -> io::Result<()> {
    let mut ending = [0u8; 4];
    controller_bytes::put_ending(how, &mut ending);
    byte_field(rt, ending[0])?;
    byte_field(rt, ending[1])?;
    byte_field(rt, ending[2])?;
    byte_field(rt, ending[3])
}

// A slot that has no template has no length.
fn slot_fields(rt: &impl Print, slot: u8, length: u8, bodies: &[u8; 3200]) -> io::Result<()> {
    if length == 0 {
        return Ok(());
    }
    text(rt, b" |")?;
    byte_field(rt, slot)?;
    byte_field(rt, length)?;
    hex_fields(
        rt,
        octets::part(bodies, 200 * slot as usize, length as usize),
    )
}

fn slots_fields(rt: &impl Print, lengths: &[u8; 16], bodies: &[u8; 3200]) -> io::Result<()> {
    for (slot, &length) in (0..16).zip(lengths) {
        slot_fields(rt, slot, length, bodies)?;
    }
    Ok(())
}

// The diagnosis is as short as one can be: nothing of it is answered but that it came.
fn downloaded(
    rt: &impl Print,
    settings: Settings,
    printer: Printer,
    line: &[u8],
    not_yet: &[u8],
    book: &[u8],
) -> io::Result<()> {
    let mut lengths = [0u8; 16];
    let mut bodies = [0u8; 3200];
    let mut reply = [0u8; 255];
    let mut request = [0u8; 255];
    match download::run(
        settings,
        book,
        line,
        not_yet,
        b"\x00\x04\x00\xFF\x00\x00",
        printer,
        &mut lengths,
        &mut bodies,
        &mut reply,
        &mut request,
    ) {
        Err(refusal) => refused(rt, refusal)?,
        Ok(found) => {
            text(rt, b"0")?;
            ending_fields(rt, found.ending)?;
            word_field(rt, found.sent)?;
            byte_field(rt, found.printer.writes)?;
            slots_fields(rt, &lengths, &bodies)?;
        }
    }
    text(rt, b"\n")
}

// Of the bytes behind the number of "not yet" numbers, the numbers and the book.
fn after_line(
    rt: &impl Print,
    settings: Settings,
    printer: Printer,
    line: &[u8],
    count: u8,
    bytes: &[u8],
) -> io::Result<()> {
    let n = count as usize;
    if bytes.len() < n {
        return malformed(rt);
    }
    let not_yet = octets::part(bytes, 0, n);
    downloaded(rt, settings, printer, line, not_yet, behind(bytes, n))
}

// Of the bytes behind the number of entries, the line.
fn after_count(
    rt: &impl Print,
    settings: Settings,
    printer: Printer,
    count: u8,
    bytes: &[u8],
) -> io::Result<()> {
    let n = count as usize;
    if bytes.len() <= n {
        return malformed(rt);
    }
    let line = octets::part(bytes, 0, n);
    after_line(rt, settings, printer, line, bytes[n], behind(bytes, n + 1))
}

// A printer that has heard nothing.
fn fresh(address: u8, boarding: bool) -> Printer {
    Printer {
        address,
        boarding,
        fcb: false,
        sa: 255,
        held: 0,
        pending: Pending::Nothing,
        writes: 0,
    }
}

// The printer set, the controller set, R and P; the printer's own address, and 1 while it is boarding, else
// 0; how many entries the line has, and the entries; how many "not yet" numbers there are, the numbers,
// and the book.
pub(crate) fn download_line(rt: &impl Print, bytes: &[u8]) -> io::Result<()> {
    if bytes.len() < 7 {
        return malformed(rt);
    }
    let boarding = bytes[5];
    if 1 < boarding {
        return malformed(rt);
    }
    let settings = Settings {
        printer: bytes[0],
        controller: bytes[1],
        repeats: bytes[2],
        polls: bytes[3],
    };
    let printer = fresh(bytes[4], boarding == 1);
    after_count(rt, settings, printer, bytes[6], behind(bytes, 7))
}
