// The answer to a template book: how many templates it has, each of them, and the bytes that writing
// makes of them again. The answer to the fields of a book.
use crate::answer::malformed;
use crate::outcome::{again, behind, refused, stored, walk_refused};
use crate::text::{byte_field, field, place, text};
use book::Template;
use std::io;

// Each template, and the number that the first one gets that is not there. No book has a template 17.
fn templates(rt: &impl Print, bytes: &[u8]) -> io::Result<()> {
    for k in 1..18 {
        match book_reader::template(bytes, k) {
            Ok(Template { slot, start, len }) => {
                text(rt, b" |")?;
                byte_field(rt, slot)?;
                place(rt, start, len)?;
            }
            Err(refusal) => return walk_refused(rt, refusal),
        }
    }
    Ok(())
}

// Takes slots and lengths apart, which stand in turn behind the count.
fn take_apart(bytes: &[u8], slots: &mut [u8], lengths: &mut [u8]) {
    let (pairs, _) = behind(bytes, 1).as_chunks::<2>();
    for ((slot, length), pair) in slots.iter_mut().zip(lengths).zip(pairs) {
        *slot = pair[0];
        *length = pair[1];
    }
}

// What writing makes of the slots, lengths and bodies of a book that was read. No book has more than
// 16 templates.
fn written_again(rt: &impl Print, count: usize, bytes: &[u8], out: &mut [u8]) -> io::Result<()> {
    if 16 < count {
        return Ok(());
    }
    let mut slots = [0u8; 16];
    let mut lengths = [0u8; 16];
    take_apart(bytes, &mut slots, &mut lengths);
    let written = book_writer::write(
        octets::part(&slots, 0, count),
        octets::part(&lengths, 0, count),
        behind(bytes, 1 + 2 * count),
        out,
    );
    again(rt, written, out)
}

pub(crate) fn book_line(rt: &impl Print, bytes: &[u8], out: &mut [u8]) -> io::Result<()> {
    match book_reader::read(bytes) {
        Err(refusal) => {
            refused(rt, refusal)?;
            templates(rt, bytes)?;
        }
        Ok(count) => {
            text(rt, b"0")?;
            field(rt, count)?;
            templates(rt, bytes)?;
            written_again(rt, count, bytes, out)?;
        }
    }
    text(rt, b"\n")
}

// Of the fields behind the slots and behind the number of lengths, the lengths and the bodies.
fn after_slots(
    rt: &impl Print,
    slots: &[u8],
    count: u8,
    fields: &[u8],
    out: &mut [u8],
) -> io::Result<()> {
    let n = count as usize;
    if fields.len() < n {
        return malformed(rt);
    }
    let written = book_writer::write(slots, octets::part(fields, 0, n), behind(fields, n), out);
    stored(rt, written, out)
}

// Of the fields behind the number of slots, the slots.
fn after_count(rt: &impl Print, count: u8, fields: &[u8], out: &mut [u8]) -> io::Result<()> {
    let n = count as usize;
    if fields.len() <= n {
        return malformed(rt);
    }
    let slots = octets::part(fields, 0, n);
    after_slots(rt, slots, fields[n], behind(fields, n + 1), out)
}

// How many slots there are, and the slots; how many lengths there are, the lengths, and the bodies.
pub(crate) fn book_fields(rt: &impl Print, fields: &[u8], out: &mut [u8]) -> io::Result<()> {
    if fields.len() < 1 {
        return malformed(rt);
    }
    after_count(rt, fields[0], behind(fields, 1), out)
}
