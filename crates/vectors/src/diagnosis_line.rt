// The answer to a diagnosis: its header, the number of its blocks, and each block. The answers to the
// fields of a diagnosis and of each block.
use crate::answer::malformed;
use crate::outcome::{again, behind, refused, stored, walk_refused};
use crate::text::{byte_field, field, place, text, word_field};
use std::io;

fn lowest(rt: &impl Print, lowest: Option<usize>) -> io::Result<()> {
    match lowest {
        Some(number) => field(rt, number),
        None => text(rt, b" -"),
    }
}

fn block(rt: &impl Print, block: diagnosis::Block) -> io::Result<()> {
    match block {
        diagnosis::Block::Device { start, len } => {
            text(rt, b" | device")?;
            place(rt, start, len)
        }
        diagnosis::Block::Module {
            start,
            len,
            set,
            lowest: first,
        } => {
            text(rt, b" | module")?;
            place(rt, start, len)?;
            field(rt, set)?;
            lowest(rt, first)
        }
        diagnosis::Block::Channel(channel) => {
            text(rt, b" | channel")?;
            byte_field(rt, channel.module)?;
            byte_field(rt, channel.direction)?;
            byte_field(rt, channel.channel)?;
            byte_field(rt, channel.kind)?;
            byte_field(rt, channel.error)
        }
    }
}

// No data has as many blocks as the loop has turns.
fn blocks(rt: &impl Print, bytes: &[u8]) -> io::Result<()> {
    let mut position = diagnosis_walk::first();
    for _ in 0..4097 {
        match diagnosis_walk::next(bytes, position) {
            Ok(diagnosis::Step::Block(found, next)) => {
                block(rt, found)?;
                position = next;
            }
            Ok(diagnosis::Step::End) => return text(rt, b" ."),
            Err(refusal) => return walk_refused(rt, refusal),
        }
    }
    Ok(())
}

pub(crate) fn header_words(rt: &impl Print, header: diagnosis::Header) -> io::Result<()> {
    byte_field(rt, header.status1)?;
    byte_field(rt, header.status2)?;
    byte_field(rt, header.status3)?;
    byte_field(rt, header.master)?;
    word_field(rt, header.ident)
}

pub(crate) fn diagnosis_line(rt: &impl Print, bytes: &[u8], out: &mut [u8]) -> io::Result<()> {
    match diagnosis_reader::read(bytes) {
        Err(refusal) => {
            refused(rt, refusal)?;
            blocks(rt, bytes)?;
        }
        Ok(found) => {
            text(rt, b"0")?;
            header_words(rt, found.header)?;
            field(rt, found.blocks)?;
            blocks(rt, bytes)?;
            let written = diagnosis_writer::write(found.header, behind(bytes, 6), out);
            again(rt, written, out)?;
        }
    }
    text(rt, b"\n")
}

// Status 1 to 3, master, ident, and the bytes of the blocks.
pub(crate) fn diagnosis_fields(rt: &impl Print, fields: &[u8], out: &mut [u8]) -> io::Result<()> {
    if fields.len() < 6 {
        return malformed(rt);
    }
    let header = diagnosis::Header {
        status1: fields[0],
        status2: fields[1],
        status3: fields[2],
        master: fields[3],
        ident: octets::join16(fields[4], fields[5]),
    };
    let written = diagnosis_writer::write(header, behind(fields, 6), out);
    stored(rt, written, out)
}

pub(crate) fn device_fields(rt: &impl Print, bytes: &[u8], out: &mut [u8]) -> io::Result<()> {
    let written = diagnosis_block_writer::write_device(bytes, out);
    stored(rt, written, out)
}

pub(crate) fn map_fields(rt: &impl Print, map: &[u8], out: &mut [u8]) -> io::Result<()> {
    let written = diagnosis_block_writer::write_module(map, out);
    stored(rt, written, out)
}

// Module, direction, channel, type and error.
pub(crate) fn channel_fields(rt: &impl Print, fields: &[u8], out: &mut [u8]) -> io::Result<()> {
    if fields.len() != 5 {
        return malformed(rt);
    }
    let channel = diagnosis::Channel {
        module: fields[0],
        direction: fields[1],
        channel: fields[2],
        kind: fields[3],
        error: fields[4],
    };
    let written = diagnosis_block_writer::write_channel(channel, out);
    stored(rt, written, out)
}
