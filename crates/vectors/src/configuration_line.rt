// The answer to a configuration: its totals, the offsets of its modules, and each module with the
// bytes that writing makes of it again. The answers to a module's fields and to a configuration's bytes.
use crate::answer::malformed;
use crate::outcome::{again, behind, refused, stored, walk_refused};
use crate::text::{byte_field, field, flag_field, place, text, word_field};
use std::io;

fn side(rt: &impl Print, side: configuration::Side) -> io::Result<()> {
    match side {
        configuration::Side::Absent => text(rt, b" -"),
        configuration::Side::Present {
            units,
            words,
            consistent,
        } => {
            byte_field(rt, units)?;
            flag_field(rt, words)?;
            flag_field(rt, consistent)
        }
    }
}

fn module(
    rt: &impl Print,
    module: configuration::Module,
    start: usize,
    len: usize,
) -> io::Result<()> {
    match module.identifier {
        configuration::Identifier::General => text(rt, b" | general")?,
        configuration::Identifier::Special => text(rt, b" | special")?,
    }
    side(rt, module.input)?;
    side(rt, module.output)?;
    place(rt, start, len)
}

// Each module, and the bytes that writing makes of it again. No data has as many modules as the loop
// has turns.
fn modules(rt: &impl Print, bytes: &[u8], out: &mut [u8]) -> io::Result<()> {
    let mut position = configuration_walk::first();
    for _ in 0..4097 {
        let step = match configuration_walk::next(bytes, position) {
            Ok(step) => step,
            Err(refusal) => return walk_refused(rt, refusal),
        };
        match step {
            configuration::Step::Module {
                module: found,
                start,
                len,
                next,
            } => {
                module(rt, found, start, len)?;
                let vendor = octets::part(bytes, start, len);
                let written = configuration_writer::write_module(found, vendor, out);
                again(rt, written, out)?;
                position = next;
            }
            configuration::Step::End => return text(rt, b" ."),
        }
    }
    Ok(())
}

fn offset_fields(rt: &impl Print, count: usize, inputs: &[u16], outputs: &[u16]) -> io::Result<()> {
    for (input, output) in inputs.iter().zip(outputs).take(count) {
        word_field(rt, *input)?;
        word_field(rt, *output)?;
    }
    Ok(())
}

pub(crate) fn configuration_line(rt: &impl Print, bytes: &[u8], out: &mut [u8]) -> io::Result<()> {
    let mut inputs = [0u16; 244];
    let mut outputs = [0u16; 244];
    match configuration_reader::offsets(bytes, &mut inputs, &mut outputs) {
        Err(refusal) => {
            refused(rt, refusal)?;
            modules(rt, bytes, out)?;
        }
        Ok(found) => {
            text(rt, b"0")?;
            field(rt, found.modules)?;
            field(rt, found.inputs)?;
            field(rt, found.outputs)?;
            offset_fields(rt, found.modules, &inputs, &outputs)?;
            modules(rt, bytes, out)?;
            let written = configuration_writer::write(bytes, out);
            again(rt, written, out)?;
        }
    }
    text(rt, b"\n")
}

pub(crate) fn configuration_fields(
    rt: &impl Print,
    modules: &[u8],
    out: &mut [u8],
) -> io::Result<()> {
    let written = configuration_writer::write(modules, out);
    stored(rt, written, out)
}

// None where a byte that says yes or no is neither 0 nor 1.
fn given_side(present: u8, units: u8, words: u8, consistent: u8) -> Option<configuration::Side> {
    if 1 < present {
        return None;
    }
    if 1 < words {
        return None;
    }
    if 1 < consistent {
        return None;
    }
    if present == 0 {
        return Some(configuration::Side::Absent);
    }
    Some(configuration::Side::Present {
        units,
        words: words == 1,
        consistent: consistent == 1,
    })
}

// The identifier format, 0 general and 1 special; of each side, input first, whether it is there, its
// units, words and consistency; and the vendor bytes, which the general format has not.
pub(crate) fn module_fields(rt: &impl Print, fields: &[u8], out: &mut [u8]) -> io::Result<()> {
    if fields.len() < 9 {
        return malformed(rt);
    }
    let identifier = match fields[0] {
        0 => configuration::Identifier::General,
        1 => configuration::Identifier::Special,
        _ => return malformed(rt),
    };
    let Some(input) = given_side(fields[1], fields[2], fields[3], fields[4]) else {
        return malformed(rt);
    };
    let Some(output) = given_side(fields[5], fields[6], fields[7], fields[8]) else {
        return malformed(rt);
    };
    let module = configuration::Module {
        identifier,
        input,
        output,
    };
    let written = configuration_writer::write_module(module, behind(fields, 9), out);
    stored(rt, written, out)
}
