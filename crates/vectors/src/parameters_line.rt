// The answer to parameters: their fields, the watchdog time in milliseconds, whether it has expired after a
// second, and where the user bytes stand. The answer to the fields of parameters.
use crate::answer::malformed;
use crate::outcome::{again, behind, refused, stored};
use crate::text::{byte_field, field, place, text, word_field};
use octets::{Mode, Read};
use std::io;

fn extension(rt: &impl Print, extension: parameters::Extension) -> io::Result<()> {
    match extension {
        parameters::Extension::Dpv0 => Ok(()),
        parameters::Extension::Dpv1 {
            status1,
            status2,
            status3,
        } => {
            byte_field(rt, status1)?;
            byte_field(rt, status2)?;
            byte_field(rt, status3)
        }
    }
}

pub(crate) fn parameter_words(rt: &impl Print, fields: parameters::Parameters) -> io::Result<()> {
    byte_field(rt, fields.flags)?;
    byte_field(rt, fields.factor1)?;
    byte_field(rt, fields.factor2)?;
    byte_field(rt, fields.response.0)?;
    word_field(rt, fields.ident)?;
    byte_field(rt, fields.groups)?;
    extension(rt, fields.extension)
}

pub(crate) fn parameters_line(
    rt: &impl Print,
    bytes: &[u8],
    mode: Mode,
    out: &mut [u8],
) -> io::Result<()> {
    match parameters_reader::read(bytes, mode) {
        Err(refusal) => refused(rt, refusal)?,
        Ok(Read { fields, start, len }) => {
            text(rt, b"0")?;
            parameter_words(rt, fields)?;
            let watchdog = parameters::watchdog(fields);
            field(rt, watchdog.0 as usize)?;
            let expired = parameters::expired(watchdog, parameters::Milliseconds(1000));
            byte_field(rt, octets::bit_of(expired))?;
            place(rt, start, len)?;
            let written = parameters_writer::write(fields, octets::part(bytes, start, len), out);
            again(rt, written, out)?;
        }
    }
    text(rt, b"\n")
}

// Flags, both factors, response time, ident, groups, in DPV1 the three status bytes, and the user
// bytes.
fn written_parameters(
    rt: &impl Print,
    fields: &[u8],
    extension: parameters::Extension,
    start: usize,
    out: &mut [u8],
) -> io::Result<()> {
    if fields.len() < 7 {
        return malformed(rt);
    }
    let response = parameters::BitTimes(fields[3]);
    let given = parameters::Parameters {
        flags: fields[0],
        factor1: fields[1],
        factor2: fields[2],
        response,
        ident: octets::join16(fields[4], fields[5]),
        groups: fields[6],
        extension,
    };
    let written = parameters_writer::write(given, behind(fields, start), out);
    stored(rt, written, out)
}

pub(crate) fn dpv0_fields(rt: &impl Print, fields: &[u8], out: &mut [u8]) -> io::Result<()> {
    written_parameters(rt, fields, parameters::Extension::Dpv0, 7, out)
}

pub(crate) fn dpv1_fields(rt: &impl Print, fields: &[u8], out: &mut [u8]) -> io::Result<()> {
    if fields.len() < 10 {
        return malformed(rt);
    }
    let extension = parameters::Extension::Dpv1 {
        status1: fields[7],
        status2: fields[8],
        status3: fields[9],
    };
    written_parameters(rt, fields, extension, 10, out)
}
