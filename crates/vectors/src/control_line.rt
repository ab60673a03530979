// The answers to an address change and to a global command, and to the fields of each.
use crate::answer::malformed;
use crate::outcome::{again, behind, refused, stored};
use crate::text::{byte_field, place, text, word_field};
use octets::Read;
use std::io;

pub(crate) fn change_words(
    rt: &impl Print,
    change: &address_change::AddressChange,
) -> io::Result<()> {
    byte_field(rt, change.address)?;
    word_field(rt, change.ident)?;
    byte_field(rt, change.locked)
}

pub(crate) fn address_line(rt: &impl Print, bytes: &[u8], out: &mut [u8]) -> io::Result<()> {
    match address_change::read_address_change(bytes) {
        Err(refusal) => refused(rt, refusal)?,
        Ok(Read { fields, start, len }) => {
            text(rt, b"0")?;
            change_words(rt, &fields)?;
            place(rt, start, len)?;
            let written = address_change::write_address_change(
                fields,
                octets::part(bytes, start, len),
                out,
            );
            again(rt, written, out)?;
        }
    }
    text(rt, b"\n")
}

pub(crate) fn command_words(rt: &impl Print, command: &control::GlobalCommand) -> io::Result<()> {
    byte_field(rt, command.command)?;
    byte_field(rt, command.groups)
}

pub(crate) fn command_line(rt: &impl Print, bytes: &[u8], out: &mut [u8]) -> io::Result<()> {
    match control::read_global_command(bytes) {
        Err(refusal) => refused(rt, refusal)?,
        Ok(Read { fields, start, len }) => {
            text(rt, b"0")?;
            command_words(rt, &fields)?;
            place(rt, start, len)?;
            let written = control::write_global_command(
                fields,
                octets::part(bytes, start, len),
                out,
            );
            again(rt, written, out)?;
        }
    }
    text(rt, b"\n")
}

// Address, ident, the last byte, and the rest.
pub(crate) fn address_fields(rt: &impl Print, fields: &[u8], out: &mut [u8]) -> io::Result<()> {
    if fields.len() < 4 {
        return malformed(rt);
    }
    let change = address_change::AddressChange {
        address: fields[0],
        ident: octets::join16(fields[1], fields[2]),
        locked: fields[3],
    };
    let written = address_change::write_address_change(change, behind(fields, 4), out);
    stored(rt, written, out)
}

// Command, groups, and the rest.
pub(crate) fn command_fields(rt: &impl Print, fields: &[u8], out: &mut [u8]) -> io::Result<()> {
    if fields.len() < 2 {
        return malformed(rt);
    }
    let command = control::GlobalCommand {
        command: fields[0],
        groups: fields[1],
    };
    let written = control::write_global_command(command, behind(fields, 2), out);
    stored(rt, written, out)
}
