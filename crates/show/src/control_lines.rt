// The calls of Set_Slave_Adr and Global_Control.
use crate::field_lines::{flag_line, group_line, ident_line, number_line};
use crate::text::text;
use address_change::AddressChange;
use control::GlobalCommand;
use std::io;

fn lock_line(rt: &impl Print, locked: u8) -> io::Result<()> {
    if locked == 1 {
        text(rt, b"further changes not allowed\n")
    } else {
        text(rt, b"further changes allowed\n")
    }
}

pub(crate) fn address_lines(rt: &impl Print, change: AddressChange) -> io::Result<()> {
    number_line(rt, b"new address", change.address)?;
    ident_line(rt, change.ident)?;
    lock_line(rt, change.locked)
}

fn flag_lines(rt: &impl Print, command: u8) -> io::Result<()> {
    flag_line(rt, command, 1, b"Clear_Data")?;
    flag_line(rt, command, 2, b"Unfreeze")?;
    flag_line(rt, command, 3, b"Freeze")?;
    flag_line(rt, command, 4, b"Unsync")?;
    flag_line(rt, command, 5, b"Sync")
}

pub(crate) fn command_lines(rt: &impl Print, fields: GlobalCommand) -> io::Result<()> {
    flag_lines(rt, fields.command)?;
    group_line(rt, fields.groups)
}
