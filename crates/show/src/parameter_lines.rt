// The call of Set_Prm: its flags, times, ident number, groups, DPV1's status bytes and the user data.
use crate::field_lines::{bytes_line, flag_line, group_line, ident_line};
use crate::text::{decimal, decimal8, hex, line_end, text};
use parameters::{BitTimes, Extension, Milliseconds, Parameters};
use std::io;

fn flag_lines(rt: &impl Print, flags: u8) -> io::Result<()> {
    flag_line(rt, flags, 3, b"WD_On")?;
    flag_line(rt, flags, 4, b"Freeze_Req")?;
    flag_line(rt, flags, 5, b"Sync_Req")?;
    flag_line(rt, flags, 6, b"Unlock_Req")?;
    flag_line(rt, flags, 7, b"Lock_Req")
}

fn watchdog_line(rt: &impl Print, watchdog: Milliseconds) -> io::Result<()> {
    text(rt, b"watchdog ")?;
    decimal(rt, watchdog.0 as usize)?;
    text(rt, b" ms\n")
}

fn response_line(rt: &impl Print, response: BitTimes) -> io::Result<()> {
    text(rt, b"response ")?;
    decimal8(rt, response.0)?;
    text(rt, b" bit times\n")
}

// DPV0 has no status bytes.
fn status_line(rt: &impl Print, extension: Extension) -> io::Result<()> {
    match extension {
        Extension::Dpv0 => Ok(()),
        Extension::Dpv1 {
            status1,
            status2,
            status3,
        } => {
            text(rt, b"dpv1 status")?;
            hex(rt, status1)?;
            hex(rt, status2)?;
            hex(rt, status3)?;
            line_end(rt)
        }
    }
}

pub(crate) fn parameter_lines(rt: &impl Print, fields: Parameters, user: &[u8]) -> io::Result<()> {
    flag_lines(rt, fields.flags)?;
    watchdog_line(rt, parameters::watchdog(fields))?;
    response_line(rt, fields.response)?;
    ident_line(rt, fields.ident)?;
    group_line(rt, fields.groups)?;
    status_line(rt, fields.extension)?;
    bytes_line(rt, b"user data", user)
}
