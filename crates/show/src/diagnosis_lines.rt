// The answer of Slave_Diag: its flags, master and ident number, and a line for each block.
use crate::field_lines::{flag_line, ident_line, number_line};
use crate::text::{decimal, decimal8, hex_bytes, line_end, text};
use diagnosis::{Block, Channel, Header, Step};
use std::io;

fn status1_lines(rt: &impl Print, status: u8) -> io::Result<()> {
    flag_line(rt, status, 1, b"Station_Not_Ready")?;
    flag_line(rt, status, 2, b"Cfg_Fault")?;
    flag_line(rt, status, 3, b"Ext_Diag")?;
    flag_line(rt, status, 4, b"Not_Supported")?;
    flag_line(rt, status, 6, b"Prm_Fault")
}

fn status2_lines(rt: &impl Print, status: u8) -> io::Result<()> {
    flag_line(rt, status, 0, b"Prm_Req")?;
    flag_line(rt, status, 1, b"Stat_Diag")?;
    flag_line(rt, status, 3, b"WD_On")?;
    flag_line(rt, status, 4, b"Freeze_Mode")?;
    flag_line(rt, status, 5, b"Sync_Mode")
}

fn status3_lines(rt: &impl Print, status: u8) -> io::Result<()> {
    flag_line(rt, status, 7, b"Ext_Diag_Overflow")
}

fn master_line(rt: &impl Print, master: u8) -> io::Result<()> {
    if master == 255 {
        return text(rt, b"master none\n");
    }
    number_line(rt, b"master", master)
}

fn device_words(rt: &impl Print, bytes: &[u8]) -> io::Result<()> {
    text(rt, b"device block")?;
    hex_bytes(rt, bytes)
}

fn module_words(rt: &impl Print, set: usize, lowest: Option<usize>) -> io::Result<()> {
    text(rt, b"module block, ")?;
    match lowest {
        None => text(rt, b"none reports"),
        Some(number) => {
            decimal(rt, set)?;
            text(rt, b" report, lowest ")?;
            decimal(rt, number)
        }
    }
}

fn direction_name(rt: &impl Print, direction: u8) -> io::Result<()> {
    match direction {
        1 => text(rt, b"input"),
        2 => text(rt, b"output"),
        _ => text(rt, b"input and output"),
    }
}

fn type_name(rt: &impl Print, kind: u8) -> io::Result<()> {
    match kind {
        1 => text(rt, b"bit"),
        2 => text(rt, b"2 bits"),
        3 => text(rt, b"4 bits"),
        4 => text(rt, b"byte"),
        5 => text(rt, b"word"),
        _ => text(rt, b"2 words"),
    }
}

fn vendor_error(rt: &impl Print, error: u8) -> io::Result<()> {
    text(rt, b"vendor error ")?;
    decimal8(rt, error)
}

fn error_name(rt: &impl Print, error: u8) -> io::Result<()> {
    match error {
        1 => text(rt, b"short circuit"),
        2 => text(rt, b"undervoltage"),
        3 => text(rt, b"overvoltage"),
        4 => text(rt, b"overload"),
        5 => text(rt, b"overtemperature"),
        6 => text(rt, b"wire break"),
        7 => text(rt, b"upper limit exceeded"),
        8 => text(rt, b"lower limit exceeded"),
        9 => text(rt, b"error"),
        _ => vendor_error(rt, error),
    }
}

fn channel_words(rt: &impl Print, channel: Channel) -> io::Result<()> {
    text(rt, b"channel block, module ")?;
    decimal8(rt, channel.module)?;
    text(rt, b", ")?;
    direction_name(rt, channel.direction)?;
    text(rt, b" channel ")?;
    decimal8(rt, channel.channel)?;
    text(rt, b", ")?;
    type_name(rt, channel.kind)?;
    text(rt, b", ")?;
    error_name(rt, channel.error)
}

fn block_line(rt: &impl Print, block: Block, user: &[u8]) -> io::Result<()> {
    match block {
        Block::Device { start, len } => device_words(rt, octets::part(user, start, len))?,
        Block::Module {
            start: _,
            len: _,
            set,
            lowest,
        } => module_words(rt, set, lowest)?,
        Block::Channel(channel) => channel_words(rt, channel)?,
    }
    line_end(rt)
}

// A proved loop has to end: it has more turns than a telegram has blocks.
fn block_lines(rt: &impl Print, user: &[u8]) -> io::Result<()> {
    let mut position = diagnosis_walk::first();
    for _ in 0..256 {
        let Ok(Step::Block(block, next)) = diagnosis_walk::next(user, position) else {
            return Ok(());
        };
        block_line(rt, block, user)?;
        position = next;
    }
    Ok(())
}

pub(crate) fn diagnosis_lines(rt: &impl Print, header: Header, user: &[u8]) -> io::Result<()> {
    status1_lines(rt, header.status1)?;
    status2_lines(rt, header.status2)?;
    status3_lines(rt, header.status3)?;
    master_line(rt, header.master)?;
    ident_line(rt, header.ident)?;
    block_lines(rt, user)
}
