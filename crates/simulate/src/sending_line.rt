// The line for one sending: what the line did with it, and the reply as it came back.
use crate::text::{decimal, decimal8, hex, text};
use controller_input::Reply;
use protocol::Settings;
use std::io;

fn positive(rt: &impl Print, slot: u8, index: u8, length: u8) -> io::Result<()> {
    text(rt, b"5F slot ")?;
    decimal8(rt, slot)?;
    text(rt, b" index ")?;
    decimal8(rt, index)?;
    text(rt, b" length ")?;
    decimal8(rt, length)
}

pub(crate) fn codes(rt: &impl Print, code1: u8, code2: u8) -> io::Result<()> {
    text(rt, b" codes")?;
    hex(rt, code1)?;
    hex(rt, code2)
}

fn negative(rt: &impl Print, code1: u8, code2: u8) -> io::Result<()> {
    text(rt, b"DF")?;
    codes(rt, code1, code2)
}

fn reply_words(rt: &impl Print, reply: Reply) -> io::Result<()> {
    match reply {
        Reply::Confirmation => text(rt, b"SC"),
        Reply::Diagnosis => text(rt, b"diagnosis"),
        Reply::Positive {
            slot,
            index,
            length,
        } => positive(rt, slot, index, length),
        Reply::Negative { code1, code2 } => negative(rt, code1, code2),
        Reply::Other => text(rt, b"other"),
    }
}

fn exchange_words(rt: &impl Print, exchange: Option<Reply>) -> io::Result<()> {
    match exchange {
        Some(reply) => reply_words(rt, reply),
        None => text(rt, b"no reply"),
    }
}

// What the line did; where it let all through, also what came back.
fn passage_words(rt: &impl Print, entry: u8, settings: Settings, reply: &[u8]) -> io::Result<()> {
    match entry {
        1 => text(rt, b" request lost"),
        2 => text(rt, b" reply lost"),
        _ => {
            text(rt, b" through, ")?;
            exchange_words(rt, controller_input::take(settings, reply))
        }
    }
}

// A request stands in SD2, with its function code at place 6.
fn function_code(rt: &impl Print, request: &[u8]) -> io::Result<()> {
    text(rt, b" fc")?;
    if let Some(fc) = request.get(6) {
        hex(rt, *fc)?;
    }
    Ok(())
}

pub(crate) fn sending_line(
    rt: &impl Print,
    number: u16,
    request: &[u8],
    entry: u8,
    settings: Settings,
    reply: &[u8],
) -> io::Result<()> {
    text(rt, b"sending ")?;
    decimal(rt, number)?;
    function_code(rt, request)?;
    passage_words(rt, entry, settings, reply)?;
    text(rt, b"\n")
}
