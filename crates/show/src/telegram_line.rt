// The first line: the telegram's kind and its fields.
use crate::text::{decimal8, hex, hex_bytes, line_end, text};
use fdl::{Format, Header, Sap};
use octets::Refusal;
use std::io;

fn addresses(rt: &impl Print, da: u8, sa: u8) -> io::Result<()> {
    text(rt, b" to ")?;
    decimal8(rt, da)?;
    text(rt, b" from ")?;
    decimal8(rt, sa)
}

fn format_name(rt: &impl Print, format: Format) -> io::Result<()> {
    match format {
        Format::Sd1 => text(rt, b"SD1"),
        Format::Sd2 => text(rt, b"SD2"),
        Format::Sd3 => text(rt, b"SD3"),
    }
}

fn function_code(rt: &impl Print, fc: u8) -> io::Result<()> {
    text(rt, b" fc")?;
    hex(rt, fc)
}

// Nothing where there is no access point.
fn access_point(rt: &impl Print, name: &[u8], sap: Sap) -> io::Result<()> {
    if let Some(number) = sap {
        text(rt, name)?;
        decimal8(rt, number)?;
    }
    Ok(())
}

fn header_fields(rt: &impl Print, header: Header) -> io::Result<()> {
    addresses(rt, header.da, header.sa)?;
    function_code(rt, header.fc)?;
    access_point(rt, b" dsap ", header.dsap)?;
    access_point(rt, b" ssap ", header.ssap)
}

// Nothing where there are no user data.
fn user_data(rt: &impl Print, user: &[u8]) -> io::Result<()> {
    if 0 < user.len() {
        text(rt, b" data")?;
        hex_bytes(rt, user)?;
    }
    Ok(())
}

pub(crate) fn confirmation_line(rt: &impl Print) -> io::Result<()> {
    text(rt, b"SC\n")
}

pub(crate) fn token_line(rt: &impl Print, da: u8, sa: u8) -> io::Result<()> {
    text(rt, b"token")?;
    addresses(rt, da, sa)?;
    line_end(rt)
}

pub(crate) fn telegram_line(
    rt: &impl Print,
    format: Format,
    header: Header,
    user: &[u8],
) -> io::Result<()> {
    format_name(rt, format)?;
    header_fields(rt, header)?;
    user_data(rt, user)?;
    line_end(rt)
}

pub(crate) fn refused_line(rt: &impl Print, refusal: Refusal) -> io::Result<()> {
    text(rt, b"refused ")?;
    decimal8(rt, refusal.number())?;
    line_end(rt)
}
