// The answer to a telegram: its refusal number; or 0, its kind (0 short confirmation, 1 token, 2
// SD1, 3 SD2, 4 SD3), DA, SA, FC, DSAP, SSAP, and the start and the length of its user data.
use crate::outcome::refused;
use crate::text::{byte_field, place, text};
use fdl::{Format, Header, Reading, Sap};
use std::io;

// 255 where there is none: no access point is above 63.
fn access_point(rt: &impl Print, sap: Sap) -> io::Result<()> {
    byte_field(rt, sap.unwrap_or(255))
}

// The kind, DA, SA and FC.
pub(crate) fn head_fields(rt: &impl Print, kind: u8, header: Header) -> io::Result<()> {
    byte_field(rt, kind)?;
    byte_field(rt, header.da)?;
    byte_field(rt, header.sa)?;
    byte_field(rt, header.fc)
}

fn fields(rt: &impl Print, kind: u8, header: Header, start: usize, len: usize) -> io::Result<()> {
    text(rt, b"0")?;
    head_fields(rt, kind, header)?;
    access_point(rt, header.dsap)?;
    access_point(rt, header.ssap)?;
    place(rt, start, len)
}

// The fields of a telegram that has no more than addresses.
fn address_fields(rt: &impl Print, kind: u8, da: u8, sa: u8) -> io::Result<()> {
    let header = Header {
        da,
        sa,
        fc: 0,
        dsap: None,
        ssap: None,
    };
    fields(rt, kind, header, 0, 0)
}

pub(crate) fn kind_of(format: Format) -> u8 {
    match format {
        Format::Sd1 => 2,
        Format::Sd2 => 3,
        Format::Sd3 => 4,
    }
}

fn reading_fields(rt: &impl Print, reading: Reading) -> io::Result<()> {
    match reading {
        Reading::Confirmation => address_fields(rt, 0, 0, 0),
        Reading::Token { da, sa } => address_fields(rt, 1, da, sa),
        Reading::Telegram {
            format,
            header,
            start,
            len,
        } => fields(rt, kind_of(format), header, start, len),
    }
}

pub(crate) fn telegram(rt: &impl Print, bytes: &[u8]) -> io::Result<()> {
    match fdl_reader::read(bytes) {
        Ok(reading) => reading_fields(rt, reading)?,
        Err(refusal) => refused(rt, refusal)?,
    }
    text(rt, b"\n")
}

// Stands in the place of an answer, so that a slip in the text cannot pass for a telegram.
pub(crate) fn malformed(rt: &impl Print) -> io::Result<()> {
    text(rt, b"malformed\n")
}
