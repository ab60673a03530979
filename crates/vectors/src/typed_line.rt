// The answers to typed values, and to the fields of one.
use crate::answer::malformed;
use crate::outcome::{again, refused, stored};
use crate::text::{byte_field, decimal, field, flag_field, text, word_field};
use float::Floating;
use std::io;
use typed::Value;

// A negative number by its complement, which is one below its magnitude.
fn negative_field(rt: &impl Print, complement: u32) -> io::Result<()> {
    text(rt, b" -")?;
    decimal(rt, complement as usize + 1)
}

fn signed8_field(rt: &impl Print, number: i8) -> io::Result<()> {
    if number < 0 {
        negative_field(rt, (!number as u8) as u32)
    } else {
        byte_field(rt, number as u8)
    }
}

fn signed16_field(rt: &impl Print, number: i16) -> io::Result<()> {
    if number < 0 {
        negative_field(rt, (!number as u16) as u32)
    } else {
        word_field(rt, number as u16)
    }
}

fn signed32_field(rt: &impl Print, number: i32) -> io::Result<()> {
    if number < 0 {
        negative_field(rt, !number as u32)
    } else {
        field(rt, (number as u32) as usize)
    }
}

fn float_field(rt: &impl Print, number: f32) -> io::Result<()> {
    match float::pattern_of(number) {
        Some(bits) => field(rt, bits as usize),
        None => text(rt, b" unknown"),
    }
}

fn value_words(rt: &impl Print, value: &Value) -> io::Result<()> {
    match value {
        Value::Boolean(yes) => {
            text(rt, b" boolean")?;
            flag_field(rt, *yes)
        }
        Value::I8(number) => {
            text(rt, b" i8")?;
            signed8_field(rt, *number)
        }
        Value::I16(number) => {
            text(rt, b" i16")?;
            signed16_field(rt, *number)
        }
        Value::I32(number) => {
            text(rt, b" i32")?;
            signed32_field(rt, *number)
        }
        Value::U8(number) => {
            text(rt, b" u8")?;
            byte_field(rt, *number)
        }
        Value::U16(number) => {
            text(rt, b" u16")?;
            word_field(rt, *number)
        }
        Value::U32(number) => {
            text(rt, b" u32")?;
            field(rt, *number as usize)
        }
        Value::Float(number) => {
            text(rt, b" float")?;
            float_field(rt, *number)
        }
        Value::Nan(bits) => {
            text(rt, b" nan")?;
            field(rt, *bits as usize)
        }
    }
}

pub(crate) fn typed_line(rt: &impl Print, bytes: &[u8], out: &mut [u8]) -> io::Result<()> {
    match typed_reader::read(bytes) {
        Err(refusal) => refused(rt, refusal)?,
        Ok(value) => {
            text(rt, b"0")?;
            value_words(rt, &value)?;
            let written = typed_writer::write(value, out);
            again(rt, written, out)?;
        }
    }
    text(rt, b"\n")
}

fn written_value(rt: &impl Print, value: Value, out: &mut [u8]) -> io::Result<()> {
    let written = typed_writer::write(value, out);
    stored(rt, written, out)
}

fn boolean_fields(rt: &impl Print, byte: u8, out: &mut [u8]) -> io::Result<()> {
    match byte {
        0 => written_value(rt, Value::Boolean(false), out),
        1 => written_value(rt, Value::Boolean(true), out),
        _ => malformed(rt),
    }
}

// An integer, which any bytes are.
fn integer_fields(rt: &impl Print, bytes: &[u8], out: &mut [u8]) -> io::Result<()> {
    match typed_reader::read(bytes) {
        Ok(value) => written_value(rt, value, out),
        Err(_) => malformed(rt),
    }
}

// A NaN can only be had as a result.
fn float_fields(rt: &impl Print, bits: u32, out: &mut [u8]) -> io::Result<()> {
    let zero: f32 = 0.0;
    match float::floating_of(bits) {
        Floating::Number(number) => written_value(rt, Value::Float(number), out),
        Floating::Nan(_) => written_value(rt, Value::Float(zero / zero), out),
    }
}

// The code, 9 for a NaN's bits, and four bytes, the last of which are the value.
pub(crate) fn typed_fields(rt: &impl Print, fields: &[u8], out: &mut [u8]) -> io::Result<()> {
    if fields.len() != 5 {
        return malformed(rt);
    }
    let code = fields[0];
    let first = fields[1];
    let second = fields[2];
    let third = fields[3];
    let last = fields[4];
    let bits = octets::join32(first, second, third, last);
    match code {
        1 => boolean_fields(rt, last, out),
        2 => integer_fields(rt, &[code, last], out),
        3 => integer_fields(rt, &[code, third, last], out),
        4 => integer_fields(rt, &[code, first, second, third, last], out),
        5 => integer_fields(rt, &[code, last], out),
        6 => integer_fields(rt, &[code, third, last], out),
        7 => integer_fields(rt, &[code, first, second, third, last], out),
        8 => float_fields(rt, bits, out),
        9 => written_value(rt, Value::Nan(bits), out),
        _ => malformed(rt),
    }
}
