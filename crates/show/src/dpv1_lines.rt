// DPV1 calls and answers: the function and its fields, or the errors of a negative answer.
use crate::error_words::{class_name, code_name};
use crate::field_lines::{bytes_line, count_line, number_line};
use crate::text::{decimal8, line_end, text};
use acyclic::{Answer, Call, Function};
use std::io;

fn function_name(rt: &impl Print, function: Function) -> io::Result<()> {
    match function {
        Function::Read => text(rt, b"read"),
        Function::Write => text(rt, b"write"),
        Function::AlarmAck => text(rt, b"alarm acknowledgement"),
        Function::Transport => text(rt, b"data transport"),
    }
}

fn function_line(rt: &impl Print, name: &[u8], function: Function) -> io::Result<()> {
    text(rt, name)?;
    function_name(rt, function)?;
    line_end(rt)
}

// A read, a write or a data transport; length is what the length byte says.
fn transfer_lines(
    rt: &impl Print,
    function: Function,
    slot: u8,
    index: u8,
    length: usize,
    data: &[u8],
) -> io::Result<()> {
    function_line(rt, b"function ", function)?;
    number_line(rt, b"slot", slot)?;
    number_line(rt, b"index", index)?;
    count_line(rt, b"length", length)?;
    bytes_line(rt, b"data", data)
}

fn alarm_lines(rt: &impl Print, slot: u8, alarm: u8, specifier: u8) -> io::Result<()> {
    function_line(rt, b"function ", Function::AlarmAck)?;
    number_line(rt, b"slot", slot)?;
    number_line(rt, b"alarm type", alarm)?;
    number_line(rt, b"specifier", specifier)
}

fn idle_line(rt: &impl Print) -> io::Result<()> {
    text(rt, b"function idle\n")
}

// Where data follow, the length byte is their count.
pub(crate) fn call_lines(rt: &impl Print, call: Call, data: &[u8]) -> io::Result<()> {
    let count = data.len();
    match call {
        Call::Poll => text(rt, b"poll\n"),
        Call::Read {
            slot,
            index,
            length,
        } => transfer_lines(rt, Function::Read, slot, index, length as usize, data),
        Call::Write { slot, index } => transfer_lines(
            rt,
            Function::Write,
            slot,
            index,
            count,
            data,
        ),
        Call::AlarmAck {
            slot,
            alarm,
            specifier,
        } => alarm_lines(rt, slot, alarm, specifier),
        Call::Idle => idle_line(rt),
        Call::Transport { slot, index } => transfer_lines(
            rt,
            Function::Transport,
            slot,
            index,
            count,
            data,
        ),
    }
}

fn decode_line(rt: &impl Print, decode: u8) -> io::Result<()> {
    text(rt, b"decode ")?;
    decimal8(rt, decode)?;
    match decode {
        128 => text(rt, b" PROFIBUS DP\n"),
        254 => text(rt, b" PROFIBUS-FMS\n"),
        _ => text(rt, b" HART\n"),
    }
}

fn class_line(rt: &impl Print, class: u8) -> io::Result<()> {
    text(rt, b"class ")?;
    decimal8(rt, class)?;
    text(rt, b" ")?;
    class_name(rt, class)?;
    line_end(rt)
}

fn code_line(rt: &impl Print, class: u8, code: u8) -> io::Result<()> {
    text(rt, b"code ")?;
    decimal8(rt, code)?;
    text(rt, b" ")?;
    code_name(rt, class, code)?;
    line_end(rt)
}

// Under PROFIBUS DP code 1 is a class, the high four bits, and a code.
fn first_code_lines(rt: &impl Print, decode: u8, code1: u8) -> io::Result<()> {
    if decode == 128 {
        class_line(rt, code1 / 16)?;
        code_line(rt, code1 / 16, code1 % 16)
    } else {
        number_line(rt, b"first code", code1)
    }
}

fn negative_lines(
    rt: &impl Print,
    function: Function,
    decode: u8,
    code1: u8,
    code2: u8,
) -> io::Result<()> {
    function_line(rt, b"negative ", function)?;
    decode_line(rt, decode)?;
    first_code_lines(rt, decode, code1)?;
    number_line(rt, b"second code", code2)
}

// Where data follow, the length byte is their count.
pub(crate) fn answer_lines(rt: &impl Print, answer: Answer, data: &[u8]) -> io::Result<()> {
    let count = data.len();
    match answer {
        Answer::Read { slot, index } => transfer_lines(
            rt,
            Function::Read,
            slot,
            index,
            count,
            data,
        ),
        Answer::Write {
            slot,
            index,
            length,
        } => transfer_lines(rt, Function::Write, slot, index, length as usize, data),
        Answer::AlarmAck {
            slot,
            alarm,
            specifier,
        } => alarm_lines(rt, slot, alarm, specifier),
        Answer::Idle => idle_line(rt),
        Answer::Transport { slot, index } => transfer_lines(
            rt,
            Function::Transport,
            slot,
            index,
            count,
            data,
        ),
        Answer::Negative {
            function,
            decode,
            code1,
            code2,
        } => negative_lines(rt, function, decode, code1, code2),
    }
}
