// The answers to DPV1 calls and to DPV1 answers: the function in a word, its fields, and where its data
// stand. The answers to the fields of each.
use crate::answer::malformed;
use crate::outcome::{again, behind, refused, stored};
use crate::text::{byte_field, place, text};
use acyclic::{Answer, Call, Function};
use octets::Read;
use std::io;

fn two(rt: &impl Print, first: u8, second: u8) -> io::Result<()> {
    byte_field(rt, first)?;
    byte_field(rt, second)
}

fn three(rt: &impl Print, first: u8, second: u8, third: u8) -> io::Result<()> {
    two(rt, first, second)?;
    byte_field(rt, third)
}

pub(crate) fn call_words(rt: &impl Print, call: &Call) -> io::Result<()> {
    match call {
        Call::Poll => text(rt, b" poll"),
        Call::Read {
            slot,
            index,
            length,
        } => {
            text(rt, b" read")?;
            three(rt, *slot, *index, *length)
        }
        Call::Write { slot, index } => {
            text(rt, b" write")?;
            two(rt, *slot, *index)
        }
        Call::AlarmAck {
            slot,
            alarm,
            specifier,
        } => {
            text(rt, b" alarm")?;
            three(rt, *slot, *alarm, *specifier)
        }
        Call::Idle => text(rt, b" idle"),
        Call::Transport { slot, index } => {
            text(rt, b" transport")?;
            two(rt, *slot, *index)
        }
    }
}

// Where the data stand, in a call that can have them.
fn call_place(rt: &impl Print, call: &Call, start: usize, len: usize) -> io::Result<()> {
    match call {
        Call::Write { .. } | Call::Transport { .. } => place(rt, start, len),
        Call::Poll | Call::Read { .. } | Call::AlarmAck { .. } | Call::Idle => Ok(()),
    }
}

pub(crate) fn call_line(rt: &impl Print, bytes: &[u8], out: &mut [u8]) -> io::Result<()> {
    match acyclic_reader::read_call(bytes) {
        Err(refusal) => refused(rt, refusal)?,
        Ok(Read { fields, start, len }) => {
            text(rt, b"0")?;
            call_words(rt, &fields)?;
            call_place(rt, &fields, start, len)?;
            let written = acyclic_writer::write_call(fields, octets::part(bytes, start, len), out);
            again(rt, written, out)?;
        }
    }
    text(rt, b"\n")
}

fn number_of(function: &Function) -> u8 {
    match function {
        Function::Read => 0x5E,
        Function::Write => 0x5F,
        Function::AlarmAck => 0x5C,
        Function::Transport => 0x51,
    }
}

pub(crate) fn answer_words(rt: &impl Print, answer: &Answer) -> io::Result<()> {
    match answer {
        Answer::Read { slot, index } => {
            text(rt, b" read")?;
            two(rt, *slot, *index)
        }
        Answer::Write {
            slot,
            index,
            length,
        } => {
            text(rt, b" write")?;
            three(rt, *slot, *index, *length)
        }
        Answer::AlarmAck {
            slot,
            alarm,
            specifier,
        } => {
            text(rt, b" alarm")?;
            three(rt, *slot, *alarm, *specifier)
        }
        Answer::Idle => text(rt, b" idle"),
        Answer::Transport { slot, index } => {
            text(rt, b" transport")?;
            two(rt, *slot, *index)
        }
        Answer::Negative {
            function,
            decode,
            code1,
            code2,
        } => {
            text(rt, b" negative")?;
            byte_field(rt, number_of(function))?;
            three(rt, *decode, *code1, *code2)
        }
    }
}

// Where the data stand, in an answer that can have them.
fn answer_place(rt: &impl Print, answer: &Answer, start: usize, len: usize) -> io::Result<()> {
    match answer {
        Answer::Read { .. } | Answer::Transport { .. } => place(rt, start, len),
        Answer::Write { .. } | Answer::AlarmAck { .. } | Answer::Idle | Answer::Negative { .. } => {
            Ok(())
        }
    }
}

pub(crate) fn answer_line(rt: &impl Print, bytes: &[u8], out: &mut [u8]) -> io::Result<()> {
    match acyclic_reader::read_answer(bytes) {
        Err(refusal) => refused(rt, refusal)?,
        Ok(Read { fields, start, len }) => {
            text(rt, b"0")?;
            answer_words(rt, &fields)?;
            answer_place(rt, &fields, start, len)?;
            let written = acyclic_writer::write_answer(
                fields,
                octets::part(bytes, start, len),
                out,
            );
            again(rt, written, out)?;
        }
    }
    text(rt, b"\n")
}

fn written_call(rt: &impl Print, call: Call, data: &[u8], out: &mut [u8]) -> io::Result<()> {
    let written = acyclic_writer::write_call(call, data, out);
    stored(rt, written, out)
}

// A number for the kind of call, three bytes for its fields, and its data.
pub(crate) fn call_fields(rt: &impl Print, fields: &[u8], out: &mut [u8]) -> io::Result<()> {
    if fields.len() < 4 {
        return malformed(rt);
    }
    let slot = fields[1];
    let index = fields[2];
    let last = fields[3];
    let data = behind(fields, 4);
    match fields[0] {
        0 => written_call(rt, Call::Poll, data, out),
        1 => {
            let call = Call::Read {
                slot,
                index,
                length: last,
            };
            written_call(rt, call, data, out)
        }
        2 => written_call(rt, Call::Write { slot, index }, data, out),
        3 => {
            let call = Call::AlarmAck {
                slot,
                alarm: index,
                specifier: last,
            };
            written_call(rt, call, data, out)
        }
        4 => written_call(rt, Call::Idle, data, out),
        5 => written_call(rt, Call::Transport { slot, index }, data, out),
        _ => malformed(rt),
    }
}

fn written_answer(rt: &impl Print, answer: Answer, data: &[u8], out: &mut [u8]) -> io::Result<()> {
    let written = acyclic_writer::write_answer(answer, data, out);
    stored(rt, written, out)
}

// The fields of a negative answer.
fn negative_fields(
    rt: &impl Print,
    function: Function,
    fields: &[u8],
    out: &mut [u8],
) -> io::Result<()> {
    if fields.len() < 4 {
        return malformed(rt);
    }
    let answer = Answer::Negative {
        function,
        decode: fields[1],
        code1: fields[2],
        code2: fields[3],
    };
    written_answer(rt, answer, behind(fields, 4), out)
}

fn write_fields(rt: &impl Print, fields: &[u8], out: &mut [u8]) -> io::Result<()> {
    if fields.len() < 4 {
        return malformed(rt);
    }
    let answer = Answer::Write {
        slot: fields[1],
        index: fields[2],
        length: fields[3],
    };
    written_answer(rt, answer, behind(fields, 4), out)
}

fn alarm_fields(rt: &impl Print, fields: &[u8], out: &mut [u8]) -> io::Result<()> {
    if fields.len() < 4 {
        return malformed(rt);
    }
    let answer = Answer::AlarmAck {
        slot: fields[1],
        alarm: fields[2],
        specifier: fields[3],
    };
    written_answer(rt, answer, behind(fields, 4), out)
}

// A number for the kind of answer, three bytes for its fields, and its data.
pub(crate) fn answer_fields(rt: &impl Print, fields: &[u8], out: &mut [u8]) -> io::Result<()> {
    if fields.len() < 4 {
        return malformed(rt);
    }
    let slot = fields[1];
    let index = fields[2];
    let data = behind(fields, 4);
    match fields[0] {
        1 => written_answer(rt, Answer::Read { slot, index }, data, out),
        2 => write_fields(rt, fields, out),
        3 => alarm_fields(rt, fields, out),
        4 => written_answer(rt, Answer::Idle, data, out),
        5 => written_answer(rt, Answer::Transport { slot, index }, data, out),
        6 => negative_fields(rt, Function::Read, fields, out),
        7 => negative_fields(rt, Function::Write, fields, out),
        8 => negative_fields(rt, Function::AlarmAck, fields, out),
        9 => negative_fields(rt, Function::Transport, fields, out),
        _ => malformed(rt),
    }
}
