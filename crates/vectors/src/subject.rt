// What a line's bytes are, by the letter that named it, and the answer to them.
use crate::acyclic_line::{answer_fields, answer_line, call_fields, call_line};
use crate::answer;
use crate::answer::malformed;
use crate::book_line::{book_fields, book_line};
use crate::configuration_line::{configuration_fields, configuration_line, module_fields};
use crate::control_line::{address_fields, address_line, command_fields, command_line};
use crate::diagnosis_line::{
    channel_fields, device_fields, diagnosis_fields, diagnosis_line, map_fields,
};
use crate::download_line::download_line;
use crate::outcome::behind;
use crate::parameters_line::{dpv0_fields, dpv1_fields, parameters_line};
use crate::service_line::service_line;
use crate::typed_line::{typed_fields, typed_line};
use octets::Mode;
use std::io;

#[derive(Clone, Copy)]
pub(crate) enum Subject {
    Telegram,
    Diagnosis,
    Parameters,
    Dpv1Parameters,
    Configuration,
    AddressChange,
    GlobalCommand,
    AcyclicCall,
    AcyclicAnswer,
    TypedValue,
    Book,
    // Whole telegrams of services, with parameters of either version.
    Service,
    Dpv1Service,
    Download,
    // Behind a byte that says how much room the writer is lent, the fields that it is given.
    Fields(Writer),
}

#[derive(Clone, Copy)]
pub(crate) enum Writer {
    Diagnosis,
    Device,
    Map,
    Channel,
    Parameters,
    Dpv1Parameters,
    Module,
    Configuration,
    AddressChange,
    GlobalCommand,
    AcyclicCall,
    AcyclicAnswer,
    TypedValue,
    Book,
}

// What the letter after = says; None where it names nothing.
pub(crate) fn subject_of(letter: u8) -> Option<Subject> {
    let subject = match letter {
        b't' => Subject::Telegram,
        b'd' => Subject::Diagnosis,
        b'p' => Subject::Parameters,
        b'q' => Subject::Dpv1Parameters,
        b'c' => Subject::Configuration,
        b'a' => Subject::AddressChange,
        b'g' => Subject::GlobalCommand,
        b'x' => Subject::AcyclicCall,
        b'y' => Subject::AcyclicAnswer,
        b'v' => Subject::TypedValue,
        b'b' => Subject::Book,
        b's' => Subject::Service,
        b'u' => Subject::Dpv1Service,
        b'l' => Subject::Download,
        _ => return None,
    };
    Some(subject)
}

// What the letter after > says; None where it names nothing.
pub(crate) fn fields_of(letter: u8) -> Option<Subject> {
    let writer = match letter {
        b'd' => Writer::Diagnosis,
        b'e' => Writer::Device,
        b'm' => Writer::Map,
        b'h' => Writer::Channel,
        b'p' => Writer::Parameters,
        b'q' => Writer::Dpv1Parameters,
        b'n' => Writer::Module,
        b'c' => Writer::Configuration,
        b'a' => Writer::AddressChange,
        b'g' => Writer::GlobalCommand,
        b'x' => Writer::AcyclicCall,
        b'y' => Writer::AcyclicAnswer,
        b'v' => Writer::TypedValue,
        b'b' => Writer::Book,
        _ => return None,
    };
    Some(Subject::Fields(writer))
}

fn written(rt: &impl Print, writer: Writer, fields: &[u8], out: &mut [u8]) -> io::Result<()> {
    match writer {
        Writer::Diagnosis => diagnosis_fields(rt, fields, out),
        Writer::Device => device_fields(rt, fields, out),
        Writer::Map => map_fields(rt, fields, out),
        Writer::Channel => channel_fields(rt, fields, out),
        Writer::Parameters => dpv0_fields(rt, fields, out),
        Writer::Dpv1Parameters => dpv1_fields(rt, fields, out),
        Writer::Module => module_fields(rt, fields, out),
        Writer::Configuration => configuration_fields(rt, fields, out),
        Writer::AddressChange => address_fields(rt, fields, out),
        Writer::GlobalCommand => command_fields(rt, fields, out),
        Writer::AcyclicCall => call_fields(rt, fields, out),
        Writer::AcyclicAnswer => answer_fields(rt, fields, out),
        Writer::TypedValue => typed_fields(rt, fields, out),
        Writer::Book => book_fields(rt, fields, out),
    }
}

fn written_within(
    rt: &impl Print,
    room: u8,
    writer: Writer,
    fields: &[u8],
    out: &mut [u8],
) -> io::Result<()> {
    let n = room as usize;
    if out.len() < n {
        return malformed(rt);
    }
    written(rt, writer, fields, &mut out[..n])
}

fn fields_line(rt: &impl Print, writer: Writer, bytes: &[u8], out: &mut [u8]) -> io::Result<()> {
    if bytes.len() < 1 {
        return malformed(rt);
    }
    written_within(rt, bytes[0], writer, behind(bytes, 1), out)
}

// Writing goes to out.
pub(crate) fn answer_to(
    rt: &impl Print,
    subject: Subject,
    bytes: &[u8],
    out: &mut [u8],
) -> io::Result<()> {
    match subject {
        Subject::Telegram => answer::telegram(rt, bytes),
        Subject::Diagnosis => diagnosis_line(rt, bytes, out),
        Subject::Parameters => parameters_line(rt, bytes, Mode::Dpv0, out),
        Subject::Dpv1Parameters => parameters_line(rt, bytes, Mode::Dpv1, out),
        Subject::Configuration => configuration_line(rt, bytes, out),
        Subject::AddressChange => address_line(rt, bytes, out),
        Subject::GlobalCommand => command_line(rt, bytes, out),
        Subject::AcyclicCall => call_line(rt, bytes, out),
        Subject::AcyclicAnswer => answer_line(rt, bytes, out),
        Subject::TypedValue => typed_line(rt, bytes, out),
        Subject::Book => book_line(rt, bytes, out),
        Subject::Service => service_line(rt, bytes, Mode::Dpv0, out),
        Subject::Dpv1Service => service_line(rt, bytes, Mode::Dpv1, out),
        Subject::Download => download_line(rt, bytes),
        Subject::Fields(writer) => fields_line(rt, writer, bytes, out),
    }
}
