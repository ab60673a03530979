// The printer's replies as bytes, made at the front of the lent reply buffer. All have station type 0: bare
// ones stand in SD1, data in SD2.
ghost use Rattle.std.specs.Prelude.{◌≡◌, [], ◌≤◌, length};
ghost use Rattle.octets.specs.Refusals.{told};
ghost use Rattle.octets.specs.Front.{AtFront};
ghost use Rattle.fdl.specs.Writing.{confirmation_bytes};
ghost use Rattle.content.specs.Writing.{bytes_for};
ghost use Rattle.content.specs.declared.fields.Content.TheVariants as content;
ghost use Rattle.protocol.specs.Check.{stored_in};
ghost use Rattle.protocol.specs.Printer.{reply_bytes};
ghost use Rattle.protocol.specs.Telegrams.{bare_bytes, diagnosis_bytes, answer_of, outcome_bytes};
ghost use Rattle.printer_rules.specs.Meaning.{function_of, reply_in};
ghost use Rattle.printer.specs.Ready.{Between, Ready};

use access::Service;
use fdl::{Format, Header, Sap};
use octets::Refusal;
use printer_rules::{Reply, Status};
use protocol::Outcome;

// The function code of an answer with data.
const DATA: u8 = 8;

// How many bytes a result has.
const RESULT_LENGTH: usize = 4;

fn function_of(status: Status) -> u8
    ensures { result ≡ function_of status }
{
    match status {
        Status::Ok => 0,
        Status::UserError => 1,
        Status::NoResource => 2,
        Status::NoService => 3,
    }
}

// How many bytes a writer stored: no telegram has more than 255.
fn stored(written: Result<usize, Refusal>) -> u8
    requires { stored_in (told written) ≤ 255 }
    ensures { result ≡ stored_in (told written) }
{
    match written {
        Ok(count) => count as u8,
        Err(_) => 0,
    }
}

#[tactic(auto, unfolding(octets::specs::Front::answer_by, octets::specs::Front::held_by))]
fn say_confirmation(out: &mut [u8]) -> u8
    requires { 255 ≤ length out.old }
    ensures { AtFront confirmation_bytes out.old out.new result }
{
    stored(framing::write_confirmation(out))
}

pub(crate) fn say_bare(status: Status, address: u8, to: u8, out: &mut [u8]) -> u8
    requires { Between address to out.old }
    ensures { AtFront (bare_bytes to address (function_of status)) out.old out.new result }
{
    let header = Header {
        da: to,
        sa: address,
        fc: function_of(status),
        dsap: None,
        ssap: None,
    };
    stored(fdl_writer::write_around(Format::Sd1, header, 0, out))
}

fn say_diagnosis(diagnosis: &[u8], address: u8, to: u8, out: &mut [u8]) -> u8
    requires { Ready diagnosis.now address to out.old }
    ensures { AtFront (diagnosis_bytes to address diagnosis.now) out.old out.new result }
{
    let header = routing::header_of(Service::SlaveDiag, to, address, DATA);
    stored(fdl_writer::write(Format::Sd2, header, diagnosis, out))
}

// The four bytes of a result: 5F with slot, index and length, or DF with decode 128 and both codes.
fn put_result(outcome: Outcome, out: &mut [u8]) -> usize
    requires { 4 ≤ length out.old }
    ensures { AtFront (bytes_for (content.Dpv1Answer (answer_of outcome)) []) out.old out.new result }
{
    match outcome {
        Outcome::Positive {
            slot,
            index,
            length,
        } => {
            out[0] = acyclic::WRITE;
            out[1] = slot;
            out[2] = index;
            out[3] = length;
        }
        Outcome::Negative { code1, code2 } => {
            out[0] = acyclic::NEGATIVE_WRITE;
            out[1] = 128;
            out[2] = code1;
            out[3] = code2;
        }
    }
    RESULT_LENGTH
}

// A result goes straight to its place in the telegram, which is then made around it.
fn say_result(outcome: Outcome, address: u8, to: u8, out: &mut [u8]) -> u8
    requires { Between address to out.old }
    ensures { AtFront (outcome_bytes to address outcome) out.old out.new result }
{
    let header = routing::header_of(Service::Dpv1, to, address, DATA);
    let start = framing::user_start(Format::Sd2, header);
    let len = put_result(outcome, &mut out[start..]);
    stored(fdl_writer::write_around(Format::Sd2, header, len, out))
}

// Makes a reply to the station `to` at the front of out, and answers how many bytes it has.
pub(crate) fn say(reply: Reply, address: u8, to: u8, diagnosis: &[u8], out: &mut [u8]) -> u8
    requires { Ready diagnosis.now address to out.old }
    ensures { AtFront (reply_bytes diagnosis.now address to (reply_in reply)) out.old out.new result }
{
    match reply {
        Reply::Confirmation => say_confirmation(out),
        Reply::Bare(status) => say_bare(status, address, to, out),
        Reply::Diagnosis => say_diagnosis(diagnosis, address, to, out),
        Reply::Result(outcome) => say_result(outcome, address, to, out),
    }
}
