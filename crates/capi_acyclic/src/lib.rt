// Calls and answers of DPV1 through the C interface, by the same six fields for reading and writing.
#![tactic(auto)]

ghost use Rattle.std.specs.Prelude.{◌≡◌, length};
ghost use Rattle.acyclic.specs.Calls.{read_call_of};
ghost use Rattle.acyclic.specs.Answers.{read_answer_of};
ghost use Rattle.fields.specs.Outcome.{status_of, count_after};
ghost use Rattle.capi_acyclic.specs.Acyclic.{call_refusal, answer_refusal, call_after, answer_after, call_in, answer_in, answer_of, held_of};

use acyclic_fields::Case;
use fields::{store_count, told};
use octets::{Read, Refusal};

// Reads a call into its fields.
#[unsafe(no_mangle)]
pub extern "C" fn rabtunex_read_dpv1_call(bytes: &[u8], fields: &mut [u8; 6]) -> u8
    ensures refusal { result ≡ call_refusal (read_call_of bytes.now) }
    ensures fields { fields.new ≡ call_after (read_call_of bytes.now) fields.old }
{
    let reading = acyclic_reader::read_call(bytes);
    match reading {
        Ok(
            Read {
                fields: call,
                start,
                len,
            },
        ) => {
            let call = acyclic_fields::call_four(call);
            *fields = [call.0, call.1, call.2, call.3, start as u8, len as u8];
            0
        }
        Err(refusal) => refusal.number(),
    }
}

// Reads an answer into its fields.
#[unsafe(no_mangle)]
pub extern "C" fn rabtunex_read_dpv1_answer(bytes: &[u8], fields: &mut [u8; 6]) -> u8
    ensures refusal { result ≡ answer_refusal (read_answer_of bytes.now) }
    ensures fields { fields.new ≡ answer_after (read_answer_of bytes.now) fields.old }
{
    let reading = acyclic_reader::read_answer(bytes);
    match reading {
        Ok(
            Read {
                fields: answer,
                start,
                len,
            },
        ) => {
            let answer = acyclic_fields::answer_four(answer);
            *fields = [
                answer.0,
                answer.1,
                answer.2,
                answer.3,
                start as u8,
                len as u8,
            ];
            0
        }
        Err(refusal) => refusal.number(),
    }
}

// Writes what was named, with its data, and its length to stored.
#[tactic(auto, unfolding(octets::specs::Front::answer_by, octets::specs::Front::held_by))]
fn write_case(case: Option<Case>, part: &[u8], out: &mut [u8], stored: &mut usize) -> u8
    ensures refusal { result ≡ status_of (answer_of case part.now (length out.old)) }
    ensures bytes { out.new ≡ held_of case part.now out.old }
    ensures count { stored.new ≡ count_after (answer_of case part.now (length out.old)) stored.old }
{
    match case {
        Some(Case::Call(call)) => store_count(
            told(acyclic_writer::write_call(call, part, out)),
            stored,
        ),
        Some(Case::Answer(answer)) => store_count(
            told(acyclic_writer::write_answer(answer, part, out)),
            stored,
        ),
        None => Refusal::Dpv1Code.number(),
    }
}

// Writes a call from its fields and its data, and its length to stored.
#[unsafe(no_mangle)]
pub extern "C" fn rabtunex_write_dpv1_call(
    fields: &[u8; 6],
    part: &[u8],
    out: &mut [u8],
    stored: &mut usize,
) -> u8
    ensures refusal { result ≡ status_of (answer_of (call_in fields.now) part.now (length out.old)) }
    ensures bytes { out.new ≡ held_of (call_in fields.now) part.now out.old }
    ensures count { stored.new ≡ count_after (answer_of (call_in fields.now) part.now (length out.old)) stored.old }
{
    let case = acyclic_fields::call_named(fields[0], fields[1], fields[2], fields[3]);
    write_case(case, part, out, stored)
}

// Writes an answer from its fields and its data, and its length to stored.
#[unsafe(no_mangle)]
pub extern "C" fn rabtunex_write_dpv1_answer(
    fields: &[u8; 6],
    part: &[u8],
    out: &mut [u8],
    stored: &mut usize,
) -> u8
    ensures refusal { result ≡ status_of (answer_of (answer_in fields.now) part.now (length out.old)) }
    ensures bytes { out.new ≡ held_of (answer_in fields.now) part.now out.old }
    ensures count { stored.new ≡ count_after (answer_of (answer_in fields.now) part.now (length out.old)) stored.old }
{
    let case = acyclic_fields::answer_named(fields[0], fields[1], fields[2], fields[3]);
    write_case(case, part, out, stored)
}
