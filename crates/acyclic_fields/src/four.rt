// The first four fields of DPV1 calls and answers, and what such fields name.
ghost use Rattle.std.specs.Prelude.{◌≡◌};
ghost use Rattle.acyclic.specs.Numbers.{failed_by};
ghost use Rattle.acyclic_fields.specs.Four.{four_bytes, call_four, answer_four, call_named, negative_named, answer_named};

use acyclic::{ALARM_ACK, Answer, Call, IDLE, READ, TRANSPORT, WRITE};
use acyclic_forms::{failed_by, negative_number};

// The first four fields: the number, and three that each case has its own use for.
#[derive(Drop)]
pub struct Four(pub u8, pub u8, pub u8, pub u8);

// The first four fields of a call. A poll has no byte that its number could stand in: no other call
// has the number 0.
pub fn call_four(call: Call) -> Four
    ensures { four_bytes result ≡ call_four call }
{
    match call {
        Call::Poll => Four(0, 0, 0, 0),
        Call::Read {
            slot,
            index,
            length,
        } => Four(READ, slot, index, length),
        Call::Write { slot, index } => Four(WRITE, slot, index, 0),
        Call::AlarmAck {
            slot,
            alarm,
            specifier,
        } => Four(ALARM_ACK, slot, alarm, specifier),
        Call::Idle => Four(IDLE, 0, 0, 0),
        Call::Transport { slot, index } => Four(TRANSPORT, slot, index, 0),
    }
}

// The first four fields of an answer.
pub fn answer_four(answer: Answer) -> Four
    ensures { four_bytes result ≡ answer_four answer }
{
    match answer {
        Answer::Read { slot, index } => Four(READ, slot, index, 0),
        Answer::Write {
            slot,
            index,
            length,
        } => Four(WRITE, slot, index, length),
        Answer::AlarmAck {
            slot,
            alarm,
            specifier,
        } => Four(ALARM_ACK, slot, alarm, specifier),
        Answer::Idle => Four(IDLE, 0, 0, 0),
        Answer::Transport { slot, index } => Four(TRANSPORT, slot, index, 0),
        Answer::Negative {
            function,
            decode,
            code1,
            code2,
        } => Four(negative_number(function), decode, code1, code2),
    }
}

// What fields that are to be written name by their number.
#[derive(Drop)]
pub enum Case {
    Call(Call),
    Answer(Answer),
}

// What the number and the three fields behind it name in a call, if a call has that number. Fields that
// the call does not have are not looked at.
#[tactic(auto, unfolding(crate::specs::Four::call_named))]
pub fn call_named(number: u8, slot: u8, index: u8, last: u8) -> Option<Case>
    ensures { result ≡ call_named number slot index last }
{
    match number {
        0 => Some(Case::Call(Call::Poll)),
        READ => Some(Case::Call(Call::Read {
            slot,
            index,
            length: last,
        })),
        WRITE => Some(Case::Call(Call::Write { slot, index })),
        ALARM_ACK => Some(Case::Call(Call::AlarmAck {
            slot,
            alarm: index,
            specifier: last,
        })),
        IDLE => Some(Case::Call(Call::Idle)),
        TRANSPORT => Some(Case::Call(Call::Transport { slot, index })),
        _ => None,
    }
}

// What a number that no positive answer has names in an answer, if one has it.
fn negative_named(number: u8, decode: u8, code1: u8, code2: u8) -> Option<Case>
    ensures { result ≡ negative_named (failed_by number) decode code1 code2 }
{
    let function = failed_by(number)?;
    Some(Case::Answer(Answer::Negative {
        function,
        decode,
        code1,
        code2,
    }))
}

// What the number and the three fields behind it name in an answer, if an answer has that number.
#[tactic(auto, unfolding(crate::specs::Four::answer_named))]
pub fn answer_named(number: u8, slot: u8, index: u8, last: u8) -> Option<Case>
    ensures { result ≡ answer_named number slot index last }
{
    match number {
        READ => Some(Case::Answer(Answer::Read { slot, index })),
        WRITE => Some(Case::Answer(Answer::Write {
            slot,
            index,
            length: last,
        })),
        ALARM_ACK => Some(Case::Answer(Answer::AlarmAck {
            slot,
            alarm: index,
            specifier: last,
        })),
        IDLE => Some(Case::Answer(Answer::Idle)),
        TRANSPORT => Some(Case::Answer(Answer::Transport { slot, index })),
        _ => negative_named(number, slot, index, last),
    }
}
