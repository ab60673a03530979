// Function numbers, the first byte of a call or an answer: which are allowed in which way, and those of negative answers.
ghost use Rattle.std.specs.Prelude.{◌≡◌};
ghost use Rattle.acyclic.specs.Numbers.{negative_number, failed_by, allowed_in_calls, allowed_in_answers};

use acyclic::{
    ALARM_ACK, Function, IDLE, NEGATIVE_ALARM_ACK, NEGATIVE_READ, NEGATIVE_TRANSPORT,
    NEGATIVE_WRITE, READ, TRANSPORT, WRITE,
};

// The number of a function's negative answer: its own plus 80 hex.
pub fn negative_number(function: Function) -> u8
    ensures { result ≡ negative_number function }
{
    match function {
        Function::Read => NEGATIVE_READ,
        Function::Write => NEGATIVE_WRITE,
        Function::AlarmAck => NEGATIVE_ALARM_ACK,
        Function::Transport => NEGATIVE_TRANSPORT,
    }
}

// The other way round: the function whose negative answer has this number.
#[tactic(auto, unfolding(acyclic::specs::Numbers::failed_by))]
pub fn failed_by(number: u8) -> Option<Function>
    ensures { result ≡ failed_by number }
{
    match number {
        NEGATIVE_READ => Some(Function::Read),
        NEGATIVE_WRITE => Some(Function::Write),
        NEGATIVE_ALARM_ACK => Some(Function::AlarmAck),
        NEGATIVE_TRANSPORT => Some(Function::Transport),
        _ => None,
    }
}

pub fn allowed_in_calls(number: u8) -> bool
    ensures { result ≡ allowed_in_calls number }
{
    match number {
        READ => true,
        WRITE => true,
        ALARM_ACK => true,
        IDLE => true,
        TRANSPORT => true,
        _ => false,
    }
}

// The same numbers, and those of negative answers.
pub fn allowed_in_answers(number: u8) -> bool
    ensures { result ≡ allowed_in_answers number }
{
    if allowed_in_calls(number) {
        return true;
    }
    let failed = failed_by(number);
    match failed {
        Some(_) => true,
        None => false,
    }
}
