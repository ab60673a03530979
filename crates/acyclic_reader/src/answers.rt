// Reading answers.
ghost use Rattle.std.specs.Prelude.{◌≡◌};
ghost use Rattle.octets.specs.Refusals.{told};
ghost use Rattle.acyclic.specs.Numbers.{failed_by};
ghost use Rattle.acyclic.specs.Answers.{negative_for, four_of, read_answer_of};

use acyclic::{ALARM_ACK, Answer, IDLE, READ, TRANSPORT, WRITE};
use acyclic_forms::{allowed_in_answers, alone, counted_as, failed_by, negative, ranged};
use octets::{Read, Refusal};

// The negative answer that a number has, with count bytes behind it. A number that none has is
// reserved.
fn negative_by(
    number: u8,
    decode: u8,
    code1: u8,
    code2: u8,
    count: usize,
) -> Result<Read<Answer>, Refusal>
    ensures { told result ≡ negative_for (failed_by number) decode code1 code2 count }
{
    let function = failed_by(number).ok_or(Refusal::Dpv1Code)?;
    negative(decode, code1, count)?;
    let answer = Answer::Negative {
        function,
        decode,
        code1,
        code2,
    };
    Ok(Read {
        fields: answer,
        start: 4,
        len: count,
    })
}

// The answer of four fixed bytes, as its number has them read, with count bytes behind them.
#[tactic(auto, unfolding(acyclic::specs::Answers::four_of))]
fn four(number: u8, slot: u8, index: u8, last: u8, count: usize) -> Result<Read<Answer>, Refusal>
    ensures { told result ≡ four_of number slot index last count }
{
    let answer = match number {
        READ => {
            counted_as(last, 0, count)?;
            Answer::Read { slot, index }
        }
        WRITE => {
            ranged(last, count)?;
            Answer::Write {
                slot,
                index,
                length: last,
            }
        }
        ALARM_ACK => {
            alone(count)?;
            Answer::AlarmAck {
                slot,
                alarm: index,
                specifier: last,
            }
        }
        TRANSPORT => {
            counted_as(last, 0, count)?;
            Answer::Transport { slot, index }
        }
        _ => return negative_by(number, slot, index, last, count),
    };
    Ok(Read {
        fields: answer,
        start: 4,
        len: count,
    })
}

// Reads an answer: all of the lent slice is one. Where the answer has no data, they are none, at the end of the bytes.
#[tactic(auto, unfolding(acyclic::specs::Forms::where_allowed, acyclic::specs::Answers::read_answer_of, acyclic::specs::Forms::by_number))]
pub fn read_answer(bytes: &[u8]) -> Result<Read<Answer>, Refusal>
    ensures { told result ≡ read_answer_of bytes.now }
{
    if bytes.len() == 0 {
        return Err(Refusal::DataLength);
    }
    let number = bytes[0];
    if !allowed_in_answers(number) {
        return Err(Refusal::Dpv1Code);
    }
    if number == IDLE {
        let behind = bytes.len() - 1;
        alone(behind)?;
        return Ok(Read {
            fields: Answer::Idle,
            start: 1,
            len: behind,
        });
    }
    if bytes.len() < 4 {
        return Err(Refusal::DataLength);
    }
    four(number, bytes[1], bytes[2], bytes[3], bytes.len() - 4)
}
