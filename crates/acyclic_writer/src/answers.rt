// Writing answers.
ghost use Rattle.std.specs.Prelude.{◌≡◌, length};
ghost use Rattle.octets.specs.Refusals.{told};
ghost use Rattle.octets.specs.Front.{answer_by, held_by};
ghost use Rattle.acyclic.specs.Answers.{verdict_for, bytes_for};

use crate::forms::{Front, write_bare, write_counted, write_four};
use acyclic::{ALARM_ACK, Answer, IDLE, READ, TRANSPORT, WRITE};
use acyclic_forms::{alone, negative, negative_number, ranged};
use octets::Refusal;

// Writes an answer from its fields and its data.
pub fn write_answer(answer: Answer, part: &[u8], out: &mut [u8]) -> Result<usize, Refusal>
    ensures answer { told result ≡ answer_by (verdict_for answer part.now) (bytes_for answer part.now) (length out.old) }
    ensures bytes { out.new ≡ held_by (verdict_for answer part.now) (bytes_for answer part.now) out.old }
{
    match answer {
        Answer::Read { slot, index } => write_counted(READ, slot, index, 0, part, out),
        Answer::Write {
            slot,
            index,
            length,
        } => {
            let front = Front(WRITE, slot, index, length);
            write_four(ranged(length, part.len()), front, part, out)
        }
        Answer::AlarmAck {
            slot,
            alarm,
            specifier,
        } => {
            let front = Front(ALARM_ACK, slot, alarm, specifier);
            write_four(alone(part.len()), front, part, out)
        }
        Answer::Idle => write_bare(IDLE, part, out),
        Answer::Transport { slot, index } => write_counted(TRANSPORT, slot, index, 0, part, out),
        Answer::Negative {
            function,
            decode,
            code1,
            code2,
        } => {
            let front = Front(negative_number(function), decode, code1, code2);
            write_four(negative(decode, code1, part.len()), front, part, out)
        }
    }
}
