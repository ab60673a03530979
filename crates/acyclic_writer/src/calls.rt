// Writing calls.
ghost use Rattle.std.specs.Prelude.{◌≡◌, length};
ghost use Rattle.octets.specs.Refusals.{told};
ghost use Rattle.octets.specs.Front.{answer_by, held_by};
ghost use Rattle.acyclic.specs.Calls.{verdict_for, bytes_for};

use crate::forms::{Front, write_bare, write_counted, write_four};
use acyclic::{ALARM_ACK, Call, IDLE, READ, TRANSPORT, WRITE};
use acyclic_forms::{alone, ranged};
use octets::Refusal;

// Writes a call from its fields and its data.
#[tactic(auto, unfolding(acyclic::specs::Forms::alone_of, octets::specs::Front::answer_by, octets::specs::Front::held_by))]
pub fn write_call(call: Call, part: &[u8], out: &mut [u8]) -> Result<usize, Refusal>
    ensures answer { told result ≡ answer_by (verdict_for call part.now) (bytes_for call part.now) (length out.old) }
    ensures bytes { out.new ≡ held_by (verdict_for call part.now) (bytes_for call part.now) out.old }
{
    match call {
        Call::Poll => {
            if 0 < part.len() {
                Err(Refusal::DataLength)
            } else {
                Ok(0)
            }
        }
        Call::Read {
            slot,
            index,
            length,
        } => {
            let front = Front(READ, slot, index, length);
            write_four(ranged(length, part.len()), front, part, out)
        }
        Call::Write { slot, index } => write_counted(WRITE, slot, index, 1, part, out),
        Call::AlarmAck {
            slot,
            alarm,
            specifier,
        } => {
            let front = Front(ALARM_ACK, slot, alarm, specifier);
            write_four(alone(part.len()), front, part, out)
        }
        Call::Idle => write_bare(IDLE, part, out),
        Call::Transport { slot, index } => write_counted(TRANSPORT, slot, index, 0, part, out),
    }
}
