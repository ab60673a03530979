// Reading calls.
ghost use Rattle.std.specs.Prelude.{◌≡◌};
ghost use Rattle.octets.specs.Refusals.{told};
ghost use Rattle.acyclic.specs.Calls.{four_of, read_call_of};

use acyclic::{ALARM_ACK, Call, IDLE, READ, TRANSPORT, WRITE};
use acyclic_forms::{allowed_in_calls, alone, counted_as, ranged};
use octets::{Read, Refusal};

// The call of four fixed bytes, as its number has them read, with count bytes behind them. A number
// that no such call has is reserved.
#[tactic(auto, unfolding(acyclic::specs::Calls::four_of))]
fn four(number: u8, slot: u8, index: u8, last: u8, count: usize) -> Result<Read<Call>, Refusal>
    ensures { told result ≡ four_of number slot index last count }
{
    let call = match number {
        READ => {
            ranged(last, count)?;
            Call::Read {
                slot,
                index,
                length: last,
            }
        }
        WRITE => {
            counted_as(last, 1, count)?;
            Call::Write { slot, index }
        }
        ALARM_ACK => {
            alone(count)?;
            Call::AlarmAck {
                slot,
                alarm: index,
                specifier: last,
            }
        }
        TRANSPORT => {
            counted_as(last, 0, count)?;
            Call::Transport { slot, index }
        }
        _ => return Err(Refusal::Dpv1Code),
    };
    Ok(Read {
        fields: call,
        start: 4,
        len: count,
    })
}

// Reads a call: all of the lent slice is one. Where the call has no data, they are none, at the end of the bytes.
#[tactic(auto, unfolding(acyclic::specs::Forms::where_allowed, acyclic::specs::Calls::read_call_of, acyclic::specs::Forms::by_number))]
pub fn read_call(bytes: &[u8]) -> Result<Read<Call>, Refusal>
    ensures { told result ≡ read_call_of bytes.now }
{
    if bytes.len() == 0 {
        return Ok(Read {
            fields: Call::Poll,
            start: 0,
            len: 0,
        });
    }
    let number = bytes[0];
    if !allowed_in_calls(number) {
        return Err(Refusal::Dpv1Code);
    }
    if number == IDLE {
        let behind = bytes.len() - 1;
        alone(behind)?;
        return Ok(Read {
            fields: Call::Idle,
            start: 1,
            len: behind,
        });
    }
    if bytes.len() < 4 {
        return Err(Refusal::DataLength);
    }
    four(number, bytes[1], bytes[2], bytes[3], bytes.len() - 4)
}
