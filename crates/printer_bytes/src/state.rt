// The printer's state as eleven bytes.
ghost use Rattle.std.specs.Prelude.{◌≡◌};
ghost use Rattle.printer_bytes.specs.State.{pending_by, printer_in, pending_bytes, five_bytes, printer_bytes};

use octets::bit_of;
use protocol::{Outcome, Pending, Printer};

// The pending result: its kind, three fields that each kind has its own use for, and the polls before it.
#[derive(Clone, Copy)]
struct Five(u8, u8, u8, u8, u8);

#[tactic(auto, unfolding(crate::specs::State::pending_by))]
fn pending_by(kind: u8, first: u8, second: u8, third: u8, wait: u8) -> Option<Pending>
    ensures { result ≡ pending_by kind first second third wait }
{
    match kind {
        0 => Some(Pending::Nothing),
        1 => Some(Pending::Result {
            outcome: Outcome::Positive {
                slot: first,
                index: second,
                length: third,
            },
            wait,
        }),
        2 => Some(Pending::Result {
            outcome: Outcome::Negative {
                code1: first,
                code2: second,
            },
            wait,
        }),
        _ => None,
    }
}

// The printer that the bytes are the state of: neither test is above 1, and the kind of the pending result
// is known.
#[tactic(auto, unfolding(crate::specs::State::printer_in))]
pub fn printer_in(state: &[u8; 11]) -> Option<Printer>
    ensures { result ≡ printer_in state.now }
{
    if 1 < state[1] {
        return None;
    }
    if 1 < state[2] {
        return None;
    }
    let pending = pending_by(state[5], state[6], state[7], state[8], state[9])?;
    Some(Printer {
        address: state[0],
        boarding: state[1] == 1,
        fcb: state[2] == 1,
        sa: state[3],
        held: state[4],
        pending,
        writes: state[10],
    })
}

fn pending_bytes(pending: Pending) -> Five
    ensures { five_bytes result ≡ pending_bytes pending }
{
    match pending {
        Pending::Nothing => Five(0, 0, 0, 0, 0),
        Pending::Result { outcome, wait } => match outcome {
            Outcome::Positive {
                slot,
                index,
                length,
            } => Five(1, slot, index, length, wait),
            Outcome::Negative { code1, code2 } => Five(2, code1, code2, 0, wait),
        },
    }
}

// Stores a printer's state.
pub fn put_printer(printer: Printer, state: &mut [u8; 11])
    ensures { state.new ≡ printer_bytes printer }
{
    let five = pending_bytes(printer.pending);
    *state = [
        printer.address,
        bit_of(printer.boarding),
        bit_of(printer.fcb),
        printer.sa,
        printer.held,
        five.0,
        five.1,
        five.2,
        five.3,
        five.4,
        printer.writes,
    ];
}
