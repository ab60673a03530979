// The printer's step through the C interface.
#![tactic(auto)]

ghost use Rattle.std.specs.Prelude.{◌≡◌};
ghost use Rattle.octets.specs.Refusals.{told};
ghost use Rattle.capi_printer.specs.PrinterEnd.{printer_step, refusal_in, state_after, sent_after};

use octets::Refusal;
use printer_bytes::{printer_in, put_printer};
use protocol::Reaction;

// Stores the printer after a step and how many bytes it sends back, and answers the refusal, 0 for none.
fn put_reaction(reaction: Result<Reaction, Refusal>, state: &mut [u8; 11], sent: &mut usize) -> u8
    ensures refusal { result ≡ refusal_in (told reaction) }
    ensures state { state.new ≡ state_after (told reaction) state.old }
    ensures sent { sent.new ≡ sent_after (told reaction) sent.old }
{
    match reaction {
        Ok(Reaction { printer, reply }) => {
            put_printer(printer, state);
            *sent = reply as usize;
            0
        }
        Err(refusal) => refusal.number(),
    }
}

// What the printer does with a telegram that reached it.
#[unsafe(no_mangle)]
pub extern "C" fn rabtunex_printer_step(
    state: &mut [u8; 11],
    telegram: &[u8],
    diagnosis: &[u8],
    not_yet: u8,
    lengths: &mut [u8; 16],
    bodies: &mut [u8; 3200],
    reply: &mut [u8],
    sent: &mut usize,
) -> u8
    ensures refusal { result ≡ refusal_in (printer_step state.old telegram.now diagnosis.now not_yet lengths.old bodies.old reply.old).answer }
    ensures state { state.new ≡ state_after (printer_step state.old telegram.now diagnosis.now not_yet lengths.old bodies.old reply.old).answer state.old }
    ensures lengths { lengths.new ≡ (printer_step state.old telegram.now diagnosis.now not_yet lengths.old bodies.old reply.old).slots.lengths }
    ensures bodies { bodies.new ≡ (printer_step state.old telegram.now diagnosis.now not_yet lengths.old bodies.old reply.old).slots.bodies }
    ensures reply { reply.new ≡ (printer_step state.old telegram.now diagnosis.now not_yet lengths.old bodies.old reply.old).buffer }
    ensures sent { sent.new ≡ sent_after (printer_step state.old telegram.now diagnosis.now not_yet lengths.old bodies.old reply.old).answer sent.old }
{
    match printer_in(state) {
        None => Refusal::Field.number(),
        Some(printer) => {
            let reaction = printer::step(
                printer, telegram, diagnosis, not_yet, lengths, bodies, reply,
            );
            put_reaction(reaction, state, sent)
        }
    }
}
