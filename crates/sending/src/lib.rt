// One sending of a request (document 01, "Template book, printer, download"): the printer's step between what
// the line does.
#![tactic(auto)]

ghost use Rattle.std.specs.Prelude.{◌≡◌, get_or};
ghost use Rattle.octets.specs.Refusals.{told};
ghost use Rattle.protocol.specs.Printer.{lending, leaving};
ghost use Rattle.sending.specs.Sending.{sent_of};

use octets::Refusal;
use protocol::{Printer, Reaction};

// The byte at place `i`, and 0 where the list has none.
pub fn at(list: &[u8], i: usize) -> u8
    ensures { result ≡ get_or list.now i 0 }
{
    list.get(i).copied().unwrap_or(0)
}

// One sending of a request, as the line's entry has it: 0 through, 1 request lost, 2 reply lost; any other
// gives 12. What comes back is so many bytes at the front of `reply`.
#[tactic(auto, unfolding(crate::specs::Sending::sent_of))]
pub fn send(
    entry: u8,
    request: &[u8],
    printer: Printer,
    not_yet: &[u8],
    diagnosis: &[u8],
    lengths: &mut [u8; 16],
    bodies: &mut [u8; 3200],
    reply: &mut [u8],
) -> Result<Reaction, Refusal>
    ensures { leaving (told result) lengths.new bodies.new reply.new
        ≡ sent_of entry request.now not_yet.now diagnosis.now (lending printer lengths.old bodies.old reply.old) }
{
    if 2 < entry {
        return Err(Refusal::Field);
    }
    if entry == 1 {
        return Ok(Reaction { printer, reply: 0 });
    }
    let number = at(not_yet, printer.writes as usize);
    let reaction = printer::step(printer, request, diagnosis, number, lengths, bodies, reply)?;
    if entry == 2 {
        return Ok(Reaction {
            reply: 0,
            ..reaction
        });
    }
    Ok(reaction)
}
