// What is judged before any change.
ghost use Rattle.std.specs.Prelude.{◌≡◌, ltb};
ghost use Rattle.octets.specs.Choice.{◌or◌};
ghost use Rattle.octets.specs.Refusals.{verdict_in};
ghost use Rattle.protocol.specs.Printer.{lending, verdict_of};
ghost use Rattle.protocol.specs.Slots.{too_long};

use octets::Refusal;
use protocol::Printer;

// Whether this slot length is above 200, or one before it was.
fn longer(length: u8, long: bool) -> bool
    ensures { result ≡ (ltb 200 length or long) }
{
    200 < length || long
}

// Whether a slot length is above 200. All are looked at, so that the compiler compares them at once.
fn long_slot(lengths: &[u8; 16]) -> bool
    ensures { result ≡ too_long lengths.now }
{
    lengths
        .iter()
        .fold(false, |long, length| longer(*length, long))
}

// Whether a printer with what it is lent may be used: 12 for its address, a slot length or the diagnosis, 11
// for the reply buffer.
#[tactic(auto, unfolding(protocol::specs::Printer::verdict_of))]
pub fn usable(
    printer: Printer,
    diagnosis: &[u8],
    lengths: &[u8; 16],
    bodies: &[u8; 3200],
    reply: &[u8],
) -> Result<(), Refusal>
    ensures { verdict_in result ≡ verdict_of diagnosis.now (lending printer lengths.now bodies.now reply.now) }
{
    if 126 < printer.address {
        return Err(Refusal::Field);
    }
    if long_slot(lengths) {
        return Err(Refusal::Field);
    }
    if diagnosis_reader::read(diagnosis).is_err() {
        return Err(Refusal::Field);
    }
    if reply.len() < 255 {
        return Err(Refusal::NoRoom);
    }
    Ok(())
}
