// Writing user data at the front of a lent slice, by their service and their way. What goes the other
// way alone gets 10.
ghost use Rattle.std.specs.Prelude.{◌≡◌, length};
ghost use Rattle.octets.specs.Refusals.{told};
ghost use Rattle.octets.specs.Front.{answer_by, held_by};
ghost use Rattle.content.specs.Writing.{bytes_for, at_most, call_verdict, answer_verdict};

use content::Content;
use octets::Refusal;

// Writes bytes as they are: plain ones, or none.
fn write_at_most(most: usize, part: &[u8], out: &mut [u8]) -> Result<usize, Refusal>
    ensures answer { told result ≡ answer_by (at_most most part.now) part.now (length out.old) }
    ensures bytes { out.new ≡ held_by (at_most most part.now) part.now out.old }
{
    if most < part.len() {
        return Err(Refusal::DataLength);
    }
    if out.len() < part.len() {
        return Err(Refusal::NoRoom);
    }
    Ok(octets::store(part, out))
}

// Writes the user data of a call from the fields and the part behind them.
pub fn write_call(content: Content, part: &[u8], out: &mut [u8]) -> Result<usize, Refusal>
    ensures answer { told result ≡ answer_by (call_verdict content part.now) (bytes_for content part.now) (length out.old) }
    ensures bytes { out.new ≡ held_by (call_verdict content part.now) (bytes_for content part.now) out.old }
{
    match content {
        Content::DataExchange => write_at_most(244, part, out),
        Content::Dpv1Call(call) => acyclic_writer::write_call(call, part, out),
        Content::Dpv1Answer(_) => Err(Refusal::NoService),
        Content::ExtUserPrm => write_at_most(244, part, out),
        Content::SetSlaveAdr(fields) => address_change::write_address_change(fields, part, out),
        Content::RdInp => write_at_most(0, part, out),
        Content::RdOutp => write_at_most(0, part, out),
        Content::GlobalControl(fields) => control::write_global_command(fields, part, out),
        Content::GetCfg => write_at_most(0, part, out),
        Content::SlaveDiagCall => write_at_most(0, part, out),
        Content::SlaveDiag(_) => Err(Refusal::NoService),
        Content::SetPrm(fields) => parameters_writer::write(fields, part, out),
        Content::ChkCfg => configuration_writer::write(part, out),
    }
}

// Writes the user data of an answer from the fields and the part behind them.
pub fn write_answer(content: Content, part: &[u8], out: &mut [u8]) -> Result<usize, Refusal>
    ensures answer { told result ≡ answer_by (answer_verdict content part.now) (bytes_for content part.now) (length out.old) }
    ensures bytes { out.new ≡ held_by (answer_verdict content part.now) (bytes_for content part.now) out.old }
{
    match content {
        Content::DataExchange => write_at_most(244, part, out),
        Content::Dpv1Call(_) => Err(Refusal::NoService),
        Content::Dpv1Answer(answer) => acyclic_writer::write_answer(answer, part, out),
        Content::ExtUserPrm => Err(Refusal::NoService),
        Content::SetSlaveAdr(_) => Err(Refusal::NoService),
        Content::RdInp => write_at_most(244, part, out),
        Content::RdOutp => write_at_most(244, part, out),
        Content::GlobalControl(_) => Err(Refusal::NoService),
        Content::GetCfg => configuration_writer::write(part, out),
        Content::SlaveDiagCall => Err(Refusal::NoService),
        Content::SlaveDiag(header) => diagnosis_writer::write(header, part, out),
        Content::SetPrm(_) => Err(Refusal::NoService),
        Content::ChkCfg => Err(Refusal::NoService),
    }
}
