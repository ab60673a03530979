// Writing a diagnosis at the front of a lent slice.
ghost use Rattle.std.specs.Prelude.{◌≡◌, ◌≤◌, length};
ghost use Rattle.octets.specs.Refusals.{told};
ghost use Rattle.octets.specs.Front.{AtFront, answer_by, held_by};
ghost use Rattle.diagnosis.specs.Writing.{header_bytes, diagnosis_bytes, verdict_of};

use diagnosis::Header;
use diagnosis_reader::blocks_behind;
use octets::Refusal;

fn put_header(header: Header, out: &mut [u8]) -> usize
    requires { 6 ≤ length out.old }
    ensures { AtFront (header_bytes header) out.old out.new result }
{
    out[0] = header.status1;
    out[1] = header.status2;
    out[2] = header.status3;
    out[3] = header.master;
    4 + octets::store16(header.ident, &mut out[4..])
}

fn put_diagnosis(header: Header, blocks: &[u8], out: &mut [u8]) -> usize
    requires { length (diagnosis_bytes header blocks.now) ≤ length out.old }
    ensures { AtFront (diagnosis_bytes header blocks.now) out.old out.new result }
{
    let n = put_header(header, out);
    octets::store_behind(n, blocks, out)
}

// Writes a diagnosis from its header and the bytes of its blocks.
#[tactic(auto, unfolding(octets::specs::Front::answer_by, octets::specs::Front::held_by))]
pub fn write(header: Header, blocks: &[u8], out: &mut [u8]) -> Result<usize, Refusal>
    ensures answer { told result ≡ answer_by (verdict_of header blocks.now) (diagnosis_bytes header blocks.now) (length out.old) }
    ensures bytes { out.new ≡ held_by (verdict_of header blocks.now) (diagnosis_bytes header blocks.now) out.old }
{
    blocks_behind(header, blocks)?;
    if out.len() < 6 + blocks.len() {
        return Err(Refusal::NoRoom);
    }
    Ok(put_diagnosis(header, blocks, out))
}
