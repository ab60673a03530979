// What written calls and answers share: the fixed bytes, and the part behind them, as each form has them.
ghost use Rattle.std.specs.Prelude.{◌≡◌, [], ◌∷◌, ◌++◌, ◌≤◌, length};
ghost use Rattle.octets.specs.Refusals.{told, verdict_in};
ghost use Rattle.octets.specs.Front.{AtFront, fine, answer_by, held_by};
ghost use Rattle.acyclic.specs.Forms.{alone_of, counted_of, four};
ghost use Rattle.acyclic_writer.specs.Forms.{front_bytes};

use acyclic_forms::counted;
use octets::Refusal;

// The four bytes in front of all but idle and poll, in turn: the function number and three more.
#[derive(Drop)]
pub(crate) struct Front(pub(crate) u8, pub(crate) u8, pub(crate) u8, pub(crate) u8);

fn put(front: Front, out: &mut [u8]) -> usize
    requires { 4 ≤ length out.old }
    ensures { AtFront (front_bytes front) out.old out.new result }
{
    out[0] = front.0;
    out[1] = front.1;
    out[2] = front.2;
    out[3] = front.3;
    4
}

// Writes the four bytes and a part that may stand behind them.
#[tactic(auto, unfolding(octets::specs::Front::answer_by, octets::specs::Front::held_by))]
fn store(front: Front, part: &[u8], out: &mut [u8]) -> Result<usize, Refusal>
    ensures answer { told result ≡ answer_by fine (front_bytes front ++ part.now) (length out.old) }
    ensures bytes { out.new ≡ held_by fine (front_bytes front ++ part.now) out.old }
{
    if out.len() < 4 + part.len() {
        return Err(Refusal::NoRoom);
    }
    let n = put(front, out);
    Ok(octets::store_behind(n, part, out))
}

// Writes the four bytes and the part, if the check on them let them stand.
#[tactic(auto, unfolding(octets::specs::Front::answer_by, octets::specs::Front::held_by))]
pub(crate) fn write_four(
    check: Result<(), Refusal>,
    front: Front,
    part: &[u8],
    out: &mut [u8],
) -> Result<usize, Refusal>
    ensures answer { told result ≡ answer_by (verdict_in check) (front_bytes front ++ part.now) (length out.old) }
    ensures bytes { out.new ≡ held_by (verdict_in check) (front_bytes front ++ part.now) out.old }
{
    check?;
    store(front, part, out)
}

// Writes the four bytes, the last of them the count of the part, and the part.
#[tactic(auto, unfolding(acyclic::specs::Forms::counted_of, octets::specs::Front::answer_by, octets::specs::Front::held_by))]
pub(crate) fn write_counted(
    number: u8,
    slot: u8,
    index: u8,
    least: usize,
    part: &[u8],
    out: &mut [u8],
) -> Result<usize, Refusal>
    ensures answer { told result ≡ answer_by (counted_of least (length part.now)) (four number slot index (length part.now) ++ part.now) (length out.old) }
    ensures bytes { out.new ≡ held_by (counted_of least (length part.now)) (four number slot index (length part.now) ++ part.now) out.old }
{
    counted(least, part.len())?;
    let length = part.len() as u8;
    let front = Front(number, slot, index, length);
    store(front, part, out)
}

// Writes a number that stands alone.
#[tactic(auto, unfolding(acyclic::specs::Forms::alone_of, octets::specs::Front::answer_by, octets::specs::Front::held_by))]
pub(crate) fn write_bare(number: u8, part: &[u8], out: &mut [u8]) -> Result<usize, Refusal>
    ensures answer { told result ≡ answer_by (alone_of (length part.now)) ((number ∷ []) ++ part.now) (length out.old) }
    ensures bytes { out.new ≡ held_by (alone_of (length part.now)) ((number ∷ []) ++ part.now) out.old }
{
    if 0 < part.len() {
        return Err(Refusal::DataLength);
    }
    if out.len() < 1 {
        return Err(Refusal::NoRoom);
    }
    out[0] = number;
    Ok(1)
}
