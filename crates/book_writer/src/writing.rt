// Writing a book from its slots, lengths and bodies.
ghost use Rattle.std.specs.Prelude.{◌≡◌, ◌∷◌, ◌≤◌, length};
ghost use Rattle.octets.specs.Refusals.{told};
ghost use Rattle.octets.specs.Front.{AtFront, answer_by, held_by};
ghost use Rattle.book.specs.Writing.{pairs_of, book_bytes, verdict_of};

use crate::table::table_by;
use octets::Refusal;

// Stores the count and the table.
fn put_table(slots: &[u8], lengths: &[u8], out: &mut [u8]) -> usize
    requires { (length slots.now ≤ 16) × (length lengths.now ≡ length slots.now) × (length (length slots.now ∷ pairs_of slots.now lengths.now) ≤ length out.old) }
    ensures { AtFront (length slots.now ∷ pairs_of slots.now lengths.now) out.old out.new result }
{
    out[0] = slots.len() as u8;
    for (k, (slot, len)) in slots.iter().zip(lengths).enumerate() {
        out[1 + 2 * k] = *slot;
        out[2 + 2 * k] = *len;
    }
    1 + 2 * slots.len()
}

// Stores a whole book.
fn put(slots: &[u8], lengths: &[u8], bodies: &[u8], out: &mut [u8]) -> usize
    requires { (length slots.now ≤ 16) × (length lengths.now ≡ length slots.now) × (length (book_bytes slots.now lengths.now bodies.now) ≤ length out.old) }
    ensures { AtFront (book_bytes slots.now lengths.now bodies.now) out.old out.new result }
{
    let n = put_table(slots, lengths, out);
    octets::store_behind(n, bodies, out)
}

// Writes a book. A table that reading would refuse, and bodies that are not of its lengths, are not
// written.
#[tactic(auto, using(book::proofs::Lemmas::Parts::book_long), unfolding(book::specs::Writing::verdict_of, octets::specs::Front::answer_by, octets::specs::Front::held_by))]
pub fn write(slots: &[u8], lengths: &[u8], bodies: &[u8], out: &mut [u8]) -> Result<usize, Refusal>
    ensures answer { told result ≡ answer_by (verdict_of slots.now lengths.now bodies.now) (book_bytes slots.now lengths.now bodies.now) (length out.old) }
    ensures bytes { out.new ≡ held_by (verdict_of slots.now lengths.now bodies.now) (book_bytes slots.now lengths.now bodies.now) out.old }
{
    if slots.len() < 1 {
        return Err(Refusal::BookTable);
    }
    if 16 < slots.len() {
        return Err(Refusal::BookTable);
    }
    if lengths.len() != slots.len() {
        return Err(Refusal::BookTable);
    }
    let total = table_by(slots, lengths)?;
    if bodies.len() != total {
        return Err(Refusal::BookTable);
    }
    if out.len() < 1 + 2 * slots.len() + total {
        return Err(Refusal::NoRoom);
    }
    Ok(put(slots, lengths, bodies, out))
}
