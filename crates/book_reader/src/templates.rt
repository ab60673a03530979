// Finding one template of a book.
ghost use Rattle.std.specs.Prelude.{◌≡◌};
ghost use Rattle.octets.specs.Refusals.{told};
ghost use Rattle.book.specs.Template.{listed_of, template_of};

use crate::reading::read;
use crate::table::sum_before;
use book::Template;
use octets::Refusal;

// Template k, counted from 1, by the table alone: of a book that was read, `template` without reading it again. A k
// that the table does not have is the caller's fault, and so is a table that is not there.
#[tactic(auto, unfolding(book::specs::Template::entry_at, book::specs::Template::listed_of))]
pub fn listed(bytes: &[u8], k: usize) -> Result<Template, Refusal>
    ensures { told result ≡ listed_of bytes.now k }
{
    if bytes.len() < 1 {
        return Err(Refusal::Field);
    }
    let count = bytes[0] as usize;
    if k < 1 {
        return Err(Refusal::Field);
    }
    if count < k {
        return Err(Refusal::Field);
    }
    if 16 < count {
        return Err(Refusal::Field);
    }
    if bytes.len() < 1 + 2 * count {
        return Err(Refusal::Field);
    }
    let before = sum_before(bytes, k - 1);
    Ok(Template {
        slot: bytes[2 * k - 1],
        start: 1 + 2 * count + before,
        len: bytes[2 * k] as usize,
    })
}

// Template k of a book, counted from 1. A k that the book does not have is the caller's fault.
#[tactic(auto, using(book::proofs::Laws::listed_is), unfolding(book::specs::Template::template_of))]
pub fn template(bytes: &[u8], k: usize) -> Result<Template, Refusal>
    ensures { told result ≡ template_of bytes.now k }
{
    read(bytes)?;
    listed(bytes, k)
}
