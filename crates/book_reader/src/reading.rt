// Reading a book: all of the lent slice is one.
ghost use Rattle.std.specs.Prelude.{◌≡◌};
ghost use Rattle.octets.specs.Refusals.{told};
ghost use Rattle.book.specs.Reading.{read_of};

use crate::table::table_in;
use octets::Refusal;

// Reads a book, and answers how many templates it has.
#[tactic(auto, unfolding(book::specs::Reading::bodies_by, book::specs::Reading::read_of))]
pub fn read(bytes: &[u8]) -> Result<usize, Refusal>
    ensures { told result ≡ read_of bytes.now }
{
    if bytes.len() < 1 {
        return Err(Refusal::EndsEarly);
    }
    let count = bytes[0] as usize;
    if count < 1 {
        return Err(Refusal::BookTable);
    }
    if 16 < count {
        return Err(Refusal::BookTable);
    }
    let front = 1 + 2 * count;
    if bytes.len() < front {
        return Err(Refusal::EndsEarly);
    }
    let total = table_in(bytes, count)?;
    let there = bytes.len() - front;
    if there < total {
        return Err(Refusal::EndsEarly);
    }
    if total < there {
        return Err(Refusal::BytesFollow);
    }
    Ok(count)
}
