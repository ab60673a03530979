// The table that is to be written.
ghost use Rattle.std.specs.Prelude.{◌≡◌, ◌≤◌, length};
ghost use Rattle.octets.specs.Refusals.{told};
ghost use Rattle.book.specs.Table.{table_of};

use book::good_pair;
use octets::Refusal;

// Judges a table by its slots and its lengths, as many of each.
pub(crate) fn table_by(slots: &[u8], lengths: &[u8]) -> Result<usize, Refusal>
    requires { (length slots.now ≤ 16) × (length lengths.now ≡ length slots.now) }
    ensures { told result ≡ table_of 0 0 slots.now lengths.now }
{
    let mut least = 0;
    let mut total = 0;
    for (&slot, &len) in slots.iter().zip(lengths) {
        if !good_pair(least, slot, len) {
            return Err(Refusal::BookTable);
        }
        least = slot + 1;
        total += len as usize;
    }
    Ok(total)
}
