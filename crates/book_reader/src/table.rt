// The table that stands in the bytes of a book.
ghost use Rattle.std.specs.Prelude.{◌≡◌, ◌+◌, ◌*◌, ◌≤◌, length};
ghost use Rattle.octets.specs.Refusals.{told};
ghost use Rattle.book.specs.Table.{every_second, sum_of, table_of};

use book::good_pair;
use octets::Refusal;

// Judges the table of n pairs.
pub(crate) fn table_in(bytes: &[u8], n: usize) -> Result<usize, Refusal>
    requires { (n ≤ 16) × (1 + 2 * n ≤ length bytes.now) }
    ensures { told result ≡ table_of 0 0 (every_second n 1 bytes.now) (every_second n 2 bytes.now) }
{
    let (pairs, _) = bytes[1..1 + 2 * n].as_chunks::<2>();
    let mut least = 0;
    let mut total = 0;
    for &[slot, len] in pairs {
        if !good_pair(least, slot, len) {
            return Err(Refusal::BookTable);
        }
        least = slot + 1;
        total += len as usize;
    }
    Ok(total)
}

// The sum of the first k lengths.
pub(crate) fn sum_before(bytes: &[u8], k: usize) -> usize
    requires { (k ≤ 16) × (1 + 2 * k ≤ length bytes.now) }
    ensures { (result ≡ sum_of (every_second k 2 bytes.now)) × (result ≤ 255 * k) }
{
    let (pairs, _) = bytes[1..1 + 2 * k].as_chunks::<2>();
    pairs.iter().map(|&[_, len]| len as usize).sum()
}
