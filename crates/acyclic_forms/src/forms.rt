// What calls and answers share: the forms that the bytes behind a function number have. A form judges
// the fixed bytes, and count, how many bytes stand behind them; reader and writer ask the same.
ghost use Rattle.std.specs.Prelude.{◌≡◌};
ghost use Rattle.octets.specs.Refusals.{verdict_in};
ghost use Rattle.acyclic.specs.Forms.{alone_of, ranged_of, counted_of, counted_as_of, negative_of};

use crate::errors::{good_code1, good_decode};
use octets::Refusal;

// Fixed bytes that are free, and nothing behind them.
#[tactic(auto, unfolding(acyclic::specs::Forms::alone_of))]
pub fn alone(count: usize) -> Result<(), Refusal>
    ensures { verdict_in result ≡ alone_of count }
{
    if count == 0 {
        return Ok(());
    }
    Err(Refusal::DataLength)
}

// The last of the fixed bytes is a length, and nothing stands behind them.
#[tactic(auto, unfolding(acyclic::specs::Forms::ranged_of))]
pub fn ranged(length: u8, count: usize) -> Result<(), Refusal>
    ensures { verdict_in result ≡ ranged_of length count }
{
    if 0 < count {
        return Err(Refusal::DataLength);
    }
    if 240 < length {
        return Err(Refusal::DataByte);
    }
    Ok(())
}

// Data stand behind the fixed bytes, so many at least.
#[tactic(auto, unfolding(acyclic::specs::Forms::counted_of))]
pub fn counted(least: usize, count: usize) -> Result<(), Refusal>
    ensures { verdict_in result ≡ counted_of least count }
{
    if count < least {
        return Err(Refusal::DataLength);
    }
    if 240 < count {
        return Err(Refusal::DataLength);
    }
    Ok(())
}

// The same, where the last of the fixed bytes must say how many.
#[tactic(auto, unfolding(acyclic::specs::Forms::counted_as_of))]
pub fn counted_as(length: u8, least: usize, count: usize) -> Result<(), Refusal>
    ensures { verdict_in result ≡ counted_as_of length least count }
{
    if count != length as usize {
        return Err(Refusal::DataLength);
    }
    counted(least, count)
}

// A negative answer's bytes, and nothing behind them.
#[tactic(auto, unfolding(acyclic::specs::Forms::negative_of))]
pub fn negative(decode: u8, code1: u8, count: usize) -> Result<(), Refusal>
    ensures { verdict_in result ≡ negative_of decode code1 count }
{
    if 0 < count {
        return Err(Refusal::DataLength);
    }
    if !good_decode(decode) {
        return Err(Refusal::DataByte);
    }
    if !good_code1(decode, code1) {
        return Err(Refusal::Dpv1Code);
    }
    Ok(())
}
