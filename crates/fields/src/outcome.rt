// What every writer of the C interface answers, and the count that it stores.
ghost use Rattle.std.specs.Prelude.{◌≡◌};
ghost use Rattle.octets.specs.Refusals.{told};
ghost use Rattle.fields.specs.Outcome.{status_of, count_after};

use octets::Refusal;

// A writer's answer, with its refusal as a number.
pub fn told(written: Result<usize, Refusal>) -> Result<usize, u8>
    ensures { result ≡ told written }
{
    written.map_err(|refusal| refusal.number())
}

// A writer's answer as a number; where it has stored, the count goes to stored.
pub fn store_count(written: Result<usize, u8>, stored: &mut usize) -> u8
    ensures refusal { result ≡ status_of written }
    ensures count { stored.new ≡ count_after written stored.old }
{
    match written {
        Ok(n) => {
            *stored = n;
            0
        }
        Err(number) => number,
    }
}
