// The watchdog: how long a slave waits for its master.
ghost use Rattle.std.specs.Prelude.{◌≡◌};
ghost use Rattle.parameters.specs.Timing.{base_of, watchdog_of, expired_of};

use crate::fields::{Extension, Milliseconds, Parameters};

// The base of the watchdog time, in milliseconds: bit 2 of DPV1's first status byte chooses the
// shorter one.
fn base(extension: Extension) -> u32
    ensures { result ≡ base_of extension }
{
    match extension {
        Extension::Dpv0 => 10,
        Extension::Dpv1 {
            status1,
            status2: _,
            status3: _,
        } => { if status1 / 4 % 2 == 1 { 1 } else { 10 } }
    }
}

// The watchdog time that parameters set.
pub fn watchdog(fields: Parameters) -> Milliseconds
    ensures { result ≡ watchdog_of fields }
{
    let extension = fields.extension;
    Milliseconds(fields.factor1 as u32 * fields.factor2 as u32 * base(extension))
}

// Whether a watchdog has expired: the time since the last call has reached it.
pub fn expired(watchdog: Milliseconds, elapsed: Milliseconds) -> bool
    ensures { result ≡ expired_of watchdog elapsed }
{
    watchdog.0 <= elapsed.0
}
