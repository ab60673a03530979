// What the printer remembers between two telegrams, and how a repeat is told from a new call.
ghost use Rattle.std.specs.Prelude.{◌≡◌, List, ℕ};
ghost use Rattle.protocol.specs.Printer.{drop_held, opened, renewed, is_repeat};
ghost use Rattle.protocol.specs.Slots.{Slots};
ghost use Rattle.printer_rules.specs.Meaning.{deed_in};

use printer_rules::Deed;
use protocol::{Pending, Printer};

// The printer without its held reply.
pub fn drop_held(printer: Printer) -> Printer
    ensures { result ≡ drop_held printer }
{
    Printer { held: 0, ..printer }
}

// After an opening call: FCB 1 and SA remembered, no held reply, no pending result, no write counted.
pub fn opened(printer: Printer, sa: u8) -> Printer
    ensures { result ≡ opened printer sa }
{
    Printer {
        fcb: true,
        sa,
        held: 0,
        pending: Pending::Nothing,
        writes: 0,
        ..printer
    }
}

// After a new call, which holds its reply of so many bytes.
pub fn renewed(printer: Printer, fcb: bool, sa: u8, held: u8, deed: Deed) -> Printer
    ensures { (body : List ℕ) (s : Slots) → result ≡ renewed printer fcb sa held (deed_in deed body s) }
{
    Printer {
        fcb,
        sa,
        held,
        pending: deed.pending,
        writes: deed.writes,
        ..printer
    }
}

// Whether a counted call is the last one again.
pub fn is_repeat(printer: Printer, fcb: bool, sa: u8) -> bool
    ensures { result ≡ is_repeat printer fcb sa }
{
    sa == printer.sa && fcb == printer.fcb
}
