// Function codes: every byte has one class.
ghost use Rattle.std.specs.Prelude.{◌≡◌};
ghost use Rattle.function_code.specs.Code.{class_of, is_reserved};

use crate::table::class_of;

// What kind of telegram a function code makes. An opening call starts the count of a pair of
// stations (FCB 1), a counted call goes on with it, an uncounted call is outside of it; an answer is
// bare or carries data.
#[derive(Clone, Copy, PartialEq, Eq)]
pub enum Class {
    Opening,
    Counted,
    Uncounted,
    Bare,
    Data,
    Reserved,
}

// Whether a function code is reserved.
pub fn reserved(fc: u8) -> bool
    ensures { result ≡ is_reserved (class_of fc) }
{
    class_of(fc) == Class::Reserved
}
