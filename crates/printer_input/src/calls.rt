// A call to this printer, by the class of its function code.
ghost use Rattle.std.specs.Prelude.{◌≡◌, true, List, ℕ, ◌+◌, ◌≤◌, Ok};
ghost use Rattle.function_code.specs.Code.{class_of};
ghost use Rattle.fdl.specs.Reading.{read_of};
ghost use Rattle.fdl.specs.declared.telegram.Format.{Format};
ghost use Rattle.fdl.specs.declared.reading.Reading.TheVariants.{Telegram};
ghost use Rattle.function_code.specs.declared.code.Class.TheVariants.{Uncounted};
ghost use Rattle.protocol.specs.Printer.{is_call, fcb_of, called_by};
ghost use Rattle.printer_input.specs.Meaning.{received_in};

use crate::Received;
use crate::asking::asked_in;
use fdl::Header;
use function_code::Class;

// Whether a function code of this class makes a call.
pub(crate) fn is_call(class: Class) -> bool
    ensures { result ≡ is_call class }
{
    matches!(class, Class::Opening | Class::Counted | Class::Uncounted)
}

// FCB is bit 5.
fn fcb_of(fc: u8) -> bool
    ensures { result ≡ fcb_of fc }
{
    fc / 32 % 2 == 1
}

// FDL status is function 9.
fn uncounted(header: Header) -> Received
    ensures { (s : List ℕ) → received_in s result ≡ called_by Uncounted s header }
{
    if header.fc % 16 == 9 {
        return Received::Status { sa: header.sa };
    }
    Received::Uncounted
}

// What a call of this class is, whose user data are the len bytes from start. What it asks for is looked for in one place,
// for openings and counted calls alike: called once, that is compiled into this function, and its answer is not copied.
// An uncounted call is no SRD, and costs one test there.
pub(crate) fn called(
    class: Class,
    telegram: &[u8],
    header: Header,
    start: usize,
    len: usize,
) -> Received
    requires { (class ≡ class_of header.fc) × (is_call class ≡ true) × (start + len ≤ 255) }
    ensures { (f : Format) → Ok (Telegram f header start len) ≡ read_of telegram.now → received_in telegram.now result ≡ called_by class telegram.now header }
{
    let ask = asked_in(class, telegram, header, start, len);
    match class {
        Class::Opening => Received::Opening { sa: header.sa, ask },
        Class::Counted => Received::Counted {
            fcb: fcb_of(header.fc),
            sa: header.sa,
            ask,
        },
        Class::Uncounted => uncounted(header),
        Class::Bare | Class::Data | Class::Reserved => Received::Nothing,
    }
}
