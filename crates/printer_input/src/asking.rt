// What an opening or a counted call asks for, by the service that it carries. Places are those in the
// telegram, whatever its bytes are.
ghost use Rattle.std.specs.Prelude.{◌≡◌, true, List, ℕ, ◌+◌, ◌≤◌, length, Ok, Err};
ghost use Rattle.octets.specs.Refusals.{number, told};
ghost use Rattle.octets.specs.Part.{part_of};
ghost use Rattle.octets.specs.declared.Mode.TheVariants.{Dpv1};
ghost use Rattle.function_code.specs.Code.{class_of};
ghost use Rattle.fdl.specs.Reading.{read_of};
ghost use Rattle.fdl.specs.declared.telegram.Format.{Format};
ghost use Rattle.fdl.specs.declared.telegram.Header.{Header};
ghost use Rattle.fdl.specs.declared.reading.Reading.TheVariants.{Telegram};
ghost use Rattle.access.specs.Route.{route_of};
ghost use Rattle.content.specs.Reading.{end_of};
ghost use Rattle.service.specs.Reading.{placed_at, routed_by};
ghost use Rattle.service.specs.declared.reading.Way.TheVariants as way;
ghost use Rattle.protocol.specs.Printer as printer;
ghost use Rattle.printer_input.specs.Meaning.{ask_in};

use crate::Ask;
use access::Route;
use acyclic::Call;
use content::Content;
use fdl::Header;
use function_code::Class;
use octets::{Mode, Read, Refusal};

// A write, a poll for its result, or a DPV1 function that the printer does not have.
fn asked_of_dpv1(call: Call, start: usize, len: usize) -> Ask
    ensures { (s : List ℕ) → ask_in s result ≡ printer.ask_of_dpv1 call (part_of s start len) }
{
    match call {
        Call::Poll => Ask::Poll,
        Call::Write { slot, index } => Ask::Write {
            slot,
            index,
            start,
            len,
        },
        _ => Ask::Unknown,
    }
}

// Slave_Diag, a DPV1 call, or a service that the printer does not have.
fn asked_of(content: Content, start: usize, len: usize) -> Ask
    ensures { (s : List ℕ) → ask_in s result ≡ printer.ask_of content (part_of s start len) }
{
    match content {
        Content::SlaveDiagCall => Ask::SlaveDiag,
        Content::Dpv1Call(call) => asked_of_dpv1(call, start, len),
        _ => Ask::Unknown,
    }
}

// 10 says that there is no such service; any other refusal that the data cannot be read.
fn refused(refusal: Refusal) -> Ask
    ensures { (s : List ℕ) → ask_in s result ≡ printer.ask_by s (Err (number refusal)) }
{
    match refusal {
        Refusal::NoService => Ask::Unknown,
        _ => Ask::Undecodable,
    }
}

// What is asked for, by what the reader of user data says, which stand at `at` in the telegram.
fn asked_by(at: usize, found: Result<Read<Content>, Refusal>) -> Ask
    requires { at + end_of (told found) ≤ 255 }
    ensures { (s : List ℕ) (f : Format) (h : Header) → ask_in s result ≡ printer.ask_by s (placed_at f h way.Call at (told found)) }
{
    match found {
        Ok(read) => asked_of(read.fields, at + read.start, read.len),
        Err(refusal) => refused(refusal),
    }
}

// What a call with this header asks for, whose function code is of this class and whose user data stand at `at`. No
// header of a call names an answer. The printer reads parameters as DPV1.
fn routed(class: Class, header: Header, at: usize, user: &[u8]) -> Ask
    requires { (class ≡ class_of header.fc) × (printer.is_call class ≡ true) × (at + length user.now ≤ 255) }
    ensures { (s : List ℕ) (f : Format) → ask_in s result ≡ printer.ask_by s (routed_by (route_of header) f header at user.now Dpv1) }
{
    match routing::route_by(class, header) {
        Route::Call(service) => {
            let found = content_reader::read_call(service, user, Mode::Dpv1);
            asked_by(at, found)
        }
        Route::Nowhere | Route::Answer(_) => Ask::Unknown,
    }
}

// Send and request data (SRD), low or high.
fn is_srd(fc: u8) -> bool
    ensures { result ≡ printer.is_srd fc }
{
    matches!(fc % 16, 12 | 13)
}

// What a call with this header asks for, whose function code is of this class and whose user data are the len bytes
// from start.
pub(crate) fn asked_in(
    class: Class,
    telegram: &[u8],
    header: Header,
    start: usize,
    len: usize,
) -> Ask
    requires { (class ≡ class_of header.fc) × (printer.is_call class ≡ true) × (start + len ≤ 255) }
    ensures { (f : Format) → Ok (Telegram f header start len) ≡ read_of telegram.now → ask_in telegram.now result ≡ printer.ask_in telegram.now header.fc }
{
    if !is_srd(header.fc) {
        return Ask::Unknown;
    }
    let user = octets::part(telegram, start, len);
    routed(class, header, start, user)
}
