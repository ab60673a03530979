// Reading a whole telegram as a service: the telegram's own refusal, then its route, then its data.
#![tactic(auto)]

ghost use Rattle.std.specs.Prelude.{◌≡◌, ◌+◌, ◌≤◌, length, Ok};
ghost use Rattle.octets.specs.Refusals.{told};
ghost use Rattle.function_code.specs.Code.{class_of};
ghost use Rattle.access.specs.Route.{route_of};
ghost use Rattle.content.specs.Reading.{end_of};
ghost use Rattle.service.specs.Reading.{placed_at, routed_by, read_of};

use access::Route;
use content::Content;
use fdl::{Classed, Format, Header};
use function_code::Class;
use octets::{Mode, Read, Refusal};
use service::{Reading, Way};

// The service with user data that stand at `at` in the telegram.
fn placed(format: Format, header: Header, way: Way, at: usize, found: Read<Content>) -> Reading
    requires { at + end_of (Ok found) ≤ 18446744073709551615 }
    ensures { Ok result ≡ placed_at format header way at (Ok found) }
{
    Reading {
        format,
        header,
        way,
        content: found.fields,
        start: at + found.start,
        len: found.len,
    }
}

// The service that the header names, whose function code is of this class, with the user data that stand at `at` in the
// telegram.
fn routed(
    class: Class,
    format: Format,
    header: Header,
    at: usize,
    user: &[u8],
    mode: Mode,
) -> Result<Reading, Refusal>
    requires { (class ≡ class_of header.fc) × (at + length user.now ≤ 18446744073709551615) }
    ensures { told result ≡ routed_by (route_of header) format header at user.now mode }
{
    let route = routing::route_by(class, header);
    match route {
        Route::Nowhere => Err(Refusal::NoService),
        Route::Call(service) => {
            let found = content_reader::read_call(service, user, mode)?;
            Ok(placed(format, header, Way::Call, at, found))
        }
        Route::Answer(answering) => {
            let found = content_reader::read_answer(answering, user)?;
            Ok(placed(format, header, Way::Answer, at, found))
        }
    }
}

// Reads a service: all of the lent slice is one telegram. A token, a short confirmation and a bare answer carry none.
pub fn read(bytes: &[u8], mode: Mode) -> Result<Reading, Refusal>
    ensures { told result ≡ read_of bytes.now mode }
{
    let telegram = fdl_reader::read_classed(bytes)?;
    match telegram {
        Classed::Confirmation => Err(Refusal::NoService),
        Classed::Token { da: _, sa: _ } => Err(Refusal::NoService),
        Classed::Telegram {
            format,
            header,
            start,
            len,
            class,
        } => {
            let user = octets::part(bytes, start, len);
            routed(class, format, header, start, user, mode)
        }
    }
}
