// What a reply is to the controller (document 01, "The controller's step"). The reply is read once, also where
// it carries a service, and of a service only what a download has a use for. Its class is looked up once.
#![tactic(auto)]

ghost use Rattle.std.specs.Prelude.{◌≡◌, Ok};
ghost use Rattle.function_code.specs.Code.{class_of};
ghost use Rattle.fdl.specs.Reading.{read_of};
ghost use Rattle.fdl.specs.declared.reading.Reading.TheVariants.{Telegram};
ghost use Rattle.protocol.specs.Controller.{got_from, got_in};
ghost use Rattle.controller_input.specs.Meaning.{got_by, exchanged};

mod origin;
mod replies;

use fdl::{Classed, Format, Header};
use function_code::Class;
use origin::is_printers;
use protocol::Settings;
use replies::routed;

// A reply that framing accepts.
#[derive(Clone, Copy)]
pub enum Reply {
    // SC.
    Confirmation,
    // The printer's diagnosis.
    Diagnosis,
    // The printer's 5F.
    Positive { slot: u8, index: u8, length: u8 },
    // The printer's DF.
    Negative { code1: u8, code2: u8 },
    // Any other.
    Other,
}

// What a telegram with this header says, whose function code is of this class and whose user data are the len bytes from
// start: only the printer's own is more than another reply.
fn heard(
    settings: Settings,
    class: Class,
    reply: &[u8],
    format: Format,
    header: Header,
    start: usize,
    len: usize,
) -> Reply
    requires { (class ≡ class_of header.fc) × (Ok (Telegram format header start len) ≡ read_of reply.now) }
    ensures { got_by result ≡ got_from settings reply.now (Ok (Telegram format header start len)) }
{
    if !is_printers(settings, format, header) {
        return Reply::Other;
    }
    routed(class, header, octets::part(reply, start, len))
}

// What the bytes that came back are to a controller with these settings.
pub fn take(settings: Settings, reply: &[u8]) -> Option<Reply>
    ensures { exchanged result ≡ got_in settings reply.now }
{
    match fdl_reader::read_classed(reply) {
        Ok(Classed::Confirmation) => Some(Reply::Confirmation),
        Ok(Classed::Token { .. }) => Some(Reply::Other),
        Ok(
            Classed::Telegram {
                format,
                header,
                start,
                len,
                class,
            },
        ) => Some(heard(settings, class, reply, format, header, start, len)),
        Err(_) => None,
    }
}
