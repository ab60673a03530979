// What a telegram is to the printer (document 01, "Printer rules"): one case for each rule, and what a call
// asks for. The telegram is read once, also where it carries a service, and its class is looked up once.
#![tactic(auto)]

ghost use Rattle.std.specs.Prelude.{◌≡◌, ◌+◌, ◌≤◌, Ok};
ghost use Rattle.function_code.specs.Code.{class_of};
ghost use Rattle.fdl.specs.Reading.{read_of};
ghost use Rattle.fdl.specs.declared.telegram.Format.{Format};
ghost use Rattle.fdl.specs.declared.reading.Reading.TheVariants.{Telegram};
ghost use Rattle.protocol.specs.Printer.{received_by, received_of};
ghost use Rattle.printer_input.specs.Meaning.{received_in};

mod asking;
mod calls;

use calls::{called, is_call};
use fdl::{Classed, Header};
use function_code::Class;

// What an opening or a counted call asks for. The body of a write is the len bytes of the telegram from
// start, which `octets::part` hands back.
#[derive(Clone, Copy)]
pub enum Ask {
    SlaveDiag,
    Write {
        slot: u8,
        index: u8,
        start: usize,
        len: usize,
    },
    Poll,
    // Not by SRD, refused with 10, or any other service or DPV1 function.
    Unknown,
    // Other data that cannot be read.
    Undecodable,
}

// What a telegram is to the printer; `sa` is the station that sent it.
#[derive(Clone, Copy)]
pub enum Received {
    // Refused bytes, a token, a short confirmation, an answer.
    Nothing,
    // A call to another station.
    Elsewhere,
    // A call for the FDL status.
    Status { sa: u8 },
    Uncounted,
    Opening { sa: u8, ask: Ask },
    Counted { fcb: bool, sa: u8, ask: Ask },
}

// What a telegram with this header is, whose function code is of this class and whose user data are the len bytes from
// start: an answer is nothing to the printer, whoever it is for.
fn addressed(
    address: u8,
    class: Class,
    telegram: &[u8],
    header: Header,
    start: usize,
    len: usize,
) -> Received
    requires { (class ≡ class_of header.fc) × (start + len ≤ 255) }
    ensures { (f : Format) → Ok (Telegram f header start len) ≡ read_of telegram.now → received_in telegram.now result ≡ received_by address telegram.now (Ok (Telegram f header start len)) }
{
    if !is_call(class) {
        return Received::Nothing;
    }
    if header.da != address {
        return Received::Elsewhere;
    }
    called(class, telegram, header, start, len)
}

// What a telegram is to the printer with this address.
pub fn receive(address: u8, telegram: &[u8]) -> Received
    ensures { received_in telegram.now result ≡ received_of address telegram.now }
{
    match fdl_reader::read_classed(telegram) {
        Ok(
            Classed::Telegram {
                header,
                start,
                len,
                class,
                ..
            },
        ) => addressed(address, class, telegram, header, start, len),
        Ok(Classed::Confirmation) => Received::Nothing,
        Ok(Classed::Token { .. }) => Received::Nothing,
        Err(_) => Received::Nothing,
    }
}
