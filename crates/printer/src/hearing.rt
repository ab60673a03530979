// The printer's step (document 01, "Printer rules", first that fits): each case of what was received.
ghost use Rattle.std.specs.Prelude.{◌≡◌, List, ℕ, length, Ok};
ghost use Rattle.octets.specs.Refusals.{told};
ghost use Rattle.printer_input.specs.Meaning.{ask_in};
ghost use Rattle.protocol.specs.Printer.{opening_reply, counted, drop_held, opened, reply_bytes, new_call, heard_by, hear, lending, leaving, stepped, step_of};
ghost use Rattle.protocol.specs.Telegrams.{bare_bytes};
ghost use Rattle.printer_rules.specs.Meaning.{ask_with, deed_in, Fits};
ghost use Rattle.printer.specs.Meaning.{body_in, slots_of};
ghost use Rattle.printer.specs.Ready.{Usable, Between, Ready, Sends};

use crate::replies::{say, say_bare};
use crate::slots::keep;
use octets::Refusal;
use printer_input::{Ask, Received};
use printer_rules::{Deed, Status};
use protocol::{Printer, Reaction};

// The body that a call carries: the part of the telegram that a write names.
fn body_of(telegram: &[u8], ask: Ask) -> &[u8]
    ensures { result.now ≡ body_in telegram.now ask }
{
    match ask {
        Ask::Write { start, len, .. } => octets::part(telegram, start, len),
        _ => &[],
    }
}

// A call to another station, or an uncounted one, drops the held reply and gets no answer.
fn quiet(printer: Printer) -> Reaction
    ensures { result ≡ record { printer = drop_held printer; reply = 0 } }
{
    Reaction {
        printer: printer_state::drop_held(printer),
        reply: 0,
    }
}

// FDL status gets bare function 0, which is not held.
fn status(printer: Printer, sa: u8, out: &mut [u8]) -> Reaction
    requires { Between printer.address sa out.old }
    ensures { Sends (drop_held printer) (bare_bytes sa printer.address 0) out.old out.new result }
{
    let count = say_bare(Status::Ok, printer.address, sa, out);
    Reaction {
        printer: printer_state::drop_held(printer),
        reply: count,
    }
}

// An opening call gets its reply, which is not held either.
fn open(printer: Printer, sa: u8, ask: Ask, diagnosis: &[u8], out: &mut [u8]) -> Reaction
    requires { Ready diagnosis.now printer.address sa out.old }
    ensures { (body : List ℕ) → Sends (opened printer sa) (reply_bytes diagnosis.now printer.address sa (opening_reply (ask_with ask body))) out.old out.new result }
{
    let reply = printer_rules::opening_reply(ask);
    let count = say(reply, printer.address, sa, diagnosis, out);
    Reaction {
        printer: printer_state::opened(printer, sa),
        reply: count,
    }
}

// Carries out what a new call does, and holds its reply.
fn act(
    printer: Printer,
    fcb: bool,
    sa: u8,
    deed: Deed,
    body: &[u8],
    diagnosis: &[u8],
    lengths: &mut [u8; 16],
    bodies: &mut [u8; 3200],
    out: &mut [u8],
) -> Reaction
    requires { Ready diagnosis.now printer.address sa out.old × Fits deed.target (length body.now) }
    ensures { leaving (Ok result) lengths.new bodies.new out.new
        ≡ stepped (new_call diagnosis.now (lending printer lengths.old bodies.old out.old) fcb sa
        (deed_in deed body.now (slots_of lengths.old bodies.old))) }
{
    keep(deed.target, body, lengths, bodies);
    let count = say(deed.reply, printer.address, sa, diagnosis, out);
    Reaction {
        printer: printer_state::renewed(printer, fcb, sa, count, deed),
        reply: count,
    }
}

// A counted call: a repeat gets the held reply again, and any other is new.
fn counted(
    printer: Printer,
    fcb: bool,
    sa: u8,
    ask: Ask,
    telegram: &[u8],
    diagnosis: &[u8],
    not_yet: u8,
    lengths: &mut [u8; 16],
    bodies: &mut [u8; 3200],
    out: &mut [u8],
) -> Reaction
    requires { Ready diagnosis.now printer.address sa out.old }
    ensures { leaving (Ok result) lengths.new bodies.new out.new
        ≡ stepped (heard_by diagnosis.now not_yet (counted fcb sa (ask_in telegram.now ask)) (lending printer lengths.old bodies.old out.old)) }
{
    if printer_state::is_repeat(printer, fcb, sa) {
        return Reaction {
            printer,
            reply: printer.held,
        };
    }
    let body = body_of(telegram, ask);
    let deed = printer_rules::perform(printer, not_yet, ask, body.len());
    act(
        printer, fcb, sa, deed, body, diagnosis, lengths, bodies, out,
    )
}

// What a printer that may be used does with a telegram.
#[tactic(auto, using(crate::proofs::Heard::sent), unfolding(protocol::specs::Printer::hear))]
fn hear(
    printer: Printer,
    telegram: &[u8],
    diagnosis: &[u8],
    not_yet: u8,
    lengths: &mut [u8; 16],
    bodies: &mut [u8; 3200],
    out: &mut [u8],
) -> Reaction
    requires { Usable diagnosis.now printer.address out.old }
    ensures { leaving (Ok result) lengths.new bodies.new out.new
        ≡ stepped (hear diagnosis.now not_yet telegram.now (lending printer lengths.old bodies.old out.old)) }
{
    match printer_input::receive(printer.address, telegram) {
        Received::Nothing => Reaction { printer, reply: 0 },
        Received::Elsewhere | Received::Uncounted => quiet(printer),
        Received::Status { sa } => status(printer, sa, out),
        Received::Opening { sa, ask } => open(printer, sa, ask, diagnosis, out),
        Received::Counted { fcb, sa, ask } => counted(
            printer, fcb, sa, ask, telegram, diagnosis, not_yet, lengths, bodies, out,
        ),
    }
}

// What the printer does with a telegram that reached it, and how many bytes at the front of `reply` it sends
// back. `not_yet` is the number of "not yet" answers for the write that it may perform.
#[tactic(auto, unfolding(protocol::specs::Printer::step_of))]
pub fn step(
    printer: Printer,
    telegram: &[u8],
    diagnosis: &[u8],
    not_yet: u8,
    lengths: &mut [u8; 16],
    bodies: &mut [u8; 3200],
    reply: &mut [u8],
) -> Result<Reaction, Refusal>
    ensures { leaving (told result) lengths.new bodies.new reply.new
        ≡ step_of diagnosis.now not_yet telegram.now (lending printer lengths.old bodies.old reply.old) }
{
    printer_state::usable(printer, diagnosis, lengths, bodies, reply)?;
    Ok(hear(
        printer, telegram, diagnosis, not_yet, lengths, bodies, reply,
    ))
}
