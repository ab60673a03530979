// A whole download: the controller's step and the sending of its request, in turns, until it ends.
ghost use Rattle.std.specs.Prelude.{◌≡◌, length};
ghost use Rattle.octets.specs.Refusals.{told};
ghost use Rattle.octets.specs.Front.{fine};
ghost use Rattle.protocol.specs.Printer.{lending};
ghost use Rattle.protocol.specs.Download.{leaving, verdict_of, download_of};
ghost use Rattle.protocol.specs.Demand.{Downloads};

use octets::Refusal;
use protocol::{Action, Controller, Downloaded, Printer, Settings};

// Goes on until the controller ends it. Its step stands in one place, so that the compiler puts it here. A
// printer's refusal is passed on. `back` is how many bytes of the last reply came back.
fn until_ended(
    settings: Settings,
    book: &[u8],
    line: &[u8],
    not_yet: &[u8],
    diagnosis: &[u8],
    printer: Printer,
    lengths: &mut [u8; 16],
    bodies: &mut [u8; 3200],
    reply: &mut [u8],
    request: &mut [u8],
) -> Result<Downloaded, Refusal>
    requires { verdict_of settings book.now line.now diagnosis.now (lending printer lengths.old bodies.old reply.old) request.old ≡ fine }
    ensures { leaving (told result) lengths.new bodies.new reply.new request.new
        ≡ download_of settings book.now line.now not_yet.now diagnosis.now (lending printer lengths.old bodies.old reply.old) request.old }
{
    let mut controller = Controller::Fresh;
    let mut printer = printer;
    let mut back: u8 = 0;
    let mut sent: u16 = 0;
    loop {
        let end = back as usize;
        let action = controller::step(settings, book, controller, &reply[..end], request)?;
        match action {
            Action::End(ending) => {
                return Ok(Downloaded {
                    ending,
                    sent,
                    printer,
                });
            }
            Action::Send {
                controller: next,
                request: count,
            } => {
                let entry = sending::at(line, sent as usize);
                let end = count as usize;
                let reaction = sending::send(
                    entry,
                    &request[..end],
                    printer,
                    not_yet,
                    diagnosis,
                    lengths,
                    bodies,
                    reply,
                )?;
                controller = next;
                printer = reaction.printer;
                back = reaction.reply;
                sent += 1;
            }
        }
    }
}

// What is lent are sixteen slots: so much the types say. It does nothing.
fn sixteen(lengths: &[u8; 16], bodies: &[u8; 3200])
    ensures { (length lengths.now ≡ 16) × (length bodies.now ≡ 3200) }
{
    let _lengths = &lengths[..];
    let _bodies = &bodies[..];
}

// Runs a whole download of a book to a printer.
#[tactic(auto, unfolding(protocol::specs::Download::download_of))]
pub fn run(
    settings: Settings,
    book: &[u8],
    line: &[u8],
    not_yet: &[u8],
    diagnosis: &[u8],
    printer: Printer,
    lengths: &mut [u8; 16],
    bodies: &mut [u8; 3200],
    reply: &mut [u8],
    request: &mut [u8],
) -> Result<Downloaded, Refusal>
    ensures whole { leaving (told result) lengths.new bodies.new reply.new request.new
        ≡ download_of settings book.now line.now not_yet.now diagnosis.now (lending printer lengths.old bodies.old reply.old) request.old }
    ensures demand { verdict_of settings book.now line.now diagnosis.now (lending printer lengths.old bodies.old reply.old) request.old ≡ fine
        → Downloads settings book.now line.now not_yet.now diagnosis.now (lending printer lengths.old bodies.old reply.old) (leaving (told result) lengths.new bodies.new reply.new request.new) }
{
    sixteen(lengths, bodies);
    download_check::usable(
        settings, book, line, diagnosis, printer, lengths, bodies, reply, request,
    )?;
    until_ended(
        settings, book, line, not_yet, diagnosis, printer, lengths, bodies, reply, request,
    )
}
