// What is refused of a download before its first sending (document 01, "Template book, printer, download"), as
// `protocol` defines it.
#![tactic(auto)]

ghost use Rattle.std.specs.Prelude.{◌≡◌};
ghost use Rattle.octets.specs.Refusals.{verdict_in};
ghost use Rattle.protocol.specs.Controller.{book_verdict};
ghost use Rattle.book.specs.Reading as book-format;
ghost use Rattle.protocol.specs.Download.{line_verdict, verdict_of};
ghost use Rattle.protocol.specs.Printer as printer-step;

use octets::Refusal;
use protocol::{Printer, Settings};

// The book's own refusal, if it has one.
fn book_check(book: &[u8]) -> Result<(), Refusal>
    ensures { verdict_in result ≡ book_verdict (book-format.read_of book.now) }
{
    book_reader::read(book)?;
    Ok(())
}

// Every entry of a line is 0, 1 or 2; any other gives 12. It is a `for` and no `any`, of which the compiler makes a
// slower loop.
#[tactic(auto, unfolding(protocol::specs::Download::line_verdict))]
fn line_check(line: &[u8]) -> Result<(), Refusal>
    ensures { verdict_in result ≡ line_verdict line.now }
{
    for &entry in line {
        if 2 < entry {
            return Err(Refusal::Field);
        }
    }
    Ok(())
}

// Whether a download may begin: the settings, the book, the line, the printer with what it is lent, and last
// the room for a request.
#[tactic(auto, unfolding(protocol::specs::Download::verdict_of))]
pub fn usable(
    settings: Settings,
    book: &[u8],
    line: &[u8],
    diagnosis: &[u8],
    printer: Printer,
    lengths: &[u8; 16],
    bodies: &[u8; 3200],
    reply: &[u8],
    request: &[u8],
) -> Result<(), Refusal>
    ensures { verdict_in result ≡ verdict_of settings book.now line.now diagnosis.now (printer-step.lending printer lengths.now bodies.now reply.now) request.now }
{
    controller_state::usable(settings)?;
    book_check(book)?;
    line_check(line)?;
    printer_state::usable(printer, diagnosis, lengths, bodies, reply)?;
    if request.len() < 255 {
        return Err(Refusal::NoRoom);
    }
    Ok(())
}
