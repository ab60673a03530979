// One download over a line that loses what it is told to lose, sending by sending (docs/SIMULATE.md). What both
// ends do is the library's; here is only how it is said.
#![tactic(auto)]

mod ending_lines;
mod input;
mod sending_line;
mod text;

ghost use Rattle.std.specs.Prelude.{◌≤◌, length, IfOk};

use crate::ending_lines::{ending_lines, refused_line};
use crate::input::{BOOK_START, laid_out};
use crate::sending_line::sending_line;
use octets::{Refusal, part};
use protocol::{Action, Controller, Pending, Printer, Settings};
use std::io;
use std::io::Read;

// The most sendings of a download: the opening, and 16 templates with a write and 31 polls, each sent 8 times.
const SENDINGS_MOST: u16 = 4097;

// The diagnosis of a printer that has nothing to report and no master yet.
const DIAGNOSIS: [u8; 6] = *b"\x00\x04\x00\xFF\x00\x00";

// A printer that has heard nothing.
fn fresh(address: u8, boarding: u8) -> Printer {
    Printer {
        address,
        boarding: boarding == 1,
        fcb: false,
        sa: 255,
        held: 0,
        pending: Pending::Nothing,
        writes: 0,
    }
}

// The line's entry for the sending after so many: a missing one goes through.
fn entry_after(sent: u16, line: &[u8]) -> u8 {
    line.get(sent as usize).copied().unwrap_or(0)
}

// The lines behind the last sending. A download never ends otherwise: what could be refused was judged before.
fn ended(
    rt: &impl Print,
    action: Result<Action, Refusal>,
    sent: u16,
    lengths: &[u8; 16],
) -> io::Result<()> {
    match action {
        Ok(Action::Send { .. }) => Ok(()),
        Ok(Action::End(ending)) => ending_lines(rt, ending, sent, lengths),
        Err(refusal) => refused_line(rt, refusal),
    }
}

// What the controller does next, and the printer then.
#[derive(Drop)]
struct Stage {
    action: Result<Action, Refusal>,
    printer: Printer,
}

// One sending of the request of `count` bytes, with its line, and what the controller does then.
fn turn(
    rt: &impl Print,
    settings: Settings,
    book: &[u8],
    entry: u8,
    not_yet: &[u8],
    number: u16,
    controller: Controller,
    count: u8,
    printer: Printer,
    lengths: &mut [u8; 16],
    bodies: &mut [u8; 3200],
    reply: &mut [u8],
    request: &mut [u8],
) -> io::Result<Stage> {
    let sent = part(request, 0, count as usize);
    let reaction = match sending::send(
        entry, sent, printer, not_yet, &DIAGNOSIS, lengths, bodies, reply,
    ) {
        Ok(reaction) => reaction,
        Err(refusal) => {
            return Ok(Stage {
                action: Err(refusal),
                printer,
            });
        }
    };
    let came = part(reply, 0, reaction.reply as usize);
    sending_line(rt, number, sent, entry, settings, came)?;
    Ok(Stage {
        action: controller::step(settings, book, controller, came, request),
        printer: reaction.printer,
    })
}

// Every sending, until the controller ends the download.
fn sendings(
    rt: &impl Print,
    settings: Settings,
    book: &[u8],
    line: &[u8],
    not_yet: &[u8],
    printer: Printer,
    lengths: &mut [u8; 16],
    bodies: &mut [u8; 3200],
    reply: &mut [u8],
    request: &mut [u8],
) -> io::Result<()> {
    let mut now = Stage {
        action: controller::step(settings, book, Controller::Fresh, b"", request),
        printer,
    };
    for sent in 0..SENDINGS_MOST {
        let (controller, count) = match now.action {
            Ok(
                Action::Send {
                    controller,
                    request: count,
                },
            ) => (controller, count),
            action => return ended(rt, action, sent, lengths),
        };
        let entry = entry_after(sent, line);
        let number = sent + 1;
        let printer = now.printer;
        now = turn(
            rt, settings, book, entry, not_yet, number, controller, count, printer, lengths,
            bodies, reply, request,
        )?;
    }
    ended(rt, now.action, SENDINGS_MOST, lengths)
}

// Runs a download to a fresh printer whose slots are all empty, and prints it.
fn run(
    rt: &impl Print,
    settings: Settings,
    boarding: u8,
    book: &[u8],
    line: &[u8],
    not_yet: &[u8],
) -> io::Result<()> {
    let mut lengths = [0u8; 16];
    let mut bodies = [0u8; 3200];
    let mut reply = [0u8; 255];
    let mut request = [0u8; 255];
    let printer = fresh(settings.printer, boarding);
    let check = download_check::usable(
        settings, book, line, &DIAGNOSIS, printer, &lengths, &bodies, &reply, &request,
    );
    match check {
        Err(refusal) => refused_line(rt, refusal),
        Ok(()) => sendings(
            rt,
            settings,
            book,
            line,
            not_yet,
            printer,
            &mut lengths,
            &mut bodies,
            &mut reply,
            &mut request,
        ),
    }
}

fn simulate(rt: &impl Print, input: &[u8]) -> io::Result<()> {
    let Some(parts) = laid_out(input) else {
        return refused_line(rt, Refusal::EndsEarly);
    };
    if 1 < parts.boarding {
        return refused_line(rt, Refusal::Field);
    }
    let book = part(input, BOOK_START, parts.book_len);
    let line = part(input, parts.line_start, parts.line_len);
    let rest = part(input, parts.rest_start, parts.rest_len);
    run(rt, parts.settings, parts.boarding, book, line, rest)
}

// Reads until buf is full or the input ends, and answers how many bytes it put in front.
fn read_full(input: &mut impl Read, buf: &mut [u8]) -> io::Result<usize>
    ensures { IfOk result (λ n. n ≤ length buf.new) }
{
    let mut done = 0;
    while done < buf.len() {
        match input.read(&mut buf[done..])? {
            0 => break,
            n => done += n,
        }
    }
    Ok(done)
}

fn main(rt: HostRuntime) -> io::Result<()> {
    let mut buffer = [0u8; 8192];
    let n = read_full(&mut rt.stdin(), &mut buffer)?;
    simulate(&rt, &buffer[..n])
}
