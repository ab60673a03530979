// Writing the next request at the front of the lent buffer: SD2, from the controller address set to the
// printer address set. There are three of them, all calls; so they are made here from their header and data, and
// not by the writer of every service, which would judge them once more.
ghost use Rattle.std.specs.Prelude.{◌≡◌, true, [], ◌+◌, ◌-◌, ◌≤◌, length, drop};
ghost use Rattle.octets.specs.Refusals.{told};
ghost use Rattle.octets.specs.Front.{AtFront};
ghost use Rattle.fdl.specs.Around.{good_fields};
ghost use Rattle.fdl.specs.Writing.{telegram_of};
ghost use Rattle.fdl.specs.declared.telegram.Format.TheVariants.{Sd2};
ghost use Rattle.access.specs.Route.{header_of};
ghost use Rattle.access.specs.declared.table.Service.TheVariants as service;
ghost use Rattle.acyclic.specs.declared.calls.Call.TheVariants as call;
ghost use Rattle.book.specs.Contents.{templates_of};
ghost use Rattle.content.specs.Writing.{bytes_for};
ghost use Rattle.content.specs.declared.fields.Content.TheVariants as content;
ghost use Rattle.protocol.specs.Line.{go};
ghost use Rattle.protocol.specs.Telegrams.{counted_code, opening_bytes, poll_bytes};
ghost use Rattle.protocol.specs.Check.{stored_in};
ghost use Rattle.protocol.specs.Controller.{ask_for, acted, leaving};
ghost use Rattle.protocol.specs.Verdicts.{Settled};
ghost use Rattle.protocol.specs.declared.controller.Job.TheVariants as job;
ghost use Rattle.protocol.specs.declared.controller.Controller.TheVariants as controller;
ghost use Rattle.controller_state.specs.Accepted.{Accepted};
ghost use Rattle.controller_moves.specs.Next.{move_in, FromOne};
ghost use Rattle.controller.specs.Sent.{sent_by};

use access::Service;
use controller_moves::Next;
use fdl::Format;
use octets::Refusal;
use protocol::{Action, Controller, Ending, Job, Settings};

// The function code of a counted call, SRD low, with its FCB.
fn counted_code(fcb: bool) -> u8
    ensures { result ≡ counted_code fcb }
{
    if fcb {
        return 0x7C;
    }
    0x5C
}

// The action when a request was written, or had no room.
fn sent(controller: Controller, written: Result<usize, Refusal>) -> Result<Action, Refusal>
    requires { stored_in (told written) ≤ 255 }
    ensures { told result ≡ sent_by controller (told written) }
{
    let count = written?;
    Ok(Action::Send {
        controller,
        request: count as u8,
    })
}

// Writes a call without data, after which the controller's state is this one.
fn put_empty(
    settings: Settings,
    service: Service,
    fc: u8,
    controller: Controller,
    request: &mut [u8],
) -> Result<Action, Refusal>
    requires { good_fields Sd2 (header_of service settings.printer settings.controller fc) 0 ≡ true }
    ensures { leaving (told result) request.new ≡ acted (go (telegram_of Sd2 (header_of service settings.printer settings.controller fc) []) controller) request.old }
{
    let header = routing::header_of(service, settings.printer, settings.controller, fc);
    let written = fdl_writer::write_around(Format::Sd2, header, 0, request);
    sent(controller, written)
}

// Stores the data of a write call to slot number 1: its number, slot, index and length, then the body.
fn put_data(index: u8, body: &[u8], out: &mut [u8]) -> usize
    requires { (length body.now ≤ 240) × (4 + length body.now ≤ length out.old) }
    ensures { AtFront (bytes_for (content.Dpv1Call (call.Write 1 index)) body.now) out.old out.new result }
{
    out[0] = acyclic::WRITE;
    out[1] = 1;
    out[2] = index;
    out[3] = body.len() as u8;
    octets::store_behind(4, body, out)
}

// Writes a write call. Its data go straight to their place in the telegram, which is then made around them.
fn put_body(
    settings: Settings,
    fc: u8,
    index: u8,
    body: &[u8],
    controller: Controller,
    request: &mut [u8],
) -> Result<Action, Refusal>
    requires { (length body.now ≤ 240) × (good_fields Sd2 (header_of service.Dpv1 settings.printer settings.controller fc) (4 + length body.now) ≡ true) }
    ensures { leaving (told result) request.new ≡ acted (go (telegram_of Sd2 (header_of service.Dpv1 settings.printer settings.controller fc) (bytes_for (content.Dpv1Call (call.Write 1 index)) body.now)) controller) request.old }
{
    let header = routing::header_of(Service::Dpv1, settings.printer, settings.controller, fc);
    let start = framing::user_start(Format::Sd2, header);
    if request.len() < start + 4 + body.len() + 2 {
        return Err(Refusal::NoRoom);
    }
    let len = put_data(index, body, &mut request[start..]);
    let written = fdl_writer::write_around(Format::Sd2, header, len, request);
    sent(controller, written)
}

// Writes the opening, a call for the diagnosis, which has no data.
#[tactic(auto, unfolding(service::specs::Writing::telegram_for, content::specs::Writing::bytes_for))]
fn put_opening(settings: Settings, request: &mut [u8]) -> Result<Action, Refusal>
    requires { Settled settings }
    ensures { leaving (told result) request.new ≡ acted (go (opening_bytes settings.printer settings.controller) controller.Opening) request.old }
{
    put_empty(
        settings,
        Service::SlaveDiag,
        0x6D,
        Controller::Opening,
        request,
    )
}

// Writes the write of a template to slot number 1. Behind the last template there is none to write, and the
// download is done.
#[tactic(auto, unfolding(service::specs::Writing::telegram_for))]
fn put_write(
    settings: Settings,
    book: &[u8],
    template: u8,
    fcb: bool,
    repeats: u8,
    request: &mut [u8],
) -> Result<Action, Refusal>
    requires { (Settled settings) × (Accepted book.now) × (1 ≤ template) }
    ensures { leaving (told result) request.new ≡ acted (ask_for settings template job.Write fcb repeats (drop (template - 1) (templates_of book.now))) request.old }
{
    let Ok(found) = book_reader::listed(book, template as usize) else {
        return Ok(Action::End(Ending::Done));
    };
    put_body(
        settings,
        counted_code(fcb),
        found.slot,
        octets::part(book, found.start, found.len),
        Controller::Asking {
            template,
            job: Job::Write,
            fcb,
            repeats,
        },
        request,
    )
}

// Writes a poll for the result of a template's write, which has no data.
#[tactic(auto, unfolding(service::specs::Writing::telegram_for, content::specs::Writing::bytes_for))]
fn put_poll(
    settings: Settings,
    template: u8,
    left: u8,
    fcb: bool,
    repeats: u8,
    request: &mut [u8],
) -> Result<Action, Refusal>
    requires { Settled settings }
    ensures { leaving (told result) request.new ≡ acted (go (poll_bytes settings.printer settings.controller fcb) (controller.Asking template (job.Poll left) fcb repeats)) request.old }
{
    put_empty(
        settings,
        Service::Dpv1,
        counted_code(fcb),
        Controller::Asking {
            template,
            job: Job::Poll { left },
            fcb,
            repeats,
        },
        request,
    )
}

// Writes the request that comes next, or hands on the end.
pub(crate) fn act(
    settings: Settings,
    book: &[u8],
    next: Next,
    request: &mut [u8],
) -> Result<Action, Refusal>
    requires { (Settled settings) × (Accepted book.now) × (FromOne next) }
    ensures { leaving (told result) request.new ≡ acted (move_in settings (templates_of book.now) next) request.old }
{
    match next {
        Next::Open => put_opening(settings, request),
        Next::Write {
            template,
            fcb,
            repeats,
        } => put_write(settings, book, template, fcb, repeats, request),
        Next::Poll {
            template,
            left,
            fcb,
            repeats,
        } => put_poll(settings, template, left, fcb, repeats, request),
        Next::End(ending) => Ok(Action::End(ending)),
    }
}
