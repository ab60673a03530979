// What comes next by the reply: a request or the end. No request is written here.
ghost use Rattle.std.specs.Prelude.{◌≡◌, List, ℕ, ◌-◌, ◌≤◌, length, drop};
ghost use Rattle.octets.specs.Front.{fine};
ghost use Rattle.book.specs.Contents.{Entry, templates_of};
ghost use Rattle.protocol.specs.Controller.{settled as settledBy, poll_again, after_write, after_poll, after_opening, after_job, move_by, verdict_of};
ghost use Rattle.protocol.specs.Verdicts.{Settled};
ghost use Rattle.controller_input.specs.Meaning.{got_by, exchanged};
ghost use Rattle.controller_state.specs.Accepted.{Accepted, Standing};
ghost use Rattle.controller_moves.specs.Next.{Says, may_repeat};

use controller_input::Reply;
use protocol::{Controller, Ending, Job, Settings};

// The next request, with its FCB and how often it may be sent again: the opening; the write of a
// template, which ends the download as done where the book has no such template; a poll for a template's
// result, with so many polls left after it. Or the end.
#[derive(Clone, Copy)]
pub enum Next {
    Open,
    Write {
        template: u8,
        fcb: bool,
        repeats: u8,
    },
    Poll {
        template: u8,
        left: u8,
        fcb: bool,
        repeats: u8,
    },
    End(Ending),
}

// Whether nothing came and the request may be sent again.
fn may_repeat(exchange: Option<Reply>, repeats: u8) -> bool
    ensures { result ≡ may_repeat (exchanged exchange) repeats }
{
    exchange.is_none() && 0 < repeats
}

// After the opening, which is sent once: without a diagnosis back there is none.
fn after_opening(settings: Settings, exchange: Option<Reply>) -> Next
    ensures { (book : List Entry) → Says settings book result (after_opening settings book (exchanged exchange)) }
{
    let Some(Reply::Diagnosis) = exchange else {
        return Next::End(Ending::NoOpening);
    };
    Next::Write {
        template: 1,
        fcb: false,
        repeats: settings.repeats,
    }
}

// After the write of a template: the first poll for its result.
fn after_write(
    settings: Settings,
    template: u8,
    fcb: bool,
    repeats: u8,
    exchange: Option<Reply>,
) -> Next
    requires { (Settled settings) × (1 ≤ template) }
    ensures { (book : List Entry) → template ≤ length book → Says settings book result (after_write settings template fcb repeats (drop (template - 1) book) (exchanged exchange)) }
{
    if may_repeat(exchange, repeats) {
        // The same write again: a repeat keeps FCB.
        let repeats = repeats - 1;
        return Next::Write {
            template,
            fcb,
            repeats,
        };
    }
    let Some(reply) = exchange else {
        // The write failed: it was never answered.
        return Next::End(Ending::NoAnswer { template });
    };
    let Reply::Confirmation = reply else {
        return Next::End(Ending::Strange { template });
    };
    Next::Poll {
        template,
        left: settings.polls - 1,
        fcb: !fcb,
        repeats: settings.repeats,
    }
}

// After SC to a poll: another poll, while any is left.
fn poll_again(settings: Settings, template: u8, left: u8, fcb: bool) -> Next
    ensures { (book : List Entry) → 1 ≤ template → template ≤ length book → Says settings book result (poll_again settings template fcb left (drop (template - 1) book)) }
{
    if left == 0 {
        return Next::End(Ending::NotReady { template });
    }
    // A new request: FCB alternates.
    let left = left - 1;
    Next::Poll {
        template,
        left,
        fcb: !fcb,
        repeats: settings.repeats,
    }
}

// After 5F to a poll: the next template, if this is the result of the template's own write. A template
// that the book does not have leaves nothing to write.
fn settled(
    settings: Settings,
    book: &[u8],
    template: u8,
    fcb: bool,
    slot: u8,
    index: u8,
    length: u8,
) -> Next
    requires { (Accepted book.now) × (1 ≤ template) }
    ensures { Says settings (templates_of book.now) result (settledBy settings template fcb slot index length (drop (template - 1) (templates_of book.now))) }
{
    let Ok(found) = book_reader::listed(book, template as usize) else {
        return Next::End(Ending::Done);
    };
    if slot != 1 {
        return Next::End(Ending::Strange { template });
    }
    if index != found.slot {
        return Next::End(Ending::Strange { template });
    }
    if length as usize != found.len {
        return Next::End(Ending::Strange { template });
    }
    Next::Write {
        template: template + 1,
        fcb: !fcb,
        repeats: settings.repeats,
    }
}

// After a reply to a poll: SC is "not yet", 5F and DF are results.
fn after_result(
    settings: Settings,
    book: &[u8],
    template: u8,
    left: u8,
    fcb: bool,
    reply: Reply,
) -> Next
    requires { Standing book.now template }
    ensures { (repeats : ℕ) → Says settings (templates_of book.now) result (after_poll settings template left fcb repeats (drop (template - 1) (templates_of book.now)) (got_by reply)) }
{
    match reply {
        Reply::Confirmation => poll_again(settings, template, left, fcb),
        Reply::Positive {
            slot,
            index,
            length,
        } => settled(settings, book, template, fcb, slot, index, length),
        Reply::Negative { code1, code2 } => Next::End(Ending::Refused {
            template,
            code1,
            code2,
        }),
        Reply::Diagnosis | Reply::Other => Next::End(Ending::Strange { template }),
    }
}

// After a poll for the result of a template's write.
fn after_poll(
    settings: Settings,
    book: &[u8],
    template: u8,
    left: u8,
    fcb: bool,
    repeats: u8,
    exchange: Option<Reply>,
) -> Next
    requires { Standing book.now template }
    ensures { Says settings (templates_of book.now) result (after_poll settings template left fcb repeats (drop (template - 1) (templates_of book.now)) (exchanged exchange)) }
{
    if may_repeat(exchange, repeats) {
        // The same poll again: a repeat keeps FCB.
        let repeats = repeats - 1;
        return Next::Poll {
            template,
            left,
            fcb,
            repeats,
        };
    }
    let Some(reply) = exchange else {
        // The poll failed: it was never answered.
        return Next::End(Ending::NoAnswer { template });
    };
    after_result(settings, book, template, left, fcb, reply)
}

// After a job for a template.
fn after_job(
    settings: Settings,
    book: &[u8],
    template: u8,
    job: Job,
    fcb: bool,
    repeats: u8,
    exchange: Option<Reply>,
) -> Next
    requires { (Settled settings) × (Standing book.now template) }
    ensures { Says settings (templates_of book.now) result (after_job settings template job fcb repeats (drop (template - 1) (templates_of book.now)) (exchanged exchange)) }
{
    match job {
        Job::Write => after_write(settings, template, fcb, repeats, exchange),
        Job::Poll { left } => after_poll(settings, book, template, left, fcb, repeats, exchange),
    }
}

// What comes next for a controller that is not refused. A fresh one opens, whatever the reply.
pub(crate) fn move_by(
    settings: Settings,
    book: &[u8],
    controller: Controller,
    exchange: Option<Reply>,
) -> Next
    requires { verdict_of settings book.now controller ≡ fine }
    ensures { Says settings (templates_of book.now) result (move_by settings (templates_of book.now) controller (exchanged exchange)) }
{
    match controller {
        Controller::Fresh => Next::Open,
        Controller::Opening => after_opening(settings, exchange),
        Controller::Asking {
            template,
            job,
            fcb,
            repeats,
        } => after_job(settings, book, template, job, fcb, repeats, exchange),
    }
}
