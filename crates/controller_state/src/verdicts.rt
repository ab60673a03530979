// What is judged before the controller does anything: the settings, the book, and its own state.
ghost use Rattle.std.specs.Prelude.{◌≡◌, false, eqb, length};
ghost use Rattle.octets.specs.Choice.{◌or◌};
ghost use Rattle.octets.specs.Front.{fault};
ghost use Rattle.octets.specs.Fixed.{judged};
ghost use Rattle.book.specs.Contents.{templates_of};
ghost use Rattle.book.specs.Reading.{read_of};
ghost use Rattle.octets.specs.Refusals.{verdict_in};
ghost use Rattle.protocol.specs.Controller.{settings_verdict, book_verdict, requests_before, wrong_fcb, too_many_polls, state_verdict, verdict_of};
ghost use Rattle.protocol.specs.declared.controller.Controller.TheVariants.{Asking};

use octets::Refusal;
use protocol::{Controller, Job, Settings};

// Whether a download may have these settings, else 12.
#[tactic(auto, unfolding(protocol::specs::Controller::settings_verdict))]
pub fn usable(settings: Settings) -> Result<(), Refusal>
    ensures { verdict_in result ≡ settings_verdict settings }
{
    if 126 < settings.printer {
        return Err(Refusal::Field);
    }
    if 126 < settings.controller {
        return Err(Refusal::Field);
    }
    if settings.printer == settings.controller {
        return Err(Refusal::Field);
    }
    if 7 < settings.repeats {
        return Err(Refusal::Field);
    }
    if settings.polls < 1 {
        return Err(Refusal::Field);
    }
    if 31 < settings.polls {
        return Err(Refusal::Field);
    }
    Ok(())
}

// Whether more polls are left than a template gets.
fn too_many_polls(settings: Settings, job: Job) -> bool
    ensures { result ≡ too_many_polls settings job }
{
    match job {
        Job::Write => false,
        Job::Poll { left } => !(left < settings.polls),
    }
}

// How many requests were made for a template before this one, repeats not counted.
fn requests_before(settings: Settings, job: Job) -> u8
    requires { too_many_polls settings job ≡ false }
    ensures { result ≡ requests_before settings job }
{
    match job {
        Job::Write => 0,
        Job::Poll { left } => settings.polls - left,
    }
}

// Whether FCB is known from the job alone: at the first template, and where each has one write and one
// poll.
fn fcb_known(settings: Settings, template: u8) -> bool
    ensures { result ≡ (eqb template 1 or eqb settings.polls 1) }
{
    template == 1 || settings.polls == 1
}

// Whether FCB is known and is another.
fn wrong_fcb(settings: Settings, template: u8, job: Job, fcb: bool) -> bool
    requires { too_many_polls settings job ≡ false }
    ensures { result ≡ wrong_fcb settings template job fcb }
{
    if !fcb_known(settings, template) {
        return false;
    }
    let odd = requests_before(settings, job) % 2 == 1;
    if fcb {
        return !odd;
    }
    odd
}

// Whether a run leads to this job, with a book of so many templates.
#[tactic(auto, unfolding(protocol::specs::Controller::state_verdict))]
fn job_usable(
    settings: Settings,
    count: usize,
    template: u8,
    job: Job,
    fcb: bool,
    repeats: u8,
) -> Result<(), Refusal>
    ensures { verdict_in result ≡ state_verdict settings count (Asking template job fcb repeats) }
{
    if template < 1 {
        return Err(Refusal::Field);
    }
    if count < template as usize {
        return Err(Refusal::Field);
    }
    if too_many_polls(settings, job) {
        return Err(Refusal::Field);
    }
    if settings.repeats < repeats {
        return Err(Refusal::Field);
    }
    if wrong_fcb(settings, template, job, fcb) {
        return Err(Refusal::Field);
    }
    Ok(())
}

// Whether a run leads to this state, with a book of so many templates.
#[tactic(auto, unfolding(protocol::specs::Controller::state_verdict))]
fn state_usable(settings: Settings, count: usize, controller: Controller) -> Result<(), Refusal>
    ensures { verdict_in result ≡ state_verdict settings count controller }
{
    match controller {
        Controller::Fresh | Controller::Opening => Ok(()),
        Controller::Asking {
            template,
            job,
            fcb,
            repeats,
        } => job_usable(settings, count, template, job, fcb, repeats),
    }
}

// The book's own refusal, then the state's.
#[tactic(auto, using(book::proofs::Laws::templates_in_order))]
fn book_usable(settings: Settings, book: &[u8], controller: Controller) -> Result<(), Refusal>
    ensures { verdict_in result ≡ judged fault (book_verdict (read_of book.now)) (state_verdict settings (length (templates_of book.now)) controller) }
{
    let count = book_reader::read(book)?;
    state_usable(settings, count, controller)
}

// Whether the controller may take a step: the first refusal decides.
#[tactic(auto, unfolding(protocol::specs::Controller::verdict_of))]
pub fn judge(settings: Settings, book: &[u8], controller: Controller) -> Result<(), Refusal>
    ensures { verdict_in result ≡ verdict_of settings book.now controller }
{
    usable(settings)?;
    book_usable(settings, book, controller)
}
