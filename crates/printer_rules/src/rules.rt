// Each rule gives a plan, the deed.
ghost use Rattle.std.specs.Prelude.{◌≡◌, List, ℕ, suc, min};
ghost use Rattle.protocol.specs.Printer.{guarded, negative, judge, write_deed, poll_deed, perform, opening_reply};
ghost use Rattle.printer_rules.specs.Meaning.{reply_in, ask_with, target_of, untouched, Does};

use printer_input::Ask;
use protocol::{Outcome, Pending, Printer};

// The functions of a bare reply: 0 to 3.
#[derive(Clone, Copy)]
pub enum Status {
    Ok,
    UserError,
    NoResource,
    NoService,
}

// What is sent back, other than the held reply.
#[derive(Clone, Copy)]
pub enum Reply {
    Confirmation,
    Bare(Status),
    Diagnosis,
    Result(Outcome),
}

// What a new call does.
#[derive(Clone, Copy)]
pub struct Deed {
    pub pending: Pending,
    pub writes: u8,
    pub reply: Reply,
    pub target: Option<u8>,
}

// The slots that are not changed while boarding: slot seven.
fn guarded(boarding: bool, index: u8) -> bool
    ensures { result ≡ guarded boarding index }
{
    boarding && index == 7
}

// The result of a refused write: code 2 is zero.
fn negative(code1: u8) -> Outcome
    ensures { result ≡ negative code1 }
{
    Outcome::Negative { code1, code2: 0 }
}

// The result of a write of len bytes, the first rule that fits deciding.
#[tactic(auto, unfolding(protocol::specs::Printer::judge))]
fn judge(boarding: bool, slot: u8, index: u8, len: usize) -> Outcome
    ensures { result ≡ judge boarding slot index len }
{
    if slot != 1 {
        return negative(0xB2);
    }
    if 15 < index {
        return negative(0xB0);
    }
    if 200 < len {
        return negative(0xB1);
    }
    if guarded(boarding, index) {
        return negative(0xB6);
    }
    Outcome::Positive {
        slot,
        index,
        length: len as u8,
    }
}

// A refused write fills no slot.
fn target_of(outcome: Outcome, index: u8) -> Option<u8>
    ensures { result ≡ target_of outcome index }
{
    match outcome {
        Outcome::Positive { .. } => Some(index),
        Outcome::Negative { .. } => None,
    }
}

// One write more; the count stays at 255.
fn one_more(writes: u8) -> u8
    ensures { result ≡ min 255 (suc writes) }
{
    writes.saturating_add(1)
}

fn untouched(pending: Pending, writes: u8, reply: Reply) -> Deed
    ensures { result ≡ untouched pending writes reply }
{
    Deed {
        pending,
        writes,
        reply,
        target: None,
    }
}

// A write is performed at once where no result is pending.
fn write(printer: Printer, not_yet: u8, slot: u8, index: u8, len: usize) -> Deed
    ensures { Does result len (λ body s. write_deed printer.boarding not_yet printer.pending s printer.writes slot index body) }
{
    match printer.pending {
        Pending::Nothing => {
            let outcome = judge(printer.boarding, slot, index, len);
            Deed {
                pending: Pending::Result {
                    outcome,
                    wait: not_yet,
                },
                writes: one_more(printer.writes),
                reply: Reply::Confirmation,
                target: target_of(outcome, index),
            }
        }
        Pending::Result { .. } => untouched(
            printer.pending,
            printer.writes,
            Reply::Bare(Status::NoResource),
        ),
    }
}

// A poll gets SC while none is pending or the number of "not yet" is not used up, then the result.
fn poll(printer: Printer, len: usize) -> Deed
    ensures { Does result len (λ body s. poll_deed printer.pending s printer.writes) }
{
    match printer.pending {
        Pending::Nothing => untouched(Pending::Nothing, printer.writes, Reply::Confirmation),
        Pending::Result { outcome, wait } => {
            if wait == 0 {
                return untouched(Pending::Nothing, printer.writes, Reply::Result(outcome));
            }
            let left = Pending::Result {
                outcome,
                wait: wait - 1,
            };
            untouched(left, printer.writes, Reply::Confirmation)
        }
    }
}

// What a new call does that carries a body of len bytes.
pub fn perform(printer: Printer, not_yet: u8, ask: Ask, len: usize) -> Deed
    ensures { Does result len (λ body s. perform printer.boarding not_yet printer.pending s printer.writes (ask_with ask body)) }
{
    let pending = printer.pending;
    match ask {
        Ask::SlaveDiag => untouched(pending, printer.writes, Reply::Diagnosis),
        Ask::Write { slot, index, .. } => write(printer, not_yet, slot, index, len),
        Ask::Poll => poll(printer, len),
        Ask::Unknown => untouched(pending, printer.writes, Reply::Bare(Status::NoService)),
        Ask::Undecodable => untouched(pending, printer.writes, Reply::Bare(Status::UserError)),
    }
}

// What an opening call gets.
pub fn opening_reply(ask: Ask) -> Reply
    ensures { (body : List ℕ) → reply_in result ≡ opening_reply (ask_with ask body) }
{
    match ask {
        Ask::SlaveDiag => Reply::Diagnosis,
        Ask::Undecodable => Reply::Bare(Status::UserError),
        _ => Reply::Bare(Status::NoService),
    }
}
