// The controller's step over lent bytes (document 01, "The controller's step"), as `protocol` defines it:
// what comes next, then its request.
#![tactic(auto)]

ghost use Rattle.std.specs.Prelude.{◌≡◌};
ghost use Rattle.octets.specs.Refusals.{told};
ghost use Rattle.protocol.specs.Controller.{leaving, step_of};

use crate::requests::act;
use octets::Refusal;
use protocol::{Action, Controller, Settings};

mod requests;

// What the controller does when `reply` came back for the request that its state says was sent last, no bytes
// where none did: the next request at the front of `request`, or the end.
#[tactic(auto, unfolding(protocol::specs::Controller::step_of))]
pub fn step(
    settings: Settings,
    book: &[u8],
    controller: Controller,
    reply: &[u8],
    request: &mut [u8],
) -> Result<Action, Refusal>
    ensures { leaving (told result) request.new ≡ step_of settings book.now controller reply.now request.old }
{
    let next = controller_moves::decide(settings, book, controller, reply)?;
    act(settings, book, next, request)
}
