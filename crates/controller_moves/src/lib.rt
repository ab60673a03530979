// What the controller does next (document 01, "The controller's step"), as `protocol` defines it, before any lent
// byte is touched: what is refused, then the next request or the end.
#![tactic(auto)]

ghost use Rattle.octets.specs.Refusals.{told};
ghost use Rattle.controller_moves.specs.Next.{Decides};

use crate::moves::move_by;
use octets::Refusal;
use protocol::{Controller, Settings};

mod moves;

pub use moves::Next;

// What comes next when `reply` came back for the request that the controller's state says was sent last, no
// bytes where none did.
#[tactic(auto, unfolding(protocol::specs::Controller::move_of))]
pub fn decide(
    settings: Settings,
    book: &[u8],
    controller: Controller,
    reply: &[u8],
) -> Result<Next, Refusal>
    ensures { Decides settings book.now controller reply.now (told result) }
{
    controller_state::judge(settings, book, controller)?;
    let exchange = controller_input::take(settings, reply);
    Ok(move_by(settings, book, controller, exchange))
}
