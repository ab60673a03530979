// The controller's step through the C interface.
#![tactic(auto)]

ghost use Rattle.std.specs.Prelude.{◌≡◌};
ghost use Rattle.octets.specs.Refusals.{told};
ghost use Rattle.capi_controller.specs.ControllerEnd.{controller_step, refusal_in, state_after, stored_after, ending_after};

use controller_bytes::{controller_in, put_controller, put_ending, put_going_on, settings_in};
use octets::Refusal;
use protocol::Action;

// Stores the controller after a step, the length of its request and how the download stands, and answers the
// refusal, 0 for none.
fn put_action(
    action: Result<Action, Refusal>,
    state: &mut [u8; 5],
    stored: &mut usize,
    ending: &mut [u8; 4],
) -> u8
    ensures refusal { result ≡ refusal_in (told action) }
    ensures state { state.new ≡ state_after (told action) state.old }
    ensures stored { stored.new ≡ stored_after (told action) stored.old }
    ensures ending { ending.new ≡ ending_after (told action) ending.old }
{
    match action {
        Ok(
            Action::Send {
                controller,
                request,
            },
        ) => {
            put_controller(controller, state);
            *stored = request as usize;
            put_going_on(ending);
            0
        }
        Ok(Action::End(how)) => {
            *stored = 0;
            put_ending(how, ending);
            0
        }
        Err(refusal) => refusal.number(),
    }
}

// What the controller does now that a reply came back, or none.
#[unsafe(no_mangle)]
pub extern "C" fn rabtunex_controller_step(
    settings: &[u8; 4],
    book: &[u8],
    state: &mut [u8; 5],
    reply: &[u8],
    request: &mut [u8],
    stored: &mut usize,
    ending: &mut [u8; 4],
) -> u8
    ensures refusal { result ≡ refusal_in (controller_step settings.now book.now state.old reply.now request.old).answer }
    ensures state { state.new ≡ state_after (controller_step settings.now book.now state.old reply.now request.old).answer state.old }
    ensures request { request.new ≡ (controller_step settings.now book.now state.old reply.now request.old).buffer }
    ensures stored { stored.new ≡ stored_after (controller_step settings.now book.now state.old reply.now request.old).answer stored.old }
    ensures ending { ending.new ≡ ending_after (controller_step settings.now book.now state.old reply.now request.old).answer ending.old }
{
    let Some(controller) = controller_in(state) else {
        return Refusal::Field.number();
    };
    let action = controller::step(settings_in(settings), book, controller, reply, request);
    put_action(action, state, stored, ending)
}
