// What is set for a download as four bytes, and the controller's state as five.
ghost use Rattle.std.specs.Prelude.{◌≡◌};
ghost use Rattle.controller_bytes.specs.State.{settings_in, asking_by, controller_in, controller_bytes};

use octets::bit_of;
use protocol::{Controller, Job, Settings};

pub fn settings_in(settings: &[u8; 4]) -> Settings
    ensures { result ≡ settings_in settings.now }
{
    Settings {
        printer: settings[0],
        controller: settings[1],
        repeats: settings[2],
        polls: settings[3],
    }
}

// A controller that has sent a write or a poll, unless its FCB is above 1.
#[tactic(auto, unfolding(crate::specs::State::asking_by))]
fn asking_by(job: Job, template: u8, fcb: u8, repeats: u8) -> Option<Controller>
    ensures { result ≡ asking_by job template fcb repeats }
{
    if 1 < fcb {
        return None;
    }
    Some(Controller::Asking {
        template,
        job,
        fcb: fcb == 1,
        repeats,
    })
}

// The controller that the bytes are the state of: its kind is known, and FCB, where it has one, not above 1.
#[tactic(auto, unfolding(crate::specs::State::controller_in))]
pub fn controller_in(state: &[u8; 5]) -> Option<Controller>
    ensures { result ≡ controller_in state.now }
{
    match state[0] {
        0 => Some(Controller::Fresh),
        1 => Some(Controller::Opening),
        2 => asking_by(Job::Write, state[1], state[2], state[3]),
        3 => asking_by(Job::Poll { left: state[4] }, state[1], state[2], state[3]),
        _ => None,
    }
}

// Stores a controller's state.
pub fn put_controller(controller: Controller, state: &mut [u8; 5])
    ensures { state.new ≡ controller_bytes controller }
{
    match controller {
        Controller::Fresh => {
            *state = [0, 0, 0, 0, 0];
        }
        Controller::Opening => {
            *state = [1, 0, 0, 0, 0];
        }
        Controller::Asking {
            template,
            job,
            fcb,
            repeats,
        } => match job {
            Job::Write => {
                *state = [2, template, bit_of(fcb), repeats, 0];
            }
            Job::Poll { left } => {
                *state = [3, template, bit_of(fcb), repeats, left];
            }
        },
    }
}
