// What is set for a download, what its controller remembers, and how it stands, as bytes in the layout of the C
// interface (include/rabtunex.h).
#![tactic(auto)]

mod ending;
mod state;

pub use ending::{put_ending, put_going_on};
pub use state::{controller_in, put_controller, settings_in};
