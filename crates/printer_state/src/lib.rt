// What a printer may be used with, and what it remembers between two telegrams, as `protocol` defines both.
#![tactic(auto)]

mod checking;
mod state;

pub use checking::usable;
pub use state::{drop_held, is_repeat, opened, renewed};
