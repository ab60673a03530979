// PROFIBUS DP configuration data (document 01, "Configuration"): its modules, and the definitions and laws of both
// ways. The crate configuration_walk goes over the modules, configuration_reader reads it whole, and
// configuration_writer writes.
#![tactic(auto)]

mod fields;
mod reading;
mod walk;

pub use fields::{Identifier, Module, Side, side_length};
pub use reading::Reading;
pub use walk::{Position, Step};
