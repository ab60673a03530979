// Writing the blocks of a slave diagnosis one by one (document 01, "Diagnosis"), held to the definitions of the crate
// diagnosis.
#![tactic(auto)]

mod writing;

pub use writing::{write_channel, write_device, write_module};
