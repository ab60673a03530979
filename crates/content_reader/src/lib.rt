// Reading what a service's user data hold, held to the definitions of the crate content.
#![tactic(auto)]

mod reading;

pub use reading::{read_answer, read_call};
