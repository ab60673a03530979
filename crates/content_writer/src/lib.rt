// Writing what a service's user data hold, held to the definitions of the crate content.
#![tactic(auto)]

mod writing;

pub use writing::{write_answer, write_call};
