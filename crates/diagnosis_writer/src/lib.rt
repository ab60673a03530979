// Writing a slave diagnosis whole (document 01, "Diagnosis"), held to the definitions of the crate diagnosis.
#![tactic(auto)]

mod writing;

pub use writing::write;
