// Writing parameters of a slave (document 01, "Parameters"), held to the definitions of the crate
// parameters, which reads them.
#![tactic(auto)]

mod writing;

pub use writing::write;
