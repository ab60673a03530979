// Writing typed values (document 01, "Typed values"), held to the definitions of the crate typed.
#![tactic(auto)]

mod signed;
mod writing;

pub use writing::write;
