// Reading typed values (document 01, "Typed values"), held to the definitions of the crate typed.
#![tactic(auto)]

mod reading;
mod signed;

pub use reading::read;
