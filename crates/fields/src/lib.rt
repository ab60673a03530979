// The kinds of telegram as bytes, in the layout of the C interface, and what every writer of it answers.
#![tactic(auto)]

mod kinds;
mod outcome;

pub use kinds::{Kind, format_number, kind_of};
pub use outcome::{store_count, told};
