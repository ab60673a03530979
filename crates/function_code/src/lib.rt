// Function codes of data link telegrams (document 01, "Function codes"): the class of each.
#![tactic(auto)]

mod code;
mod table;

pub use code::{Class, reserved};
pub use table::class_of;
