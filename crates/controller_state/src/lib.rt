// What a controller's settings and state may be, with a book (document 01, "The controller's step"), as `protocol`
// defines it.
#![tactic(auto)]

mod verdicts;

pub use verdicts::{judge, usable};
