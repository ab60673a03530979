// Reading a book and finding a template in it (document 01, "A book").
#![tactic(auto)]

mod reading;
mod table;
mod templates;

pub use reading::read;
pub use templates::{listed, template};
