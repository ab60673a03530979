// Writing a book (document 01, "A book").
#![tactic(auto)]

mod table;
mod writing;

pub use writing::write;
