// The printer's step over lent bytes (document 01, "Printer rules"), as `protocol` defines it.
#![tactic(auto)]

mod hearing;
mod replies;
mod slots;

pub use hearing::step;
