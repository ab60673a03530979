// The two machines of a download and the line between them (document 01, "Template book, printer,
// download"): what each remembers, and what each answers. What they do is defined in specs/, with
// the customer's third demand; nothing here runs.
#![tactic(auto)]

mod controller;
mod download;
mod printer;

pub use controller::{Action, Controller, Ending, Job, Settings};
pub use download::Downloaded;
pub use printer::{Outcome, Pending, Printer, Reaction};
