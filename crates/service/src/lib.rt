// Whole telegrams that carry a service (document 01, "Services by access point"): what reading one answers, and the
// definitions and laws of both ways; the crate service_reader reads, and service_writer writes.
#![tactic(auto)]

mod reading;

pub use reading::{Reading, Way};
