// What a service's user data hold, by the service and the way (document 01, "Services by access point"): each
// service's fields, and the definitions and laws of both ways; the crate content_reader reads, and content_writer
// writes.
#![tactic(auto)]

mod fields;

pub use fields::{Content, fixed_length, service_of};
