// PROFIBUS data link (FDL) telegrams (document 01, "Telegram layouts"): their fields, their checksum, and the
// definitions and laws of both ways; the crate fdl_reader reads, framing and fdl_writer write.
#![tactic(auto)]

mod reading;
mod telegram;

pub use reading::{Classed, Reading};
pub use telegram::{Format, Header, SC, SD1, SD2, SD3, SD4, Sap, checksum, sap_length};
