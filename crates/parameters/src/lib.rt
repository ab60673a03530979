// Parameters of a slave (Set_Prm; document 01, "Parameters"): their fields, the times that they set, and the
// definitions and laws of both ways; the crate parameters_reader reads, and parameters_writer writes.
#![tactic(auto)]

mod fields;
mod timing;

pub use fields::{
    BitTimes, Extension, Milliseconds, Parameters, fixed_length, good_flags, good_response,
    good_status1, good_status2, good_status3,
};
pub use timing::{expired, watchdog};
