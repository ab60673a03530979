// Service telegrams through the C interface, by the same eighteen fields for reading and writing.
#![tactic(auto)]

mod reading;
mod writing;
