// Slave diagnosis (document 01, "Diagnosis"): its fields, and the definitions and laws of both ways. The crates
// diagnosis_reader and diagnosis_writer have it whole, diagnosis_walk and diagnosis_block_writer block by block.
#![tactic(auto)]

mod block;
mod reading;
mod walk;

pub use block::{CHANNEL_BLOCK, DEVICE_BLOCK, Extent, Kind, MODULE_BLOCK, good_code};
pub use reading::{Header, Reading};
pub use walk::{Block, Channel, Position, Step};
