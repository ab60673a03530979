// The fields of DPV1 calls and answers as bytes, in the layout of the C interface: the first four, and what such fields name.
#![tactic(auto)]

mod four;

pub use four::{Case, Four, answer_four, answer_named, call_four, call_named};
