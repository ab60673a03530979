// Acyclic services of DPV1 (document 01, "DPV1"): what calls and answers are, and the definitions and laws of both
// ways. Their code stands in acyclic_forms, acyclic_reader and acyclic_writer.
#![tactic(auto)]

mod answers;
mod calls;
mod numbers;

pub use answers::Answer;
pub use calls::Call;
pub use numbers::{
    ALARM_ACK, Function, IDLE, NEGATIVE_ALARM_ACK, NEGATIVE_READ, NEGATIVE_TRANSPORT,
    NEGATIVE_WRITE, READ, TRANSPORT, WRITE,
};
