// Reading calls and answers of DPV1 (document 01, "DPV1").
#![tactic(auto)]

mod answers;
mod calls;

pub use answers::read_answer;
pub use calls::read_call;
