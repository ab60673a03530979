// Writing calls and answers of DPV1 (document 01, "DPV1"), held to the definitions of the crate acyclic.
#![tactic(auto)]

mod answers;
mod calls;
mod forms;

pub use answers::write_answer;
pub use calls::write_call;
