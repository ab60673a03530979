// What the reader and the writer of DPV1 calls and answers both judge (document 01, "DPV1"): function numbers, the forms of the
// bytes behind them, and the error bytes of a negative answer, held to the definitions of the crate acyclic.
#![tactic(auto)]

mod errors;
mod forms;
mod numbers;

pub use forms::{alone, counted, counted_as, negative, ranged};
pub use numbers::{allowed_in_answers, allowed_in_calls, failed_by, negative_number};
