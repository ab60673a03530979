// PROFIBUS DP configuration data, read whole: what its modules add up to, and where each begins.
#![tactic(auto)]

mod gathering;
mod lists;
mod reading;

pub use lists::offsets;
pub use reading::read;
