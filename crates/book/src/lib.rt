// A book of templates (document 01, "A book"): what finding a template answers, and the judgment that its reader and
// its writer share.
#![tactic(auto)]

mod answers;
mod table;

pub use answers::Template;
pub use table::good_pair;
