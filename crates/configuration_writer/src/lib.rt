// Writing configuration data, whole or module by module (document 01, "Configuration"), held to the
// definitions of the crate configuration, which reads them.
#![tactic(auto)]

mod writing;

pub use writing::{write, write_module};
