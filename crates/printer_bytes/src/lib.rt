// The printer's state as bytes, in the layout of the C interface (include/rabtunex.h).
#![tactic(auto)]

mod state;

pub use state::{printer_in, put_printer};
