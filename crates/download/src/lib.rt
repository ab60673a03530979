// The download: the controller's step joined to the printer's along a line (document 01, "Template book,
// printer, download"), as `protocol` defines it.
#![tactic(auto)]

mod running;

pub use running::run;
