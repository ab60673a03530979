// What a call makes the printer do (document 01, "Printer rules"), before any lent byte is touched: a plan,
// which the printer's step carries out.
#![tactic(auto)]

mod rules;

pub use rules::{Deed, Reply, Status, opening_reply, perform};
