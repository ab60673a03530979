// The services by access point (document 01, "Services by access point"): their types, and the definitions
// and laws of the list and of a telegram's route; the crate access_table has the list, and routing the route.
#![tactic(auto)]

mod route;
mod table;

pub use route::{Answering, Kind, Route};
pub use table::{
    CHK_CFG, DATA_EXCHANGE, DPV1, EXT_USER_PRM, GET_CFG, GLOBAL_CONTROL, MASTER, Points, RD_INP,
    RD_OUTP, Row, SET_PRM, SET_SLAVE_ADR, SLAVE_DIAG, Service,
};
