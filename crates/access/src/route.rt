// Which service a telegram's function code and access points name, and which way it goes.
use crate::table::Service;

// What a function code may carry: a service's call, Global_Control, a service's answer, or none.
#[derive(Clone, Copy, PartialEq, Eq)]
pub enum Kind {
    Call,
    Command,
    Answer,
    Other,
}

// The services that answer with data.
#[derive(Clone, Copy)]
pub enum Answering {
    DataExchange,
    Dpv1,
    RdInp,
    RdOutp,
    GetCfg,
    SlaveDiag,
}

// Where a telegram's user data belong.
#[derive(Clone, Copy)]
pub enum Route {
    Call(Service),
    Answer(Answering),
    Nowhere,
}
