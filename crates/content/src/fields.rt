// What a service's user data hold, whose they are, and how many bytes the fields take.
ghost use Rattle.std.specs.Prelude.{◌≡◌};
ghost use Rattle.parameters.specs.Writing.{user_start};
ghost use Rattle.content.specs.Fields.{service_of, call_length, answer_length, fixed_length};

use access::Service;
use acyclic::{Answer, Call};
use address_change::AddressChange;
use control::GlobalCommand;
use diagnosis::Header;
use parameters::{Extension, Parameters};

// A service with its fields. The way of a telegram tells the call of Rd_Inp, Rd_Outp and Get_Cfg,
// which is empty, from the answer.
#[derive(Clone, Copy)]
pub enum Content {
    DataExchange,
    Dpv1Call(Call),
    Dpv1Answer(Answer),
    ExtUserPrm,
    SetSlaveAdr(AddressChange),
    RdInp,
    RdOutp,
    GlobalControl(GlobalCommand),
    GetCfg,
    SlaveDiagCall,
    SlaveDiag(Header),
    SetPrm(Parameters),
    ChkCfg,
}

// The service of a content.
pub fn service_of(content: Content) -> Service
    ensures { result ≡ service_of content }
{
    match content {
        Content::DataExchange => Service::DataExchange,
        Content::Dpv1Call(_) => Service::Dpv1,
        Content::Dpv1Answer(_) => Service::Dpv1,
        Content::ExtUserPrm => Service::ExtUserPrm,
        Content::SetSlaveAdr(_) => Service::SetSlaveAdr,
        Content::RdInp => Service::RdInp,
        Content::RdOutp => Service::RdOutp,
        Content::GlobalControl(_) => Service::GlobalControl,
        Content::GetCfg => Service::GetCfg,
        Content::SlaveDiagCall => Service::SlaveDiag,
        Content::SlaveDiag(_) => Service::SlaveDiag,
        Content::SetPrm(_) => Service::SetPrm,
        Content::ChkCfg => Service::ChkCfg,
    }
}

fn call_length(call: Call) -> usize
    ensures { result ≡ call_length call }
{
    match call {
        Call::Poll => 0,
        Call::Read {
            slot: _,
            index: _,
            length: _,
        } => 4,
        Call::Write { slot: _, index: _ } => 4,
        Call::AlarmAck {
            slot: _,
            alarm: _,
            specifier: _,
        } => 4,
        Call::Idle => 1,
        Call::Transport { slot: _, index: _ } => 4,
    }
}

fn answer_length(answer: Answer) -> usize
    ensures { result ≡ answer_length answer }
{
    match answer {
        Answer::Read { slot: _, index: _ } => 4,
        Answer::Write {
            slot: _,
            index: _,
            length: _,
        } => 4,
        Answer::AlarmAck {
            slot: _,
            alarm: _,
            specifier: _,
        } => 4,
        Answer::Idle => 1,
        Answer::Transport { slot: _, index: _ } => 4,
        Answer::Negative {
            function: _,
            decode: _,
            code1: _,
            code2: _,
        } => 4,
    }
}

// The bytes of both versions, and the three that DPV1 adds.
fn parameters_length(fields: Parameters) -> usize
    ensures { result ≡ user_start fields }
{
    let extension = fields.extension;
    match extension {
        Extension::Dpv0 => 7,
        Extension::Dpv1 {
            status1: _,
            status2: _,
            status3: _,
        } => 10,
    }
}

// How many bytes the fields take, before the part.
pub fn fixed_length(content: Content) -> usize
    ensures { result ≡ fixed_length content }
{
    match content {
        Content::DataExchange => 0,
        Content::Dpv1Call(call) => call_length(call),
        Content::Dpv1Answer(answer) => answer_length(answer),
        Content::ExtUserPrm => 0,
        Content::SetSlaveAdr(_) => 4,
        Content::RdInp => 0,
        Content::RdOutp => 0,
        Content::GlobalControl(_) => 2,
        Content::GetCfg => 0,
        Content::SlaveDiagCall => 0,
        Content::SlaveDiag(_) => 6,
        Content::SetPrm(fields) => parameters_length(fields),
        Content::ChkCfg => 0,
    }
}
