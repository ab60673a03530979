// A service's own fields, and which content such fields name.
#![tactic(auto)]

ghost use Rattle.std.specs.Prelude.{◌≡◌, ◌∷◌};
ghost use Rattle.octets.specs.Places.{places_of};
ghost use Rattle.function_code.specs.Code.{class_of};
ghost use Rattle.parameters.specs.Writing.{status_bytes};
ghost use Rattle.acyclic_fields.specs.Four.{four_bytes};
ghost use Rattle.service_fields.specs.Service.{own_bytes, own_fields, is_answer, right_way, named_by, dpv1_in, diagnosis_in, extension_in, parameters_in, unlisted_by, content_in};

use access::{
    CHK_CFG, DATA_EXCHANGE, DPV1, EXT_USER_PRM, GET_CFG, GLOBAL_CONTROL, RD_INP, RD_OUTP, SET_PRM,
    SET_SLAVE_ADR, SLAVE_DIAG,
};
use acyclic_fields::{Case, Four, answer_four, answer_named, call_four, call_named};
use address_change::AddressChange;
use content::Content;
use control::GlobalCommand;
use diagnosis::Header;
use function_code::Class;
use parameters::{BitTimes, Extension, Parameters};

// A service's number and its own ten fields, in their order.
#[derive(Drop)]
pub struct Own(
    pub u8,
    pub u8,
    pub u8,
    pub u8,
    pub u8,
    pub u8,
    pub u8,
    pub u8,
    pub u8,
    pub u8,
    pub u8,
);

// The fields of a service that has at most four.
fn led(service: u8, four: Four) -> Own
    ensures { own_bytes result ≡ service ∷ places_of 10 (four_bytes four) }
{
    Own(service, four.0, four.1, four.2, four.3, 0, 0, 0, 0, 0, 0)
}

// The three bytes that DPV1 adds to parameters.
fn status_four(extension: Extension) -> Four
    ensures { four_bytes result ≡ places_of 4 (status_bytes extension) }
{
    match extension {
        Extension::Dpv0 => Four(0, 0, 0, 0),
        Extension::Dpv1 {
            status1,
            status2,
            status3,
        } => Four(status1, status2, status3, 0),
    }
}

fn parameters_own(fields: Parameters) -> Own
    ensures { own_bytes result ≡ own_fields (Content.SetPrm fields) }
{
    let response = fields.response;
    let ident = fields.ident;
    let extension = fields.extension;
    let status = status_four(extension);
    Own(
        SET_PRM,
        fields.flags,
        fields.factor1,
        fields.factor2,
        response.0,
        (ident / 256 % 256) as u8,
        (ident % 256) as u8,
        fields.groups,
        status.0,
        status.1,
        status.2,
    )
}

fn diagnosis_own(header: Header) -> Own
    ensures { own_bytes result ≡ own_fields (Content.SlaveDiag header) }
{
    let ident = header.ident;
    Own(
        SLAVE_DIAG,
        header.status1,
        header.status2,
        header.status3,
        header.master,
        (ident / 256 % 256) as u8,
        (ident % 256) as u8,
        0,
        0,
        0,
        0,
    )
}

// A content's service and its own fields.
pub fn own_of(content: Content) -> Own
    ensures { own_bytes result ≡ own_fields content }
{
    match content {
        Content::DataExchange => led(DATA_EXCHANGE, Four(0, 0, 0, 0)),
        Content::Dpv1Call(call) => led(DPV1, call_four(call)),
        Content::Dpv1Answer(answer) => led(DPV1, answer_four(answer)),
        Content::ExtUserPrm => led(EXT_USER_PRM, Four(0, 0, 0, 0)),
        Content::SetSlaveAdr(change) => {
            let ident = change.ident;
            let four = Four(
                change.address,
                (ident / 256 % 256) as u8,
                (ident % 256) as u8,
                change.locked,
            );
            led(SET_SLAVE_ADR, four)
        }
        Content::RdInp => led(RD_INP, Four(0, 0, 0, 0)),
        Content::RdOutp => led(RD_OUTP, Four(0, 0, 0, 0)),
        Content::GlobalControl(command) => led(
            GLOBAL_CONTROL,
            Four(command.command, command.groups, 0, 0),
        ),
        Content::GetCfg => led(GET_CFG, Four(0, 0, 0, 0)),
        Content::SlaveDiagCall => led(SLAVE_DIAG, Four(0, 0, 0, 0)),
        Content::SlaveDiag(header) => diagnosis_own(header),
        Content::SetPrm(parameters) => parameters_own(parameters),
        Content::ChkCfg => led(CHK_CFG, Four(0, 0, 0, 0)),
    }
}

// What fields that are to be written name: a content; a DPV1 number that the way does not have; a slave's access
// point that the list lacks; or a number that no access point has.
#[derive(Drop)]
pub enum Named {
    Content(Content),
    Reserved,
    Unlisted,
    Nothing,
}

// A function code of an answer; any other counts as a call's.
fn is_answer(fc: u8) -> bool
    ensures { result ≡ is_answer (class_of fc) }
{
    let class = function_code::class_of(fc);
    match class {
        Class::Opening => false,
        Class::Counted => false,
        Class::Uncounted => false,
        Class::Bare => true,
        Class::Data => true,
        Class::Reserved => false,
    }
}

// Whether the way that the fields give is the function code's.
pub fn right_way(fields: &[u8; 18]) -> bool
    ensures { result ≡ right_way fields.now }
{
    if is_answer(fields[5]) {
        return fields[1] == 1;
    }
    fields[1] == 0
}

fn named_by(case: Option<Case>) -> Named
    ensures { result ≡ named_by case }
{
    match case {
        Some(Case::Call(call)) => Named::Content(Content::Dpv1Call(call)),
        Some(Case::Answer(answer)) => Named::Content(Content::Dpv1Answer(answer)),
        None => Named::Reserved,
    }
}

// The way decides which DPV1 numbers there are.
fn dpv1_in(fields: &[u8; 18]) -> Named
    ensures { result ≡ dpv1_in fields.now }
{
    if is_answer(fields[5]) {
        return named_by(answer_named(fields[8], fields[9], fields[10], fields[11]));
    }
    named_by(call_named(fields[8], fields[9], fields[10], fields[11]))
}

// A call of Slave_Diag has no fields.
fn diagnosis_in(fields: &[u8; 18]) -> Content
    ensures { result ≡ diagnosis_in fields.now }
{
    if !is_answer(fields[5]) {
        return Content::SlaveDiagCall;
    }
    Content::SlaveDiag(Header {
        status1: fields[8],
        status2: fields[9],
        status3: fields[10],
        master: fields[11],
        ident: octets::join16(fields[12], fields[13]),
    })
}

// Only DPV1 has the three status bytes.
fn extension_in(version: u8, status1: u8, status2: u8, status3: u8) -> Extension
    ensures { result ≡ extension_in version status1 status2 status3 }
{
    if version == 0 {
        return Extension::Dpv0;
    }
    Extension::Dpv1 {
        status1,
        status2,
        status3,
    }
}

fn parameters_in(fields: &[u8; 18], version: u8) -> Parameters
    ensures { result ≡ parameters_in fields.now version }
{
    let response = BitTimes(fields[11]);
    let extension = extension_in(version, fields[15], fields[16], fields[17]);
    Parameters {
        flags: fields[8],
        factor1: fields[9],
        factor2: fields[10],
        response,
        ident: octets::join16(fields[12], fields[13]),
        groups: fields[14],
        extension,
    }
}

// A number that is no service's. Access points are 0 to 63.
fn unlisted_by(service: u8) -> Named
    ensures { result ≡ unlisted_by service }
{
    if 63 < service {
        return Named::Nothing;
    }
    Named::Unlisted
}

// What the service's number and its own fields name. Fields that the service does not have are not
// looked at.
pub fn content_in(fields: &[u8; 18], version: u8) -> Named
    ensures { result ≡ content_in fields.now version }
{
    let service = fields[0];
    match service {
        DATA_EXCHANGE => Named::Content(Content::DataExchange),
        DPV1 => dpv1_in(fields),
        EXT_USER_PRM => Named::Content(Content::ExtUserPrm),
        SET_SLAVE_ADR => Named::Content(Content::SetSlaveAdr(AddressChange {
            address: fields[8],
            ident: octets::join16(fields[9], fields[10]),
            locked: fields[11],
        })),
        RD_INP => Named::Content(Content::RdInp),
        RD_OUTP => Named::Content(Content::RdOutp),
        GLOBAL_CONTROL => Named::Content(Content::GlobalControl(GlobalCommand {
            command: fields[8],
            groups: fields[9],
        })),
        GET_CFG => Named::Content(Content::GetCfg),
        SLAVE_DIAG => Named::Content(diagnosis_in(fields)),
        SET_PRM => Named::Content(Content::SetPrm(parameters_in(fields, version))),
        CHK_CFG => Named::Content(Content::ChkCfg),
        _ => unlisted_by(service),
    }
}
