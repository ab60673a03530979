// What user data are, by their service and their way.
ghost use Rattle.std.specs.Prelude.{◌≡◌, length};
ghost use Rattle.octets.specs.Refusals.{told};
ghost use Rattle.content.specs.Reading.{plain_of, empty_of, address_of, command_of, diagnosis_of, parameters_of, configuration_of, dpv1_call_of, dpv1_answer_of, call_of, answer_of};

use access::{Answering, Service};
use content::Content;
use octets::{Mode, Read, Refusal};

// Plain bytes and process data: at most 244.
fn read_plain(content: Content, user: &[u8]) -> Result<Read<Content>, Refusal>
    ensures { told result ≡ plain_of content (length user.now) }
{
    let len = user.len();
    if 244 < len {
        return Err(Refusal::DataLength);
    }
    Ok(Read {
        fields: content,
        start: 0,
        len,
    })
}

// A call that has no data.
fn read_empty(content: Content, user: &[u8]) -> Result<Read<Content>, Refusal>
    ensures { told result ≡ empty_of content (length user.now) }
{
    let len = user.len();
    if 0 < len {
        return Err(Refusal::DataLength);
    }
    Ok(Read {
        fields: content,
        start: 0,
        len,
    })
}

fn read_address(user: &[u8]) -> Result<Read<Content>, Refusal>
    ensures { told result ≡ address_of user.now }
{
    let read = address_change::read_address_change(user)?;
    Ok(read.with(Content::SetSlaveAdr(read.fields)))
}

fn read_command(user: &[u8]) -> Result<Read<Content>, Refusal>
    ensures { told result ≡ command_of user.now }
{
    let read = control::read_global_command(user)?;
    Ok(read.with(Content::GlobalControl(read.fields)))
}

// The blocks stand behind the six bytes of the header.
fn read_diagnosis(user: &[u8]) -> Result<Read<Content>, Refusal>
    ensures { told result ≡ diagnosis_of user.now }
{
    let diagnosis = diagnosis_reader::read(user)?;
    Ok(Read {
        fields: Content::SlaveDiag(diagnosis.header),
        start: 6,
        len: user.len() - 6,
    })
}

fn read_parameters(user: &[u8], mode: Mode) -> Result<Read<Content>, Refusal>
    ensures { told result ≡ parameters_of user.now mode }
{
    let read = parameters_reader::read(user, mode)?;
    Ok(read.with(Content::SetPrm(read.fields)))
}

// A configuration is all of its bytes: its modules are walked over there.
fn read_configuration(content: Content, user: &[u8]) -> Result<Read<Content>, Refusal>
    ensures { told result ≡ configuration_of content user.now }
{
    configuration_reader::read(user)?;
    Ok(Read {
        fields: content,
        start: 0,
        len: user.len(),
    })
}

fn read_dpv1_call(user: &[u8]) -> Result<Read<Content>, Refusal>
    ensures { told result ≡ dpv1_call_of user.now }
{
    let read = acyclic_reader::read_call(user)?;
    Ok(read.with(Content::Dpv1Call(read.fields)))
}

fn read_dpv1_answer(user: &[u8]) -> Result<Read<Content>, Refusal>
    ensures { told result ≡ dpv1_answer_of user.now }
{
    let read = acyclic_reader::read_answer(user)?;
    Ok(read.with(Content::Dpv1Answer(read.fields)))
}

// Reads the user data of a call.
pub fn read_call(service: Service, user: &[u8], mode: Mode) -> Result<Read<Content>, Refusal>
    ensures { told result ≡ call_of service user.now mode }
{
    match service {
        Service::DataExchange => read_plain(Content::DataExchange, user),
        Service::Dpv1 => read_dpv1_call(user),
        Service::ExtUserPrm => read_plain(Content::ExtUserPrm, user),
        Service::SetSlaveAdr => read_address(user),
        Service::RdInp => read_empty(Content::RdInp, user),
        Service::RdOutp => read_empty(Content::RdOutp, user),
        Service::GlobalControl => read_command(user),
        Service::GetCfg => read_empty(Content::GetCfg, user),
        Service::SlaveDiag => read_empty(Content::SlaveDiagCall, user),
        Service::SetPrm => read_parameters(user, mode),
        Service::ChkCfg => read_configuration(Content::ChkCfg, user),
    }
}

// Reads the user data of an answer.
pub fn read_answer(answering: Answering, user: &[u8]) -> Result<Read<Content>, Refusal>
    ensures { told result ≡ answer_of answering user.now }
{
    match answering {
        Answering::DataExchange => read_plain(Content::DataExchange, user),
        Answering::Dpv1 => read_dpv1_answer(user),
        Answering::RdInp => read_plain(Content::RdInp, user),
        Answering::RdOutp => read_plain(Content::RdOutp, user),
        Answering::GetCfg => read_configuration(Content::GetCfg, user),
        Answering::SlaveDiag => read_diagnosis(user),
    }
}
