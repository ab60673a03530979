// The second line, which names the service and the way, and the lines of what the service holds.
use crate::configuration_lines::configuration_lines;
use crate::control_lines::{address_lines, command_lines};
use crate::diagnosis_lines::diagnosis_lines;
use crate::dpv1_lines::{answer_lines, call_lines};
use crate::field_lines::{count_line, number_line};
use crate::parameter_lines::parameter_lines;
use crate::text::text;
use content::Content;
use octets::{Mode, Refusal};
use service::Way;
use std::io;

fn service_name(rt: &impl Print, content: &Content) -> io::Result<()> {
    match content {
        Content::DataExchange => text(rt, b"Data_Exchange"),
        Content::Dpv1Call(_) | Content::Dpv1Answer(_) => text(rt, b"DPV1"),
        Content::ExtUserPrm => text(rt, b"Ext_User_Prm"),
        Content::SetSlaveAdr(_) => text(rt, b"Set_Slave_Adr"),
        Content::RdInp => text(rt, b"Rd_Inp"),
        Content::RdOutp => text(rt, b"Rd_Outp"),
        Content::GlobalControl(_) => text(rt, b"Global_Control"),
        Content::GetCfg => text(rt, b"Get_Cfg"),
        Content::SlaveDiagCall | Content::SlaveDiag(_) => text(rt, b"Slave_Diag"),
        Content::SetPrm(_) => text(rt, b"Set_Prm"),
        Content::ChkCfg => text(rt, b"Chk_Cfg"),
    }
}

fn service_line(rt: &impl Print, content: &Content, way: &Way) -> io::Result<()> {
    text(rt, b"service ")?;
    service_name(rt, content)?;
    match way {
        Way::Call => text(rt, b" call\n"),
        Way::Answer => text(rt, b" answer\n"),
    }
}

fn data_length(rt: &impl Print, data: &[u8]) -> io::Result<()> {
    count_line(rt, b"data length", data.len())
}

// Process data that are read back; the call has none.
fn read_back(rt: &impl Print, way: Way, data: &[u8]) -> io::Result<()> {
    match way {
        Way::Call => Ok(()),
        Way::Answer => data_length(rt, data),
    }
}

// The configuration that is read back; the call has none.
fn configuration_back(rt: &impl Print, way: Way, data: &[u8]) -> io::Result<()> {
    match way {
        Way::Call => Ok(()),
        Way::Answer => configuration_lines(rt, data),
    }
}

// What the fields leave of the user data is the part.
fn content_lines(
    rt: &impl Print,
    content: Content,
    way: Way,
    user: &[u8],
    part: &[u8],
) -> io::Result<()> {
    match content {
        Content::DataExchange | Content::ExtUserPrm => data_length(rt, part),
        Content::Dpv1Call(call) => call_lines(rt, call, part),
        Content::Dpv1Answer(answer) => answer_lines(rt, answer, part),
        Content::SetSlaveAdr(change) => address_lines(rt, change),
        Content::RdInp | Content::RdOutp => read_back(rt, way, part),
        Content::GlobalControl(command) => command_lines(rt, command),
        Content::GetCfg => configuration_back(rt, way, part),
        Content::SlaveDiagCall => Ok(()),
        Content::SlaveDiag(header) => diagnosis_lines(rt, header, user),
        Content::SetPrm(parameters) => parameter_lines(rt, parameters, part),
        Content::ChkCfg => configuration_lines(rt, part),
    }
}

// Nothing where the telegram carries no service.
fn refused_line(rt: &impl Print, refusal: Refusal) -> io::Result<()> {
    if refusal != Refusal::NoService {
        number_line(rt, b"service refused", refusal.number())?;
    }
    Ok(())
}

// The lines of the service that a telegram with these user data carries. Parameters are read as DPV1.
pub(crate) fn service_lines(rt: &impl Print, bytes: &[u8], user: &[u8]) -> io::Result<()> {
    match service_reader::read(bytes, Mode::Dpv1) {
        Ok(found) => {
            service_line(rt, &found.content, &found.way)?;
            let part = octets::part(bytes, found.start, found.len);
            content_lines(rt, found.content, found.way, user, part)
        }
        Err(refusal) => refused_line(rt, refusal),
    }
}
