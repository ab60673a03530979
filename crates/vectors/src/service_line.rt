// The answer to a whole telegram that carries a service: its name and its way, the kind of the telegram
// with DA, SA and FC, the service's fields, and where the part that they leave stands.
use crate::acyclic_line::{answer_words, call_words};
use crate::answer::{head_fields, kind_of};
use crate::control_line::{change_words, command_words};
use crate::diagnosis_line::header_words;
use crate::outcome::{again, refused};
use crate::parameters_line::parameter_words;
use crate::text::{place, text};
use content::Content;
use octets::Mode;
use service::{Reading, Way};
use std::io;

fn name_word(rt: &impl Print, content: &Content) -> io::Result<()> {
    match content {
        Content::DataExchange => text(rt, b" data_exchange"),
        Content::Dpv1Call(_) | Content::Dpv1Answer(_) => text(rt, b" dpv1"),
        Content::ExtUserPrm => text(rt, b" ext_user_prm"),
        Content::SetSlaveAdr(_) => text(rt, b" set_slave_adr"),
        Content::RdInp => text(rt, b" rd_inp"),
        Content::RdOutp => text(rt, b" rd_outp"),
        Content::GlobalControl(_) => text(rt, b" global_control"),
        Content::GetCfg => text(rt, b" get_cfg"),
        Content::SlaveDiagCall | Content::SlaveDiag(_) => text(rt, b" slave_diag"),
        Content::SetPrm(_) => text(rt, b" set_prm"),
        Content::ChkCfg => text(rt, b" chk_cfg"),
    }
}

fn way_word(rt: &impl Print, way: Way) -> io::Result<()> {
    match way {
        Way::Call => text(rt, b" call"),
        Way::Answer => text(rt, b" answer"),
    }
}

fn content_words(rt: &impl Print, content: &Content) -> io::Result<()> {
    match content {
        Content::Dpv1Call(call) => call_words(rt, call),
        Content::Dpv1Answer(answer) => answer_words(rt, answer),
        Content::SetSlaveAdr(change) => change_words(rt, change),
        Content::GlobalControl(command) => command_words(rt, command),
        Content::SlaveDiag(header) => header_words(rt, *header),
        Content::SetPrm(fields) => parameter_words(rt, *fields),
        Content::DataExchange
        | Content::ExtUserPrm
        | Content::RdInp
        | Content::RdOutp
        | Content::GetCfg
        | Content::SlaveDiagCall
        | Content::ChkCfg => Ok(()),
    }
}

// What writing makes of the service that was read, with this part.
fn written_again(rt: &impl Print, found: Reading, part: &[u8], out: &mut [u8]) -> io::Result<()> {
    let header = found.header;
    let written = service_writer::write(
        found.format,
        header.da,
        header.sa,
        header.fc,
        found.content,
        part,
        out,
    );
    again(rt, written, out)
}

pub(crate) fn service_line(
    rt: &impl Print,
    bytes: &[u8],
    mode: Mode,
    out: &mut [u8],
) -> io::Result<()> {
    match service_reader::read(bytes, mode) {
        Err(refusal) => refused(rt, refusal)?,
        Ok(found) => {
            text(rt, b"0")?;
            name_word(rt, &found.content)?;
            way_word(rt, found.way)?;
            head_fields(rt, kind_of(found.format), found.header)?;
            content_words(rt, &found.content)?;
            place(rt, found.start, found.len)?;
            written_again(rt, found, octets::part(bytes, found.start, found.len), out)?;
        }
    }
    text(rt, b"\n")
}
