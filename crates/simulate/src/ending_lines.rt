// The lines behind the last sending: the ending, and the slots that are new.
use crate::sending_line::codes;
use crate::text::{decimal, decimal8, text};
use octets::Refusal;
use protocol::Ending;
use std::io;

fn at_template(rt: &impl Print, words: &[u8], template: u8) -> io::Result<()> {
    text(rt, words)?;
    decimal8(rt, template)
}

fn ending_words(rt: &impl Print, ending: Ending) -> io::Result<()> {
    match ending {
        Ending::Done => text(rt, b"done"),
        Ending::NoOpening => text(rt, b"no opening"),
        Ending::NoAnswer { template } => at_template(rt, b"no answer at ", template),
        Ending::NotReady { template } => at_template(rt, b"not ready at ", template),
        Ending::Refused {
            template,
            code1,
            code2,
        } => {
            at_template(rt, b"refused at ", template)?;
            codes(rt, code1, code2)
        }
        Ending::Strange { template } => at_template(rt, b"strange reply at ", template),
    }
}

fn slot_line(rt: &impl Print, slot: u8, length: u8) -> io::Result<()> {
    text(rt, b"new slot ")?;
    decimal8(rt, slot)?;
    text(rt, b" length ")?;
    decimal8(rt, length)?;
    text(rt, b"\n")
}

// Every slot was empty before: one that is new has a length.
fn slot_lines(rt: &impl Print, lengths: &[u8; 16]) -> io::Result<()> {
    for (slot, &length) in (0..16).zip(lengths) {
        if 0 < length {
            slot_line(rt, slot, length)?;
        }
    }
    Ok(())
}

pub(crate) fn ending_lines(
    rt: &impl Print,
    ending: Ending,
    sent: u16,
    lengths: &[u8; 16],
) -> io::Result<()> {
    ending_words(rt, ending)?;
    text(rt, b" after ")?;
    decimal(rt, sent)?;
    text(rt, b" sendings\n")?;
    slot_lines(rt, lengths)
}

pub(crate) fn refused_line(rt: &impl Print, refusal: Refusal) -> io::Result<()> {
    text(rt, b"refused ")?;
    decimal8(rt, refusal.number())?;
    text(rt, b"\n")
}
