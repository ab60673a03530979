// One telegram in words: its raw bytes come on standard input, and the lines that say what they are go
// to standard output, as docs/SHOW.md has them. What the bytes mean is the library's; here is only how
// it is said.
#![tactic(auto)]

mod configuration_lines;
mod control_lines;
mod diagnosis_lines;
mod dpv1_lines;
mod error_words;
mod field_lines;
mod parameter_lines;
mod service_lines;
mod telegram_line;
mod text;

ghost use Rattle.std.specs.Prelude.{◌≤◌, length, IfOk};

use crate::service_lines::service_lines;
use crate::telegram_line::{confirmation_line, refused_line, telegram_line, token_line};
use fdl::Reading;
use std::io;
use std::io::Read;

// The lines for these bytes.
fn lines(rt: &impl Print, bytes: &[u8]) -> io::Result<()> {
    let reading = match fdl_reader::read(bytes) {
        Ok(reading) => reading,
        Err(refusal) => return refused_line(rt, refusal),
    };
    match reading {
        Reading::Confirmation => confirmation_line(rt),
        Reading::Token { da, sa } => token_line(rt, da, sa),
        Reading::Telegram {
            format,
            header,
            start,
            len,
        } => {
            let user = octets::part(bytes, start, len);
            telegram_line(rt, format, header, user)?;
            service_lines(rt, bytes, user)
        }
    }
}

// Reads until buf is full or the input ends, and answers how many bytes it put in front.
fn read_full(input: &mut impl Read, buf: &mut [u8]) -> io::Result<usize>
    ensures { IfOk result (λ n. n ≤ length buf.new) }
{
    let mut done = 0;
    while done < buf.len() {
        match input.read(&mut buf[done..])? {
            0 => break,
            n => done += n,
        }
    }
    Ok(done)
}

// A reading depends on the first 256 bytes alone (theorem first_256_bytes of the crate fdl), so no
// more are read, however many come.
fn main(rt: HostRuntime) -> io::Result<()> {
    let mut buffer = [0u8; 256];
    let n = read_full(&mut rt.stdin(), &mut buffer)?;
    lines(&rt, &buffer[..n])
}
