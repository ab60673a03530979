// Telegrams, also those of services, the data of services, template books, fields for the writers of both
// and whole downloads as hex text on standard input, and the answer to each as a line on standard output:
// an independent program answers the same text, and the two are compared.
#![tactic(auto)]

mod acyclic_line;
mod answer;
mod book_line;
mod configuration_line;
mod control_line;
mod diagnosis_line;
mod download_line;
mod line;
mod outcome;
mod parameters_line;
mod service_line;
mod subject;
mod text;
mod typed_line;

use std::io;
use std::io::Read;

// The input in parts, until it ends. A proved loop has to end, and nothing says that an input does. So
// the turns are counted, up to a number that no run uses up.
fn main(rt: HostRuntime) -> io::Result<()> {
    let mut input = rt.stdin();
    let mut part = [0u8; 65536];
    let mut bytes = [0u8; 4096];
    let mut out = [0u8; 4096];
    let mut line = line::start();
    for _ in 0..u64::MAX {
        let n = input.read(&mut part)?;
        if n == 0 {
            break;
        }
        line = line::after_part(&rt, line, &part[..n], &mut bytes, &mut out)?;
    }
    line::input_end(&rt, line)
}
