// The call of Chk_Cfg and the answer of Get_Cfg: the totals, and a line for each module.
ghost use Rattle.std.specs.Prelude.{◌<◌};

use crate::text::{decimal, line_end, text};
use std::io;

// A module's bytes on one side: where they begin, and where the next module's do.
#[derive(Drop)]
struct Span {
    begin: u16,
    end: u16,
}

fn total_line(rt: &impl Print, modules: usize, inputs: usize, outputs: usize) -> io::Result<()> {
    decimal(rt, modules)?;
    text(rt, b" modules, ")?;
    decimal(rt, inputs)?;
    text(rt, b" in, ")?;
    decimal(rt, outputs)?;
    text(rt, b" out\n")
}

// Offsets never fall, so nothing wraps.
fn side_words(rt: &impl Print, span: Span, name: &[u8]) -> io::Result<()> {
    let count = span.end.wrapping_sub(span.begin);
    text(rt, b", ")?;
    decimal(rt, count as usize)?;
    text(rt, name)?;
    decimal(rt, span.begin as usize)
}

fn module_line(rt: &impl Print, number: usize, inputs: Span, outputs: Span) -> io::Result<()> {
    text(rt, b"module ")?;
    decimal(rt, number)?;
    side_words(rt, inputs, b" in at ")?;
    side_words(rt, outputs, b" out at ")?;
    line_end(rt)
}

fn span_at(offsets: &[u16; 256], i: usize) -> Span
    requires { i < 255 }
{
    Span {
        begin: offsets[i],
        end: offsets[i + 1],
    }
}

// The library stores the offsets of the modules, fewer than a telegram has bytes. Behind them the
// lists keep the totals, where the last module ends. A module lies between two places of each list, so the loop goes by places.
fn module_lines(
    rt: &impl Print,
    bytes: &[u8],
    modules: usize,
    inputs: u16,
    outputs: u16,
) -> io::Result<()> {
    let mut input_offsets = [inputs; 256];
    let mut output_offsets = [outputs; 256];
    let _ = configuration_reader::offsets(bytes, &mut input_offsets, &mut output_offsets);
    for i in 0..255 {
        if i == modules {
            return Ok(());
        }
        module_line(
            rt,
            i + 1,
            span_at(&input_offsets, i),
            span_at(&output_offsets, i),
        )?;
    }
    Ok(())
}

// Nothing where the bytes are no configuration.
#[tactic(auto, unfolding(configuration::specs::Reading::read_of, configuration::specs::Reading::within_limit))]
pub(crate) fn configuration_lines(rt: &impl Print, bytes: &[u8]) -> io::Result<()> {
    let Ok(found) = configuration_reader::read(bytes) else {
        return Ok(());
    };
    total_line(rt, found.modules, found.inputs, found.outputs)?;
    module_lines(
        rt,
        bytes,
        found.modules,
        found.inputs as u16,
        found.outputs as u16,
    )
}
