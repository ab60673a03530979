// The walk over the blocks of a diagnosis, one block at a time. All that it looks at stays in the lent
// bytes: a position is a place in them, and the parts of a block are places too.
#![tactic(auto)]

ghost use Rattle.std.specs.Prelude.{◌≡◌, ◌+◌, ◌≤◌, ◌<◌, length, get_or};
ghost use Rattle.octets.specs.Refusals.{told};
ghost use Rattle.diagnosis.specs.Block.{found_at};
ghost use Rattle.diagnosis.specs.Walk.{position, fields_of, block_of, next_of};

mod map;

use diagnosis::{Block, Channel, Extent, Kind, Position, Step};
use diagnosis_block::found_at;
use map::{lowest_module, set_bits};
use octets::Refusal;

// The position of the first block, behind the header.
pub fn first() -> Position
    ensures { result ≡ position 6 }
{
    Position { at: 6 }
}

fn fields_at(s: &[u8], at: usize) -> Channel
    requires { at + 3 ≤ length s.now }
    ensures { result ≡ fields_of (get_or s.now at 0) (get_or s.now (at + 1) 0) (get_or s.now (at + 2) 0) }
{
    Channel {
        module: s[at] % 64,
        direction: s[at + 1] / 64,
        channel: s[at + 1] % 64,
        kind: s[at + 2] / 32,
        error: s[at + 2] % 32,
    }
}

// What the block at a place says, where one was found.
fn block_at(s: &[u8], at: usize, extent: Extent) -> Block
    requires { (at < length s.now) × (found_at s.now at ≡ Ok extent) }
    ensures { result ≡ block_of s.now at extent }
{
    let kind = extent.kind;
    let len = extent.len;
    match kind {
        Kind::Device => Block::Device {
            start: at + 1,
            len: len - 1,
        },
        Kind::Module => {
            let map = &s[at + 1..at + len];
            let set = set_bits(map);
            let lowest = lowest_module(map);
            Block::Module {
                start: at + 1,
                len: len - 1,
                set,
                lowest,
            }
        }
        Kind::Channel => Block::Channel(fields_at(s, at)),
    }
}

// One step of the walk, from any position over any bytes.
#[tactic(auto, using(diagnosis::proofs::Lemmas::Found::within_at), unfolding(diagnosis::specs::Walk::next_of))]
pub fn next(bytes: &[u8], position: Position) -> Result<Step, Refusal>
    ensures { told result ≡ next_of bytes.now position.at }
{
    let at = position.at;
    if at < 6 {
        return Err(Refusal::Field);
    }
    if bytes.len() < at {
        return Err(Refusal::Field);
    }
    // With `<=`, not `==`, the compiler sees that found_at's own test never refuses here, and drops it.
    if bytes.len() <= at {
        return Ok(Step::End);
    }
    let extent = found_at(bytes, at)?;
    let block = block_at(bytes, at, extent);
    Ok(Step::Block(
        block,
        Position {
            at: at + extent.len,
        },
    ))
}
