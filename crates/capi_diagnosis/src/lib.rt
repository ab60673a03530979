// Diagnosis through the C interface: its header, and its blocks one at a time.
#![tactic(auto)]

ghost use Rattle.std.specs.Prelude.{◌≡◌};
ghost use Rattle.diagnosis.specs.Map.{lowest_number};
ghost use Rattle.diagnosis.specs.Reading.{read_of};
ghost use Rattle.diagnosis.specs.Walk.{next_of};
ghost use Rattle.capi_diagnosis.specs.Diagnosis.{refusal_of, fields_after, block_numbers, step_refusal, block_after, position_after};

use diagnosis::{Block, Position, Reading, Step};

// Reads a diagnosis into its fields.
#[unsafe(no_mangle)]
pub extern "C" fn rabtunex_read_diagnosis(bytes: &[u8], fields: &mut [usize; 6]) -> u8
    ensures refusal { result ≡ refusal_of (read_of bytes.now) }
    ensures fields { fields.new ≡ fields_after (read_of bytes.now) fields.old }
{
    match diagnosis_reader::read(bytes) {
        Ok(Reading { header, blocks }) => {
            *fields = [
                header.status1 as usize,
                header.status2 as usize,
                header.status3 as usize,
                header.master as usize,
                header.ident as usize,
                blocks,
            ];
            0
        }
        Err(refusal) => refusal.number(),
    }
}

// No module has the number that stands for none: the longest map has the modules 0 to 495.
fn lowest_number(lowest: Option<usize>) -> usize
    ensures { result ≡ lowest_number lowest }
{
    match lowest {
        Some(number) => number,
        None => 65535,
    }
}

// Stores the kind of a block and what it says.
fn put_block(found: Block, block: &mut [usize; 6])
    ensures { block.new ≡ block_numbers found }
{
    match found {
        Block::Device { start, len } => {
            *block = [1, start, len, 0, 0, 0];
        }
        Block::Module {
            start,
            len,
            set,
            lowest,
        } => {
            *block = [2, start, len, set, lowest_number(lowest), 0];
        }
        Block::Channel(channel) => {
            *block = [
                3,
                channel.module as usize,
                channel.direction as usize,
                channel.channel as usize,
                channel.kind as usize,
                channel.error as usize,
            ];
        }
    }
}

// Reads the block at a position, and moves the position behind it.
#[unsafe(no_mangle)]
pub extern "C" fn rabtunex_next_block(
    bytes: &[u8],
    position: &mut usize,
    block: &mut [usize; 6],
) -> u8
    ensures refusal { result ≡ step_refusal (next_of bytes.now position.old) }
    ensures position { position.new ≡ position_after (next_of bytes.now position.old) position.old }
    ensures block { block.new ≡ block_after (next_of bytes.now position.old) block.old }
{
    let at = *position;
    let step = match diagnosis_walk::next(bytes, Position { at }) {
        Ok(step) => step,
        Err(refusal) => return refusal.number(),
    };
    match step {
        Step::Block(found, next) => {
            put_block(found, block);
            *position = next.at;
        }
        Step::End => {
            *block = [0, 0, 0, 0, 0, 0];
        }
    }
    0
}
