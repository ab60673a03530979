// What the walk over the blocks of a diagnosis answers. A position is a place in the bytes, and the parts of
// a block are places too.

// The fields of a channel block.
#[derive(Clone, Copy)]
pub struct Channel {
    // 0 to 63
    pub module: u8,
    // 1 input, 2 output, 3 both
    pub direction: u8,
    // 0 to 63
    pub channel: u8,
    // the channel type: 1 bit, 2 two bits, 3 four bits, 4 byte, 5 word, 6 two words
    pub kind: u8,
    // the error type: 1 to 9, or the maker's own from 16 to 31
    pub error: u8,
}

// A block. The bytes after a header that has a length are the len bytes from start, which
// `octets::part` hands back.
#[derive(Clone, Copy)]
pub enum Block {
    Device {
        start: usize,
        len: usize,
    },
    // The bytes are a map of modules, of which `set` report.
    Module {
        start: usize,
        len: usize,
        set: usize,
        lowest: Option<usize>,
    },
    Channel(Channel),
}

// Where a block begins, or the blocks end.
#[derive(Clone, Copy)]
pub struct Position {
    pub at: usize,
}

// What the walk finds at a position: a block and the position behind it, or the end.
#[derive(Drop)]
pub enum Step {
    Block(Block, Position),
    End,
}
