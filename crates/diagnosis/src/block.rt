// What stands where a block begins: which kind of block, and how long.
ghost use Rattle.std.specs.Prelude.{◌≡◌};
ghost use Rattle.diagnosis.specs.Block.{good_code};

// Bits 7-6 of a block's header, by its kind.
pub const DEVICE_BLOCK: u8 = 0;

pub const MODULE_BLOCK: u8 = 1;

pub const CHANNEL_BLOCK: u8 = 2;

// The kinds of block.
#[derive(Clone, Copy)]
pub enum Kind {
    Device,
    Module,
    Channel,
}

// What the walk over the blocks needs of one: len counts the header.
#[derive(Clone, Copy)]
pub struct Extent {
    pub kind: Kind,
    pub len: usize,
}

// Whether the codes of a channel block's third byte, its channel type and its error, are in use.
#[tactic(auto, unfolding(crate::specs::Block::good_code))]
pub fn good_code(kind: u8, error: u8) -> bool
    ensures { result ≡ good_code kind error }
{
    if kind < 1 {
        return false;
    }
    if 6 < kind {
        return false;
    }
    if error < 1 {
        return false;
    }
    if error <= 9 {
        return true;
    }
    if error < 16 {
        return false;
    }
    error <= 31
}
