// What a walk over the modules goes by, and what it finds.
use crate::fields::Module;

// Where a module begins.
#[derive(Clone, Copy)]
pub struct Position {
    pub at: usize,
}

// What stands at a position. The vendor bytes of a module are the len bytes from start, which
// `octets::part` hands back; the general format has none.
#[derive(Drop)]
pub enum Step {
    Module {
        module: Module,
        start: usize,
        len: usize,
        next: Position,
    },
    End,
}
