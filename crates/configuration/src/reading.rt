// What reading a whole configuration answers.

// What a configuration has: its number of modules, and of input and output bytes.
#[derive(Clone, Copy)]
pub struct Reading {
    pub modules: usize,
    pub inputs: usize,
    pub outputs: usize,
}
