// What reading a service answers.
use content::Content;
use fdl::{Format, Header};

// From the master to the slave, or back.
#[derive(Clone, Copy)]
pub enum Way {
    Call,
    Answer,
}

// What bytes are. The part that the fields leave (process data, plain bytes, DPV1 data, a
// configuration, the blocks of a diagnosis, the user bytes of parameters) is the len bytes from start,
// which `octets::part` hands back.
#[derive(Clone, Copy)]
pub struct Reading {
    pub format: Format,
    pub header: Header,
    pub way: Way,
    pub content: Content,
    pub start: usize,
    pub len: usize,
}
