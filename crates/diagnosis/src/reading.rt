// What reading a diagnosis answers.

// The six bytes that every diagnosis has. The master is its address, 255 for none.
#[derive(Clone, Copy)]
pub struct Header {
    pub status1: u8,
    pub status2: u8,
    pub status3: u8,
    pub master: u8,
    pub ident: u16,
}

// A diagnosis: its header, and how many blocks are behind it, from byte 6 to the end.
#[derive(Clone, Copy)]
pub struct Reading {
    pub header: Header,
    pub blocks: usize,
}
