// What finding a template in a book answers.

// A template: its slot, and its body as the len bytes from start, which `octets::part` hands back.
#[derive(Clone, Copy)]
pub struct Template {
    pub slot: u8,
    pub start: usize,
    pub len: usize,
}
