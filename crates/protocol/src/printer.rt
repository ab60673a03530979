// The printer's end: what it remembers between two telegrams, and what its step answers.

// The result of a write: positive with the call's slot number, index and length, or negative with
// both error codes.
#[derive(Clone, Copy)]
pub enum Outcome {
    Positive { slot: u8, index: u8, length: u8 },
    Negative { code1: u8, code2: u8 },
}

// A result that no poll has fetched yet, and how many polls get "not yet" before it.
#[derive(Clone, Copy)]
pub enum Pending {
    Nothing,
    Result { outcome: Outcome, wait: u8 },
}

// The printer's own address; whether boarding is on; FCB and SA of the last opening or new call (a
// fresh printer has SA 255, which no call has); how many bytes at the front of the lent reply buffer
// are the held reply, 0 for none; the pending result; how many writes were performed since the
// opening call, at most 255.
#[derive(Clone, Copy)]
pub struct Printer {
    pub address: u8,
    pub boarding: bool,
    pub fcb: bool,
    pub sa: u8,
    pub held: u8,
    pub pending: Pending,
    pub writes: u8,
}

// What the printer makes of a telegram: its next state, and how many bytes of the reply buffer are its reply, 0 for none.
#[derive(Clone, Copy)]
pub struct Reaction {
    pub printer: Printer,
    pub reply: u8,
}
