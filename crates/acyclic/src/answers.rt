// Answers: what a slave gives back.
use crate::numbers::Function;

// A read and a data transport have data, which are lent bytes; their count is the length byte. A
// negative answer says why a function was not performed.
#[derive(Clone, Copy)]
pub enum Answer {
    Read {
        slot: u8,
        index: u8,
    },
    Write {
        slot: u8,
        index: u8,
        length: u8,
    },
    AlarmAck {
        slot: u8,
        alarm: u8,
        specifier: u8,
    },
    Idle,
    Transport {
        slot: u8,
        index: u8,
    },
    Negative {
        function: Function,
        decode: u8,
        code1: u8,
        code2: u8,
    },
}
