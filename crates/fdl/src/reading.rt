// What reading a telegram answers.
use crate::telegram::{Format, Header, Sap};
use function_code::Class;

// What bytes are. The user data of a telegram are the len bytes from start, which `octets::part`
// hands back.
#[derive(Drop)]
pub enum Reading {
    Confirmation,
    Token {
        da: u8,
        sa: u8,
    },
    Telegram {
        format: Format,
        header: Header,
        start: usize,
        len: usize,
    },
}

// A reading, with the class of a telegram's function code. Reading has to look it up, to refuse what is reserved; who
// goes on by the class has it from here, and looks nothing up again.
#[derive(Drop)]
pub enum Classed {
    Confirmation,
    Token {
        da: u8,
        sa: u8,
    },
    Telegram {
        format: Format,
        header: Header,
        start: usize,
        len: usize,
        class: Class,
    },
}
