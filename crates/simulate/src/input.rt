// The layout of standard input (docs/SIMULATE.md): where each part of it stands.
use octets::join16;
use protocol::Settings;

// The book stands at BOOK_START, the line's entries at line_start, and the "not yet" numbers are the rest.
#[derive(Drop)]
pub(crate) struct Parts {
    pub(crate) settings: Settings,
    pub(crate) boarding: u8,
    pub(crate) book_len: usize,
    pub(crate) line_start: usize,
    pub(crate) line_len: usize,
    pub(crate) rest_start: usize,
    pub(crate) rest_len: usize,
}

pub(crate) const BOOK_START: usize = 7;

// Where the parts stand, or None where the input ends before the last entry of the line.
pub(crate) fn laid_out(input: &[u8]) -> Option<Parts> {
    if input.len() < BOOK_START {
        return None;
    }
    let book_len = join16(input[5], input[6]) as usize;
    let line_start = BOOK_START + book_len + 2;
    if input.len() < line_start {
        return None;
    }
    let line_len = join16(input[line_start - 2], input[line_start - 1]) as usize;
    let rest_start = line_start + line_len;
    if input.len() < rest_start {
        return None;
    }
    let settings = Settings {
        printer: input[0],
        controller: input[1],
        repeats: input[2],
        polls: input[3],
    };
    Some(Parts {
        settings,
        boarding: input[4],
        book_len,
        line_start,
        line_len,
        rest_start,
        rest_len: input.len() - rest_start,
    })
}
