// The text, byte by byte. A line that starts with # is a comment. A line of = and a letter says what
// the lines after it are to be read as; until then they are telegrams. A line of > and a letter says
// that they are fields for a writer. Every other line is the bytes of one such thing as two hex digits
// with single spaces between them; an empty line has no bytes.
use crate::answer;
use crate::subject::{Subject, answer_to, fields_of, subject_of};
use std::io;

// What a line has come to.
#[derive(Drop)]
enum Place {
    Start,
    Comment,
    // After =.
    Naming,
    // After >.
    NamingFields,
    // After the letter that follows it.
    Named,
    // After the space that follows a byte.
    Space,
    // After the first digit of a byte, which is this.
    Digit(u8),
    // After the second digit of a byte.
    Byte,
    Malformed,
}

// A line as far as it has come. The first count bytes of a buffer beside it are those that it has
// given.
#[derive(Drop)]
pub(crate) struct Line {
    place: Place,
    subject: Subject,
    count: usize,
}

// What a byte's second digit leads to.
#[derive(Drop)]
struct Digits {
    place: Place,
    count: usize,
}

fn start_of(subject: Subject) -> Line {
    Line {
        place: Place::Start,
        subject,
        count: 0,
    }
}

pub(crate) fn start() -> Line {
    start_of(Subject::Telegram)
}

// The number that a hex digit stands for.
fn hex_of(byte: u8) -> Option<u8> {
    match byte {
        b'0'..=b'9' => Some(byte - b'0'),
        b'A'..=b'F' => Some(byte - b'A' + 10),
        b'a'..=b'f' => Some(byte - b'a' + 10),
        _ => None,
    }
}

fn first_digit(byte: u8) -> Place {
    match hex_of(byte) {
        Some(high) => Place::Digit(high),
        None => Place::Malformed,
    }
}

// Bytes past the end of the buffer are dropped. That changes no answer: a reading of a telegram
// depends on the first 256 bytes alone (theorem first_256_bytes of the crate fdl), no data of a service
// has more than 244, no book more than 3,233, a download has at most 518 before its book, and the buffer
// has 4,096.
fn second_digit(high: u8, byte: u8, count: usize, bytes: &mut [u8]) -> Digits {
    let Some(low) = hex_of(byte) else {
        return Digits {
            place: Place::Malformed,
            count,
        };
    };
    if bytes.len() <= count {
        return Digits {
            place: Place::Byte,
            count,
        };
    }
    bytes[count] = (high << 4) | low;
    Digits {
        place: Place::Byte,
        count: count + 1,
    }
}

fn after_start(byte: u8) -> Place {
    if byte == b'#' {
        return Place::Comment;
    }
    if byte == b'=' {
        return Place::Naming;
    }
    if byte == b'>' {
        return Place::NamingFields;
    }
    first_digit(byte)
}

fn after_byte(byte: u8) -> Place {
    if byte == b' ' {
        Place::Space
    } else {
        Place::Malformed
    }
}

// After the letter that names what follows. A letter that names nothing leaves the subject as it was.
fn after_letter(named: Option<Subject>, subject: Subject) -> Line {
    match named {
        Some(subject) => Line {
            place: Place::Named,
            subject,
            count: 0,
        },
        None => Line {
            place: Place::Malformed,
            subject,
            count: 0,
        },
    }
}

// The end of a line.
fn end(
    rt: &impl Print,
    place: Place,
    subject: Subject,
    bytes: &[u8],
    out: &mut [u8],
) -> io::Result<()> {
    match place {
        Place::Start | Place::Byte => answer_to(rt, subject, bytes, out),
        Place::Comment | Place::Named => Ok(()),
        _ => answer::malformed(rt),
    }
}

// The line after one more byte of text. Writing goes to out.
fn after(
    rt: &impl Print,
    line: Line,
    byte: u8,
    bytes: &mut [u8],
    out: &mut [u8],
) -> io::Result<Line> {
    let place = line.place;
    let subject = line.subject;
    let count = line.count;
    if byte == b'\n' {
        end(rt, place, subject, octets::part(bytes, 0, count), out)?;
        return Ok(start_of(subject));
    }
    let next = match place {
        Place::Start => after_start(byte),
        Place::Comment => Place::Comment,
        Place::Naming => return Ok(after_letter(subject_of(byte), subject)),
        Place::NamingFields => return Ok(after_letter(fields_of(byte), subject)),
        Place::Space => first_digit(byte),
        Place::Digit(high) => {
            let digits = second_digit(high, byte, count, bytes);
            let place = digits.place;
            return Ok(Line {
                place,
                subject,
                count: digits.count,
            });
        }
        Place::Byte => after_byte(byte),
        Place::Named | Place::Malformed => Place::Malformed,
    };
    Ok(Line {
        place: next,
        subject,
        count,
    })
}

// The line after a part of the text.
pub(crate) fn after_part(
    rt: &impl Print,
    line: Line,
    part: &[u8],
    bytes: &mut [u8],
    out: &mut [u8],
) -> io::Result<Line> {
    let mut now = line;
    for byte in part {
        now = after(rt, now, *byte, bytes, out)?;
    }
    Ok(now)
}

// The end of the text: every line ends before it.
pub(crate) fn input_end(rt: &impl Print, line: Line) -> io::Result<()> {
    let place = line.place;
    match place {
        Place::Start => Ok(()),
        _ => answer::malformed(rt),
    }
}
