// Function numbers, and the functions whose answers can be negative.

// The first byte of calls and positive answers.
pub const READ: u8 = 0x5E;

pub const WRITE: u8 = 0x5F;

pub const ALARM_ACK: u8 = 0x5C;

pub const IDLE: u8 = 0x48;

pub const TRANSPORT: u8 = 0x51;

// A negative answer has its function's number plus this.
const NEGATIVE: u8 = 0x80;

pub const NEGATIVE_READ: u8 = NEGATIVE + READ;

pub const NEGATIVE_WRITE: u8 = NEGATIVE + WRITE;

pub const NEGATIVE_ALARM_ACK: u8 = NEGATIVE + ALARM_ACK;

pub const NEGATIVE_TRANSPORT: u8 = NEGATIVE + TRANSPORT;

// The functions that have a negative answer.
#[derive(Clone, Copy)]
pub enum Function {
    Read,
    Write,
    AlarmAck,
    Transport,
}
