// Calls: what a master asks of a slave.

// A write and a data transport have data, which are lent bytes; their count is the length byte.
#[derive(Clone, Copy)]
pub enum Call {
    Poll,
    Read { slot: u8, index: u8, length: u8 },
    Write { slot: u8, index: u8 },
    AlarmAck { slot: u8, alarm: u8, specifier: u8 },
    Idle,
    Transport { slot: u8, index: u8 },
}
