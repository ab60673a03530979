// The fields of a telegram, and its checksum.
ghost use Rattle.std.specs.Prelude.{◌≡◌};
ghost use Rattle.fdl.specs.Telegram.{sap_length, checksum_of};

// The start bytes: of the three formats with fields, of a token, and the short confirmation.
pub const SD1: u8 = 0x10;

pub const SD2: u8 = 0x68;

pub const SD3: u8 = 0xA2;

pub const SD4: u8 = 0xDC;

pub const SC: u8 = 0xE5;

// The start byte's format of a telegram with fields.
#[derive(Clone, Copy, PartialEq, Eq)]
pub enum Format {
    Sd1,
    Sd2,
    Sd3,
}

// A service access point (SAP), where the address has the bit that says that one follows.
pub type Sap = Option<u8>;

// Addresses are the low seven bits; bit 7 is the presence of the access point.
#[derive(Clone, Copy)]
pub struct Header {
    pub da: u8,
    pub sa: u8,
    pub fc: u8,
    pub dsap: Sap,
    pub ssap: Sap,
}

// How many bytes of the PDU an access point takes.
pub fn sap_length(sap: Sap) -> usize
    ensures { result ≡ sap_length sap }
{
    match sap {
        None => 0,
        Some(_) => 1,
    }
}

// The checksum of DA to the last byte of the PDU.
pub fn checksum(part: &[u8]) -> u8
    ensures { result ≡ checksum_of part.now }
{
    let mut sum: u8 = 0;
    for &byte in part {
        sum = sum.wrapping_add(byte);
    }
    sum
}
