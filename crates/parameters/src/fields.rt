// The fields of parameters, and what each byte may hold.
ghost use Rattle.std.specs.Prelude.{◌≡◌};
ghost use Rattle.parameters.specs.Fields.{good_flags, good_response, good_status1, good_status2, good_status3, fixed_length};

use octets::Mode;

// A time counted in bits on the line. How long a bit takes is the line's speed to say, so this is
// no number of milliseconds, and the compiler takes neither for the other.
#[derive(Clone, Copy)]
pub struct BitTimes(pub u8);

#[derive(Clone, Copy)]
pub struct Milliseconds(pub u32);

// The three status bytes that DPV1 adds before the user bytes.
#[derive(Clone, Copy)]
pub enum Extension {
    Dpv0,
    Dpv1 {
        status1: u8,
        status2: u8,
        status3: u8,
    },
}

// The fixed bytes. The watchdog's two factors stay apart, since their product does not give them back.
#[derive(Clone, Copy)]
pub struct Parameters {
    pub flags: u8,
    pub factor1: u8,
    pub factor2: u8,
    pub response: BitTimes,
    pub ident: u16,
    pub groups: u8,
    pub extension: Extension,
}

// How many fixed bytes stand before the user bytes.
pub fn fixed_length(mode: Mode) -> usize
    ensures { result ≡ fixed_length mode }
{
    match mode {
        Mode::Dpv0 => 7,
        Mode::Dpv1 => 10,
    }
}

// Byte 1: bits 0 to 2 are 0.
pub fn good_flags(flags: u8) -> bool
    ensures { result ≡ good_flags flags }
{
    flags % 8 == 0
}

// Byte 4: a slave is given 11 bit times at least before it answers. (A byte is at most 255.)
pub fn good_response(response: BitTimes) -> bool
    ensures { result ≡ good_response response }
{
    11 <= response.0
}

// Byte 8: bits 0, 1, 3 and 4 are 0.
pub fn good_status1(status: u8) -> bool
    ensures { result ≡ good_status1 status }
{
    if status % 4 != 0 {
        return false;
    }
    status / 8 % 4 == 0
}

// Byte 9: bit 1 is 0.
pub fn good_status2(status: u8) -> bool
    ensures { result ≡ good_status2 status }
{
    status / 2 % 2 == 0
}

// Byte 10: bits 5 and 6 are 0.
pub fn good_status3(status: u8) -> bool
    ensures { result ≡ good_status3 status }
{
    status / 32 % 4 == 0
}
