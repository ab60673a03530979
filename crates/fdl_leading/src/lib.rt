// What the bytes in front of DA say: the start byte, and the length bytes of SD2, each refused by a return of its own.
#![tactic(auto)]

ghost use Rattle.std.specs.Prelude.{◌≡◌};
ghost use Rattle.octets.specs.Refusals.{told};
ghost use Rattle.fdl_leading.specs.Leading.{sd2_leading, leading_of};

use fdl::Format;
use octets::Refusal;

// What is left to judge. Its parts are bytes, which the compiler keeps in registers: a place or a length would be stored
// with the answer and loaded again.
#[derive(Drop)]
pub enum Leading {
    Framed { format: Format, pdu: u8 },
    Token,
    Confirmation,
}

// The four leading bytes of SD2.
fn sd2(s: &[u8]) -> Result<Leading, Refusal>
    ensures { told result ≡ sd2_leading s.now }
{
    if s.len() < 4 {
        return Err(Refusal::EndsEarly);
    }
    let le = s[1];
    if le < 4 {
        return Err(Refusal::LengthBytes);
    }
    if 249 < le {
        return Err(Refusal::LengthBytes);
    }
    if s[2] != le {
        return Err(Refusal::LengthBytes);
    }
    if s[3] != fdl::SD2 {
        return Err(Refusal::LengthBytes);
    }
    Ok(Leading::Framed {
        format: Format::Sd2,
        pdu: le - 3,
    })
}

// What the bytes in front of DA say.
pub fn leading_bytes(s: &[u8]) -> Result<Leading, Refusal>
    ensures { told result ≡ leading_of s.now }
{
    if s.len() == 0 {
        return Err(Refusal::EndsEarly);
    }
    let start = s[0];
    match start {
        fdl::SD1 => Ok(Leading::Framed {
            format: Format::Sd1,
            pdu: 0,
        }),
        fdl::SD2 => sd2(s),
        fdl::SD3 => Ok(Leading::Framed {
            format: Format::Sd3,
            pdu: 8,
        }),
        fdl::SD4 => Ok(Leading::Token),
        fdl::SC => {
            if s.len() == 1 {
                Ok(Leading::Confirmation)
            } else {
                Err(Refusal::BytesFollow)
            }
        }
        _ => Err(Refusal::NoStartByte),
    }
}
