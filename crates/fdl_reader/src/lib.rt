// Reading a telegram: each byte that can be refused has its own answer, in document 01's order. `access_point` and
// `token` answer at one place, and not by returns: so the compiler keeps what they answer in registers.
#![tactic(auto)]

ghost use Rattle.std.specs.Prelude.{◌≡◌, ◌+◌, ◌≤◌, length};
ghost use Rattle.octets.specs.Refusals.{told};
ghost use Rattle.function_code.specs.Code.{class_of, is_reserved};
ghost use Rattle.fdl.specs.Reading.{extension_of, source_of, destination_of, fields_of, framed_of, token_of, read_of, with_class, classed_by, classed_of};
ghost use Rattle.fdl_leading.specs.Leading.{place_of};

use fdl::{Classed, Format, Header, Reading, Sap, checksum, sap_length};
use fdl_leading::Leading;
use function_code::{Class, class_of};
use octets::Refusal;

// The access point that belongs to an address byte, of a PDU of which len bytes from start are left.
#[tactic(auto, unfolding(fdl::specs::Reading::extension_of))]
fn access_point(s: &[u8], address: u8, start: usize, len: usize) -> Result<Sap, Refusal>
    requires { start + len ≤ length s.now }
    ensures { told result ≡ extension_of s.now address start len }
{
    if address < 128 {
        Ok(None)
    } else if len == 0 {
        Err(Refusal::AddressExtension)
    } else {
        let sap = s[start];
        if 63 < sap {
            Err(Refusal::AddressExtension)
        } else {
            Ok(Some(sap))
        }
    }
}

// SA's access point: the last byte that can be refused.
#[tactic(auto, unfolding(fdl::specs::Reading::source_of))]
fn source(
    s: &[u8],
    format: Format,
    at: usize,
    class: Class,
    dsap: Sap,
    start: usize,
    len: usize,
) -> Result<Classed, Refusal>
    requires { (at + 3 ≤ start) × (start + len + 2 ≡ length s.now) }
    ensures { told result ≡ with_class class (source_of s.now format at dsap start len) }
{
    let da = s[at];
    let sa = s[at + 1];
    let fc = s[at + 2];
    let ssap = access_point(s, sa, start, len)?;
    let n = sap_length(ssap);
    let header = Header {
        da: da % 128,
        sa: sa % 128,
        fc,
        dsap,
        ssap,
    };
    Ok(Classed::Telegram {
        format,
        header,
        start: start + n,
        len: len - n,
        class,
    })
}

// DA's access point.
#[tactic(auto, unfolding(fdl::specs::Reading::destination_of))]
fn destination(
    s: &[u8],
    format: Format,
    at: usize,
    class: Class,
    pdu: usize,
) -> Result<Classed, Refusal>
    requires { at + pdu + 5 ≡ length s.now }
    ensures { told result ≡ with_class class (destination_of s.now format at pdu) }
{
    let da = s[at];
    let dsap = access_point(s, da, at + 3, pdu)?;
    let n = sap_length(dsap);
    source(s, format, at, class, dsap, at + 3 + n, pdu - n)
}

// SA's range and the function code, whose class is looked up here and nowhere else. (DA's seven bits are all in range.)
#[tactic(auto, unfolding(fdl::specs::Reading::fields_of))]
fn fields(s: &[u8], format: Format, at: usize, pdu: usize) -> Result<Classed, Refusal>
    requires { at + pdu + 5 ≡ length s.now }
    ensures { told result ≡ classed_by class_of (fields_of class_of s.now format at pdu) }
{
    let sa = s[at + 1];
    if sa % 128 == 127 {
        return Err(Refusal::Address);
    }
    let fc = s[at + 2];
    let class = class_of(fc);
    if class == Class::Reserved {
        return Err(Refusal::FunctionCode);
    }
    destination(s, format, at, class, pdu)
}

// Length, end byte and checksum of a telegram whose DA stands at `at` and whose PDU has pdu bytes.
#[tactic(auto, unfolding(fdl::specs::Reading::framed_of))]
fn framed(s: &[u8], format: Format, at: usize, pdu: usize) -> Result<Classed, Refusal>
    requires { (at ≤ 4) × (pdu ≤ 246) }
    ensures { told result ≡ classed_by class_of (framed_of class_of s.now format at pdu) }
{
    let total = at + pdu + 5;
    if s.len() < total {
        return Err(Refusal::EndsEarly);
    }
    if total < s.len() {
        return Err(Refusal::BytesFollow);
    }
    if s[at + pdu + 4] != 0x16 {
        return Err(Refusal::EndByte);
    }
    let sum = checksum(&s[at..at + pdu + 3]);
    if s[at + pdu + 3] != sum {
        return Err(Refusal::Checksum);
    }
    fields(s, format, at, pdu)
}

// A token's addresses, bit 7 counted.
#[tactic(auto, unfolding(fdl::specs::Reading::token_of))]
fn token(s: &[u8]) -> Result<Classed, Refusal>
    ensures { told result ≡ classed_by class_of (token_of s.now) }
{
    if s.len() < 3 {
        Err(Refusal::EndsEarly)
    } else if 3 < s.len() {
        Err(Refusal::BytesFollow)
    } else {
        let da = s[1];
        let sa = s[2];
        if 126 < da {
            Err(Refusal::Address)
        } else if 126 < sa {
            Err(Refusal::Address)
        } else {
            Ok(Classed::Token { da, sa })
        }
    }
}

// Where DA stands.
fn place_of(format: Format) -> usize
    ensures { result ≡ place_of format }
{
    match format {
        Format::Sd1 => 1,
        Format::Sd2 => 4,
        Format::Sd3 => 1,
    }
}

// Reads a telegram, with the class of its function code: all of the lent slice is one. The frame is looked at in one
// place, for all formats: called once, it is compiled into this function, and its answer is not copied.
pub fn read_classed(bytes: &[u8]) -> Result<Classed, Refusal>
    ensures { told result ≡ classed_of bytes.now }
{
    let leading = fdl_leading::leading_bytes(bytes)?;
    match leading {
        Leading::Framed { format, pdu } => framed(bytes, format, place_of(format), pdu as usize),
        Leading::Token => token(bytes),
        Leading::Confirmation => Ok(Classed::Confirmation),
    }
}

// Reads a telegram, for who has no use for its class.
pub fn read(bytes: &[u8]) -> Result<Reading, Refusal>
    ensures { told result ≡ read_of bytes.now }
{
    let classed = read_classed(bytes)?;
    match classed {
        Classed::Confirmation => Ok(Reading::Confirmation),
        Classed::Token { da, sa } => Ok(Reading::Token { da, sa }),
        Classed::Telegram {
            format,
            header,
            start,
            len,
            class: _,
        } => Ok(Reading::Telegram {
            format,
            header,
            start,
            len,
        }),
    }
}
