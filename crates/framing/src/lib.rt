// Which fields a telegram may be written with (document 01, "Telegram layouts"), where its user data begin,
// and the telegrams without fields, token and short confirmation. The crate fdl_writer writes those with fields.
#![tactic(auto)]

ghost use Rattle.std.specs.Prelude.{◌≡◌, ◌+◌, length};
ghost use Rattle.octets.specs.Refusals.{told};
ghost use Rattle.octets.specs.Front.{fine, answer_by, held_by};
ghost use Rattle.function_code.specs.Code.{class_of};
ghost use Rattle.fdl.specs.Telegram.{sap_length};
ghost use Rattle.fdl.specs.Writing.{good_sap, good_header, good_length, start_bytes, user_start, token_bytes, token_verdict, confirmation_bytes};
ghost use Rattle.fdl.specs.Around.{good_fields};

use fdl::{Format, Header, Sap, sap_length};
use function_code::reserved;
use octets::Refusal;

fn good_sap(sap: Sap) -> bool
    ensures { result ≡ good_sap sap }
{
    match sap {
        None => true,
        Some(number) => number <= 63,
    }
}

fn good_header(header: Header) -> bool
    ensures { result ≡ good_header class_of header }
{
    if 127 < header.da {
        return false;
    }
    if 126 < header.sa {
        return false;
    }
    if reserved(header.fc) {
        return false;
    }
    let dsap = header.dsap;
    if !good_sap(dsap) {
        return false;
    }
    let ssap = header.ssap;
    good_sap(ssap)
}

fn good_length(format: Format, pdu: usize) -> bool
    ensures { result ≡ good_length format pdu }
{
    match format {
        Format::Sd1 => pdu == 0,
        Format::Sd2 => { if pdu == 0 { false } else { pdu <= 246 } }
        Format::Sd3 => pdu == 8,
    }
}

fn start_length(format: Format) -> usize
    ensures { result ≡ length (start_bytes format 0) }
{
    match format {
        Format::Sd1 => 1,
        Format::Sd2 => 4,
        Format::Sd3 => 1,
    }
}

// How many bytes of the PDU both access points take.
fn saps_length(header: Header) -> usize
    ensures { result ≡ sap_length header.dsap + sap_length header.ssap }
{
    let dsap = header.dsap;
    let ssap = header.ssap;
    sap_length(dsap) + sap_length(ssap)
}

// Whether these fields may be written with len bytes of user data. No PDU is longer than 246 bytes:
// that test keeps the sum within its bits.
pub fn writable(format: Format, header: Header, len: usize) -> bool
    ensures { result ≡ good_fields format header len }
{
    if !good_header(header) {
        return false;
    }
    if 246 < len {
        return false;
    }
    good_length(format, saps_length(header) + len)
}

// Whether these fields may be written with user data of fixed bytes and part more. No PDU is longer than 246
// bytes: both tests keep the sum within its bits.
pub fn writable_with(format: Format, header: Header, fixed: usize, part: usize) -> bool
    ensures { result ≡ good_fields format header (fixed + part) }
{
    if 246 < fixed {
        return false;
    }
    if 246 < part {
        return false;
    }
    writable(format, header, fixed + part)
}

// Where the user data of a telegram with these fields begin.
pub fn user_start(format: Format, header: Header) -> usize
    ensures { result ≡ user_start format header }
{
    start_length(format) + 3 + saps_length(header)
}

// Writes a token.
pub fn write_token(da: u8, sa: u8, out: &mut [u8]) -> Result<usize, Refusal>
    ensures answer { told result ≡ answer_by (token_verdict da sa) (token_bytes da sa) (length out.old) }
    ensures bytes { out.new ≡ held_by (token_verdict da sa) (token_bytes da sa) out.old }
{
    if 126 < da {
        return Err(Refusal::Field);
    }
    if 126 < sa {
        return Err(Refusal::Field);
    }
    if out.len() < 3 {
        return Err(Refusal::NoRoom);
    }
    out[0] = fdl::SD4;
    out[1] = da;
    out[2] = sa;
    Ok(3)
}

// Writes a short confirmation.
pub fn write_confirmation(out: &mut [u8]) -> Result<usize, Refusal>
    ensures answer { told result ≡ answer_by fine confirmation_bytes (length out.old) }
    ensures bytes { out.new ≡ held_by fine confirmation_bytes out.old }
{
    if out.len() < 1 {
        return Err(Refusal::NoRoom);
    }
    out[0] = fdl::SC;
    Ok(1)
}
