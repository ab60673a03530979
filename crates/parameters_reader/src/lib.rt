// Reading parameters: each byte that can be refused has its own return, in document 01's order.
#![tactic(auto)]

ghost use Rattle.std.specs.Prelude.{◌≡◌, ◌≤◌, length};
ghost use Rattle.octets.specs.Refusals.{told};
ghost use Rattle.parameters.specs.Reading.{answer_in, extension_of, read_of};

use octets::{Mode, Read, Refusal};
use parameters::{
    BitTimes, Extension, Parameters, fixed_length, good_flags, good_response, good_status1,
    good_status2, good_status3,
};

// The answer when no byte is left to refuse: the user bytes begin at start.
fn answer(bytes: &[u8], extension: Extension, start: usize) -> Result<Read<Parameters>, Refusal>
    requires { (7 ≤ start) × (start ≤ length bytes.now) }
    ensures { told result ≡ answer_in bytes.now extension start }
{
    let response = BitTimes(bytes[3]);
    let fields = Parameters {
        flags: bytes[0],
        factor1: bytes[1],
        factor2: bytes[2],
        response,
        ident: octets::join16(bytes[4], bytes[5]),
        groups: bytes[6],
        extension,
    };
    Ok(Read {
        fields,
        start,
        len: bytes.len() - start,
    })
}

// The status bytes of DPV1.
#[tactic(auto, unfolding(parameters::specs::Fields::extension_verdict, parameters::specs::Reading::extension_of))]
fn dpv1(bytes: &[u8]) -> Result<Read<Parameters>, Refusal>
    requires { 10 ≤ length bytes.now }
    ensures { told result ≡ extension_of bytes.now Mode.Dpv1 }
{
    let status1 = bytes[7];
    if !good_status1(status1) {
        return Err(Refusal::DataByte);
    }
    let status2 = bytes[8];
    if !good_status2(status2) {
        return Err(Refusal::DataByte);
    }
    let status3 = bytes[9];
    if !good_status3(status3) {
        return Err(Refusal::DataByte);
    }
    let extension = Extension::Dpv1 {
        status1,
        status2,
        status3,
    };
    answer(bytes, extension, 10)
}

// Reads parameters: all of the lent slice, in the version that the caller speaks.
#[tactic(auto, unfolding(parameters::specs::Fields::extension_verdict, parameters::specs::Fields::verdict_of, parameters::specs::Reading::extension_of, parameters::specs::Reading::read_of))]
pub fn read(bytes: &[u8], mode: Mode) -> Result<Read<Parameters>, Refusal>
    ensures { told result ≡ read_of bytes.now mode }
{
    if bytes.len() < fixed_length(mode) {
        return Err(Refusal::DataLength);
    }
    if 244 < bytes.len() {
        return Err(Refusal::DataLength);
    }
    if !good_flags(bytes[0]) {
        return Err(Refusal::DataByte);
    }
    if !good_response(BitTimes(bytes[3])) {
        return Err(Refusal::DataByte);
    }
    match mode {
        Mode::Dpv0 => answer(bytes, Extension::Dpv0, 7),
        Mode::Dpv1 => dpv1(bytes),
    }
}
