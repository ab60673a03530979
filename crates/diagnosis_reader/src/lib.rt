// Reading a diagnosis: each byte that can be refused has its own return, in document 01's order.
#![tactic(auto)]

ghost use Rattle.std.specs.Prelude.{◌≡◌, ◌≤◌, length, drop};
ghost use Rattle.octets.specs.Refusals.{told};
ghost use Rattle.diagnosis.specs.Reading.{good_status1, good_status2, good_status3, good_master, ext_diag_agrees, count_of, agreed, judge, header_of, read_of};

use diagnosis::{Header, Reading};
use diagnosis_block::found_at;
use octets::Refusal;

// Bits 0, 5 and 7 are 0.
#[tactic(auto, unfolding(diagnosis::specs::Reading::good_status1))]
fn good_status1(status: u8) -> bool
    ensures { result ≡ good_status1 status }
{
    if status % 2 != 0 {
        return false;
    }
    if status / 32 % 2 != 0 {
        return false;
    }
    status / 128 == 0
}

// Bit 2 is 1; bits 6 and 7 are 0.
#[tactic(auto, unfolding(diagnosis::specs::Reading::good_status2))]
fn good_status2(status: u8) -> bool
    ensures { result ≡ good_status2 status }
{
    if status / 4 % 2 != 1 {
        return false;
    }
    status / 64 == 0
}

// Bits 0 to 6 are 0.
fn good_status3(status: u8) -> bool
    ensures { result ≡ good_status3 status }
{
    status % 128 == 0
}

// An address, or none.
#[tactic(auto, unfolding(diagnosis::specs::Reading::good_master))]
fn good_master(master: u8) -> bool
    ensures { result ≡ good_master master }
{
    if master <= 125 {
        return true;
    }
    master == 255
}

// Whether Ext_Diag, bit 3 of status 1, agrees with the number of blocks.
#[tactic(auto, unfolding(diagnosis::specs::Reading::ext_diag_agrees))]
fn ext_diag_agrees(status1: u8, blocks: usize) -> bool
    ensures { result ≡ ext_diag_agrees status1 blocks }
{
    let flag = status1 / 8 % 2;
    if blocks == 0 {
        return flag == 0;
    }
    flag == 1
}

// Walks over the blocks of s from a place on: they end where s ends.
fn count_from(s: &[u8], from: usize) -> Result<usize, Refusal>
    requires { from ≤ length s.now }
    ensures { told result ≡ count_of (drop from s.now) }
{
    let mut at = from;
    let mut blocks: usize = 0;
    while at < s.len() {
        at += found_at(s, at)?.len;
        blocks += 1;
    }
    Ok(blocks)
}

// The same, where the number of blocks must agree with Ext_Diag.
fn agreeing_from(status1: u8, s: &[u8], from: usize) -> Result<usize, Refusal>
    requires { from ≤ length s.now }
    ensures { told result ≡ agreed status1 (count_of (drop from s.now)) }
{
    let blocks = count_from(s, from)?;
    if !ext_diag_agrees(status1, blocks) {
        return Err(Refusal::ExtDiag);
    }
    Ok(blocks)
}

// What a header with the bytes of s from a place on behind it is.
#[tactic(auto, unfolding(diagnosis::specs::Reading::judge))]
fn judged(header: Header, s: &[u8], from: usize) -> Result<usize, Refusal>
    requires { from ≤ length s.now }
    ensures { told result ≡ judge header (drop from s.now) }
{
    if 238 < s.len() - from {
        return Err(Refusal::DataLength);
    }
    if !good_status1(header.status1) {
        return Err(Refusal::DataByte);
    }
    if !good_status2(header.status2) {
        return Err(Refusal::DataByte);
    }
    if !good_status3(header.status3) {
        return Err(Refusal::DataByte);
    }
    if !good_master(header.master) {
        return Err(Refusal::DataByte);
    }
    agreeing_from(header.status1, s, from)
}

// How many blocks stand behind a header, or why the two are no diagnosis: reading and writing judge alike.
pub fn blocks_behind(header: Header, blocks: &[u8]) -> Result<usize, Refusal>
    ensures { told result ≡ judge header blocks.now }
{
    judged(header, blocks, 0)
}

fn header_of(bytes: &[u8]) -> Header
    requires { 6 ≤ length bytes.now }
    ensures { result ≡ header_of bytes.now }
{
    Header {
        status1: bytes[0],
        status2: bytes[1],
        status3: bytes[2],
        master: bytes[3],
        ident: octets::join16(bytes[4], bytes[5]),
    }
}

// Reads a diagnosis: all of the lent slice is one.
#[tactic(auto, unfolding(diagnosis::specs::Reading::read_of))]
pub fn read(bytes: &[u8]) -> Result<Reading, Refusal>
    ensures { told result ≡ read_of bytes.now }
{
    if bytes.len() < 6 {
        return Err(Refusal::DataLength);
    }
    let header = header_of(bytes);
    let blocks = judged(header, bytes, 6)?;
    Ok(Reading { header, blocks })
}
