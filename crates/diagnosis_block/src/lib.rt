// What stands at a place where a block of a diagnosis may begin (document 01, "Diagnosis"): reading and the
// walk find each block alike.
#![tactic(auto)]

ghost use Rattle.std.specs.Prelude.{◌≡◌, ◌+◌, ◌-◌, ◌<◌, length, get_or};
ghost use Rattle.octets.specs.Refusals.{told};
ghost use Rattle.diagnosis.specs.Block.{sized_of, device_of, channel_of, found_at};

use diagnosis::{CHANNEL_BLOCK, DEVICE_BLOCK, Extent, Kind, MODULE_BLOCK, good_code};
use octets::Refusal;

// A block whose header has its length.
#[tactic(auto, unfolding(diagnosis::specs::Block::sized_of))]
fn sized_at(kind: Kind, s: &[u8], at: usize) -> Result<Extent, Refusal>
    requires { at < length s.now }
    ensures { told result ≡ sized_of kind (get_or s.now at 0) (length s.now - at) }
{
    let len = (s[at] % 64) as usize;
    if len < 2 {
        return Err(Refusal::BlockHeader);
    }
    if s.len() - at < len {
        return Err(Refusal::PastTheData);
    }
    Ok(Extent { kind, len })
}

// The rule of a device block.
fn device_at(s: &[u8], at: usize) -> Result<Extent, Refusal>
    requires { at < length s.now }
    ensures { told result ≡ device_of (get_or s.now at 0) (length s.now - at) }
{
    sized_at(Kind::Device, s, at)
}

// A channel block: three bytes, of which the last two have codes.
#[tactic(auto, unfolding(diagnosis::specs::Block::channel_of))]
fn channel_at(s: &[u8], at: usize) -> Result<Extent, Refusal>
    requires { at < length s.now }
    ensures { told result ≡ channel_of (get_or s.now (at + 1) 0) (get_or s.now (at + 2) 0) (length s.now - at) }
{
    if s.len() - at < 3 {
        return Err(Refusal::PastTheData);
    }
    let second = s[at + 1];
    if second / 64 == 0 {
        return Err(Refusal::ChannelCode);
    }
    let third = s[at + 2];
    if !good_code(third / 32, third % 32) {
        return Err(Refusal::ChannelCode);
    }
    Ok(Extent {
        kind: Kind::Channel,
        len: 3,
    })
}

// The block at a place, by bits 7-6 of its header. A place past the end is refused as a header of 0 is: its
// length is below 2.
#[tactic(auto, unfolding(diagnosis::specs::Block::found_by, diagnosis::specs::Block::sized_of))]
pub fn found_at(s: &[u8], at: usize) -> Result<Extent, Refusal>
    ensures { told result ≡ found_at s.now at }
{
    if s.len() <= at {
        return Err(Refusal::BlockHeader);
    }
    let bits = s[at] / 64;
    match bits {
        DEVICE_BLOCK => device_at(s, at),
        MODULE_BLOCK => sized_at(Kind::Module, s, at),
        CHANNEL_BLOCK => channel_at(s, at),
        _ => Err(Refusal::BlockHeader),
    }
}
