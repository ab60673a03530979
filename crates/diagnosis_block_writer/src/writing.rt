// Writing one block at the front of a lent slice.
ghost use Rattle.std.specs.Prelude.{◌≡◌, ◌∷◌, ◌+◌, ◌≤◌, length};
ghost use Rattle.octets.specs.Refusals.{told};
ghost use Rattle.octets.specs.Front.{AtFront, answer_by, held_by};
ghost use Rattle.diagnosis.specs.Writing.{sized_verdict, device_bytes, device_verdict, module_bytes, module_verdict, fits, channel_bytes, channel_verdict};

use diagnosis::good_code;
use octets::Refusal;

// The headers of the three kinds, without what stands below bits 7-6.
const DEVICE: u8 = 64 * diagnosis::DEVICE_BLOCK;

const MODULE: u8 = 64 * diagnosis::MODULE_BLOCK;

const CHANNEL: u8 = 64 * diagnosis::CHANNEL_BLOCK;

fn put_block(head: u8, bytes: &[u8], out: &mut [u8]) -> usize
    requires { length (head ∷ bytes.now) ≤ length out.old }
    ensures { AtFront (head ∷ bytes.now) out.old out.new result }
{
    out[0] = head;
    octets::store_behind(1, bytes, out)
}

// Writes a block whose header has its length, with the bits 7-6 that kind has.
#[tactic(auto, unfolding(diagnosis::specs::Writing::sized_verdict, octets::specs::Front::answer_by, octets::specs::Front::held_by))]
fn write_sized(kind: u8, bytes: &[u8], out: &mut [u8]) -> Result<usize, Refusal>
    requires { kind ≤ 64 }
    ensures answer { told result ≡ answer_by (sized_verdict bytes.now) ((kind + (length bytes.now + 1)) ∷ bytes.now) (length out.old) }
    ensures bytes { out.new ≡ held_by (sized_verdict bytes.now) ((kind + (length bytes.now + 1)) ∷ bytes.now) out.old }
{
    let len = bytes.len() + 1;
    if len < 2 {
        return Err(Refusal::BlockHeader);
    }
    if 63 < len {
        return Err(Refusal::DataByte);
    }
    if out.len() < len {
        return Err(Refusal::NoRoom);
    }
    Ok(put_block(kind + len as u8, bytes, out))
}

// Writes a device block from the bytes after its header.
pub fn write_device(bytes: &[u8], out: &mut [u8]) -> Result<usize, Refusal>
    ensures answer { told result ≡ answer_by (device_verdict bytes.now) (device_bytes bytes.now) (length out.old) }
    ensures bytes { out.new ≡ held_by (device_verdict bytes.now) (device_bytes bytes.now) out.old }
{
    write_sized(DEVICE, bytes, out)
}

// Writes a module block from its map.
pub fn write_module(map: &[u8], out: &mut [u8]) -> Result<usize, Refusal>
    ensures answer { told result ≡ answer_by (module_verdict map.now) (module_bytes map.now) (length out.old) }
    ensures bytes { out.new ≡ held_by (module_verdict map.now) (module_bytes map.now) out.old }
{
    write_sized(MODULE, map, out)
}

// Whether two fields fit one byte: the high one goes up to top, the low one to bottom.
fn fits_byte(high: u8, top: u8, low: u8, bottom: u8) -> bool
    ensures { result ≡ fits high top low bottom }
{
    high <= top && low <= bottom
}

// Writes a channel block: of each byte the fields must fit, and then its codes be in use.
#[tactic(auto, unfolding(diagnosis::specs::Writing::channel_verdict, octets::specs::Front::answer_by, octets::specs::Front::held_by))]
pub fn write_channel(channel: diagnosis::Channel, out: &mut [u8]) -> Result<usize, Refusal>
    ensures answer { told result ≡ answer_by (channel_verdict channel) (channel_bytes channel) (length out.old) }
    ensures bytes { out.new ≡ held_by (channel_verdict channel) (channel_bytes channel) out.old }
{
    if 63 < channel.module {
        return Err(Refusal::DataByte);
    }
    if !fits_byte(channel.direction, 3, channel.channel, 63) {
        return Err(Refusal::DataByte);
    }
    if channel.direction == 0 {
        return Err(Refusal::ChannelCode);
    }
    if !fits_byte(channel.kind, 7, channel.error, 31) {
        return Err(Refusal::DataByte);
    }
    if !good_code(channel.kind, channel.error) {
        return Err(Refusal::ChannelCode);
    }
    if out.len() < 3 {
        return Err(Refusal::NoRoom);
    }
    out[0] = CHANNEL + channel.module;
    out[1] = channel.direction * 64 + channel.channel;
    out[2] = channel.kind * 32 + channel.error;
    Ok(3)
}
