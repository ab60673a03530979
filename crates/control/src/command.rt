// Global_Control: a command to groups of slaves.
ghost use Rattle.std.specs.Prelude.{◌≡◌, ◌≤◌, length};
ghost use Rattle.octets.specs.Refusals.{told};
ghost use Rattle.octets.specs.Front.{AtFront, answer_by, held_by};
ghost use Rattle.control.specs.Command.{good_command, read_of, fixed_bytes, bytes_for, verdict_for};

use octets::{Read, Refusal};

// The command's bits: 1 clear data, 2 unfreeze, 3 freeze, 4 unsync, 5 sync. Bit k of groups names
// group k + 1.
#[derive(Clone, Copy)]
pub struct GlobalCommand {
    pub command: u8,
    pub groups: u8,
}

// Bits 0, 6 and 7 of the command are 0.
fn good_command(command: u8) -> bool
    ensures { result ≡ good_command command }
{
    if command % 2 != 0 {
        return false;
    }
    command / 64 == 0
}

// Reads a global command: all of the lent slice is one. By document 01 nothing follows the two fixed bytes.
#[tactic(auto, unfolding(crate::specs::Command::verdict_of, crate::specs::Command::read_of))]
pub fn read_global_command(bytes: &[u8]) -> Result<Read<GlobalCommand>, Refusal>
    ensures { told result ≡ read_of bytes.now }
{
    if bytes.len() != 2 {
        return Err(Refusal::DataLength);
    }
    let command = bytes[0];
    if !good_command(command) {
        return Err(Refusal::DataByte);
    }
    let fields = GlobalCommand {
        command,
        groups: bytes[1],
    };
    Ok(Read {
        fields,
        start: 2,
        len: bytes.len() - 2,
    })
}

// Stores the two fixed bytes.
fn put(fields: GlobalCommand, out: &mut [u8]) -> usize
    requires { 2 ≤ length out.old }
    ensures { AtFront (fixed_bytes fields) out.old out.new result }
{
    out[0] = fields.command;
    out[1] = fields.groups;
    2
}

// Writes a global command from its fields and what follows them.
#[tactic(auto, unfolding(crate::specs::Command::verdict_of, octets::specs::Front::answer_by, octets::specs::Front::held_by))]
pub fn write_global_command(
    fields: GlobalCommand,
    rest: &[u8],
    out: &mut [u8],
) -> Result<usize, Refusal>
    ensures answer { told result ≡ answer_by (verdict_for fields rest.now) (bytes_for fields rest.now) (length out.old) }
    ensures bytes { out.new ≡ held_by (verdict_for fields rest.now) (bytes_for fields rest.now) out.old }
{
    let size = 2 + rest.len();
    if size != 2 {
        return Err(Refusal::DataLength);
    }
    if !good_command(fields.command) {
        return Err(Refusal::DataByte);
    }
    if out.len() < size {
        return Err(Refusal::NoRoom);
    }
    let n = put(fields, out);
    Ok(octets::store_behind(n, rest, out))
}
