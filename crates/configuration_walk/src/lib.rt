// A walk over the modules of PROFIBUS DP configuration data, one at a time.
#![tactic(auto)]

ghost use Rattle.std.specs.Prelude.{◌≡◌, ◌+◌, ◌≤◌, ◌<◌, length, get_or, drop};
ghost use Rattle.octets.specs.Refusals.{told};
ghost use Rattle.configuration.specs.Fields.{side_if, general_of, length_byte};
ghost use Rattle.configuration.specs.Walk.{first_position, step_of, special_in, next_of};

use configuration::{Identifier, Module, Position, Side, Step};
use octets::Refusal;

// The side that byte x describes, with its number of units, where a bit says that the module has it.
fn side_if(bit: u8, units: u8, x: u8) -> Side
    ensures { result ≡ side_if bit units x }
{
    if bit == 1 {
        return Side::Present {
            units,
            words: x / 64 % 2 == 1,
            consistent: x / 128 % 2 == 1,
        };
    }
    Side::Absent
}

// The general format: one byte says all.
#[tactic(auto, unfolding(configuration::specs::Fields::general_of))]
fn general(x: u8) -> Module
    ensures { result ≡ general_of x }
{
    let units = x % 16 + 1;
    let input = side_if(x / 16 % 2, units, x);
    let output = side_if(x / 32 % 2, units, x);
    Module {
        identifier: Identifier::General,
        input,
        output,
    }
}

// The side of the length byte at a place, where a bit says that there is one.
fn length_byte(s: &[u8], at: usize, bit: u8) -> Side
    requires { at + bit ≤ length s.now }
    ensures { result ≡ length_byte bit (get_or s.now at 0) }
{
    if bit == 0 {
        return Side::Absent;
    }
    let y = s[at];
    side_if(bit, y % 64 + 1, y)
}

// The special format: length bytes, output's before input's, and vendor bytes.
#[tactic(auto, unfolding(configuration::specs::Fields::special_of, configuration::specs::Walk::special_in))]
fn special(s: &[u8], at: usize) -> Result<Step, Refusal>
    requires { at < length s.now }
    ensures { told result ≡ step_of at (special_in (drop at s.now)) }
{
    let x = s[at];
    let vendor = x % 16;
    if vendor == 15 {
        return Err(Refusal::VendorCount);
    }
    let has_output = x / 128 % 2;
    let has_input = x / 64 % 2;
    let front = (1 + has_output + has_input) as usize;
    let len = vendor as usize;
    if s.len() - at < front + len {
        return Err(Refusal::PastTheData);
    }
    let output = length_byte(s, at + 1, has_output);
    let input = length_byte(s, at + 1 + has_output as usize, has_input);
    let module = Module {
        identifier: Identifier::Special,
        input,
        output,
    };
    Ok(Step::Module {
        module,
        start: at + front,
        len,
        next: Position {
            at: at + front + len,
        },
    })
}

// Where the first module begins.
pub fn first() -> Position
    ensures { result ≡ first_position }
{
    Position { at: 0 }
}

// The module at a position, the end, or the refusal that reading gives there. A position past the end
// is the caller's fault.
#[tactic(auto, unfolding(configuration::specs::Walk::next_of, configuration::specs::Walk::module_in))]
pub fn next(bytes: &[u8], position: Position) -> Result<Step, Refusal>
    ensures { told result ≡ next_of bytes.now position.at }
{
    let at = position.at;
    if bytes.len() < at {
        return Err(Refusal::Field);
    }
    if at == bytes.len() {
        return Ok(Step::End);
    }
    let x = bytes[at];
    if x / 16 % 4 == 0 {
        return special(bytes, at);
    }
    let module = general(x);
    Ok(Step::Module {
        module,
        start: at + 1,
        len: 0,
        next: Position { at: at + 1 },
    })
}
