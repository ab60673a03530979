// Writing parameters at the front of a lent slice.
ghost use Rattle.std.specs.Prelude.{◌≡◌, ◌≤◌, length};
ghost use Rattle.octets.specs.Refusals.{told};
ghost use Rattle.octets.specs.Front.{AtFront, answer_by, held_by};
ghost use Rattle.parameters.specs.Fields.{mode_of};
ghost use Rattle.parameters.specs.Writing.{front_bytes, bytes_for, user_start, good_extension, verdict_for};

use octets::{Mode, Refusal};
use parameters::{
    Extension, Parameters, fixed_length, good_flags, good_response, good_status1, good_status2,
    good_status3,
};

// The version that parameters are written in.
fn mode_of(extension: Extension) -> Mode
    ensures { result ≡ mode_of extension }
{
    match extension {
        Extension::Dpv0 => Mode::Dpv0,
        Extension::Dpv1 {
            status1: _,
            status2: _,
            status3: _,
        } => Mode::Dpv1,
    }
}

fn good_extension(extension: Extension) -> bool
    ensures { result ≡ good_extension extension }
{
    match extension {
        Extension::Dpv0 => true,
        Extension::Dpv1 {
            status1,
            status2,
            status3,
        } => good_status1(status1) && good_status2(status2) && good_status3(status3),
    }
}

// Stores what stands before the user bytes.
fn put_front(fields: Parameters, out: &mut [u8]) -> usize
    requires { user_start fields ≤ length out.old }
    ensures { AtFront (front_bytes fields) out.old out.new result }
{
    let ident = fields.ident;
    let response = fields.response;
    let extension = fields.extension;
    out[0] = fields.flags;
    out[1] = fields.factor1;
    out[2] = fields.factor2;
    out[3] = response.0;
    out[4] = (ident / 256 % 256) as u8;
    out[5] = (ident % 256) as u8;
    out[6] = fields.groups;
    match extension {
        Extension::Dpv0 => 7,
        Extension::Dpv1 {
            status1,
            status2,
            status3,
        } => {
            out[7] = status1;
            out[8] = status2;
            out[9] = status3;
            10
        }
    }
}

fn put(fields: Parameters, user: &[u8], out: &mut [u8]) -> usize
    requires { length (bytes_for fields user.now) ≤ length out.old }
    ensures { AtFront (bytes_for fields user.now) out.old out.new result }
{
    let n = put_front(fields, out);
    octets::store_behind(n, user, out)
}

// Writes parameters from their fields and user bytes, in the version that their extension is of.
#[tactic(auto, unfolding(parameters::specs::Fields::verdict_of, octets::specs::Front::answer_by, octets::specs::Front::held_by))]
pub fn write(fields: Parameters, user: &[u8], out: &mut [u8]) -> Result<usize, Refusal>
    ensures answer { told result ≡ answer_by (verdict_for fields user.now) (bytes_for fields user.now) (length out.old) }
    ensures bytes { out.new ≡ held_by (verdict_for fields user.now) (bytes_for fields user.now) out.old }
{
    let extension = fields.extension;
    let size = fixed_length(mode_of(extension)) + user.len();
    if 244 < size {
        return Err(Refusal::DataLength);
    }
    if !good_flags(fields.flags) {
        return Err(Refusal::DataByte);
    }
    let response = fields.response;
    if !good_response(response) {
        return Err(Refusal::DataByte);
    }
    if !good_extension(extension) {
        return Err(Refusal::DataByte);
    }
    if out.len() < size {
        return Err(Refusal::NoRoom);
    }
    Ok(put(fields, user, out))
}
