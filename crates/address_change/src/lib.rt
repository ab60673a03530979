// Set_Slave_Adr (document 01, "Services by access point"): the change of a slave's address.
#![tactic(auto)]

ghost use Rattle.std.specs.Prelude.{◌≡◌, ◌≤◌, length};
ghost use Rattle.octets.specs.Refusals.{told};
ghost use Rattle.octets.specs.Front.{AtFront, answer_by, held_by};
ghost use Rattle.address_change.specs.Address.{read_of, fixed_bytes, bytes_for, verdict_for};

use octets::{Read, Refusal};

// The slave with this ident number gets the address; with locked 1, and not 0, no later change is allowed.
#[derive(Clone, Copy)]
pub struct AddressChange {
    pub address: u8,
    pub ident: u16,
    pub locked: u8,
}

// Reads an address change: all of the lent slice is one. By document 01 nothing follows the four fixed bytes.
#[tactic(auto, unfolding(crate::specs::Address::verdict_of, crate::specs::Address::read_of))]
pub fn read_address_change(bytes: &[u8]) -> Result<Read<AddressChange>, Refusal>
    ensures { told result ≡ read_of bytes.now }
{
    if bytes.len() != 4 {
        return Err(Refusal::DataLength);
    }
    let address = bytes[0];
    if 125 < address {
        return Err(Refusal::DataByte);
    }
    let locked = bytes[3];
    if 1 < locked {
        return Err(Refusal::DataByte);
    }
    let ident = octets::join16(bytes[1], bytes[2]);
    let fields = AddressChange {
        address,
        ident,
        locked,
    };
    Ok(Read {
        fields,
        start: 4,
        len: bytes.len() - 4,
    })
}

// Stores the four fixed bytes.
fn put(fields: AddressChange, out: &mut [u8]) -> usize
    requires { 4 ≤ length out.old }
    ensures { AtFront (fixed_bytes fields) out.old out.new result }
{
    let ident = fields.ident;
    out[0] = fields.address;
    out[1] = (ident / 256 % 256) as u8;
    out[2] = (ident % 256) as u8;
    out[3] = fields.locked;
    4
}

// Writes an address change from its fields and what follows them.
#[tactic(auto, unfolding(crate::specs::Address::verdict_of, octets::specs::Front::answer_by, octets::specs::Front::held_by))]
pub fn write_address_change(
    fields: AddressChange,
    rest: &[u8],
    out: &mut [u8],
) -> Result<usize, Refusal>
    ensures answer { told result ≡ answer_by (verdict_for fields rest.now) (bytes_for fields rest.now) (length out.old) }
    ensures bytes { out.new ≡ held_by (verdict_for fields rest.now) (bytes_for fields rest.now) out.old }
{
    let size = 4 + rest.len();
    if size != 4 {
        return Err(Refusal::DataLength);
    }
    if 125 < fields.address {
        return Err(Refusal::DataByte);
    }
    if 1 < fields.locked {
        return Err(Refusal::DataByte);
    }
    if out.len() < size {
        return Err(Refusal::NoRoom);
    }
    let n = put(fields, out);
    Ok(octets::store_behind(n, rest, out))
}
