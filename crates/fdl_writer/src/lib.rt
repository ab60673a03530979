// Writing a telegram with fields at the front of a lent slice (document 01, "Telegram layouts"), held to the
// definitions of the crate fdl.
#![tactic(auto)]

ghost use Rattle.std.specs.Prelude.{◌≡◌, ◌++◌, ◌∷◌, [], ◌+◌, ◌≤◌, length, take, drop};
ghost use Rattle.octets.specs.Refusals.{told};
ghost use Rattle.octets.specs.Front.{AtFront, answer_by, held_by};
ghost use Rattle.fdl.specs.Telegram.{sum_of, checksum_of};
ghost use Rattle.fdl.specs.Writing.{start_bytes, sap_bytes, address_bytes, core_of, closed_of, telegram_of, user_start, verdict_of};
ghost use Rattle.fdl.specs.Around.{user_in, head_bytes};

use fdl::{Format, Header, Sap, checksum, sap_length};
use framing::{user_start, writable};
use octets::Refusal;

// LE: how many bytes stand from DA to the last of the user data.
fn length_byte(header: Header, len: usize) -> u8
    requires { length (head_bytes header) + len ≤ 249 }
    ensures { result ≡ length (head_bytes header) + len }
{
    let dsap = header.dsap;
    let ssap = header.ssap;
    (3 + sap_length(dsap) + sap_length(ssap) + len) as u8
}

fn put_start(format: Format, le: u8, out: &mut [u8]) -> usize
    requires { length (start_bytes format le) ≤ length out.old }
    ensures { AtFront (start_bytes format le) out.old out.new result }
{
    match format {
        Format::Sd1 => {
            out[0] = fdl::SD1;
            1
        }
        Format::Sd2 => {
            out[0] = fdl::SD2;
            out[1] = le;
            out[2] = le;
            out[3] = fdl::SD2;
            4
        }
        Format::Sd3 => {
            out[0] = fdl::SD3;
            1
        }
    }
}

fn put_addresses(header: Header, out: &mut [u8]) -> usize
    requires { (header.da ≤ 127) × (header.sa ≤ 126) × (3 ≤ length out.old) }
    ensures { AtFront (address_bytes header) out.old out.new result }
{
    let dsap = header.dsap;
    let ssap = header.ssap;
    let da = header.da + 128 * sap_length(dsap) as u8;
    let sa = header.sa + 128 * sap_length(ssap) as u8;
    out[0] = da;
    out[1] = sa;
    out[2] = header.fc;
    3
}

fn put_sap(sap: Sap, out: &mut [u8]) -> usize
    requires { length (sap_bytes sap) ≤ length out.old }
    ensures { AtFront (sap_bytes sap) out.old out.new result }
{
    match sap {
        None => 0,
        Some(number) => {
            out[0] = number;
            1
        }
    }
}

fn put_saps(dsap: Sap, ssap: Sap, out: &mut [u8]) -> usize
    requires { length (sap_bytes dsap ++ sap_bytes ssap) ≤ length out.old }
    ensures { AtFront (sap_bytes dsap ++ sap_bytes ssap) out.old out.new result }
{
    let n = put_sap(dsap, out);
    n + put_sap(ssap, &mut out[n..])
}

// Stores DA to the last access point: what stands between the start and the user data.
fn put_head(header: Header, out: &mut [u8]) -> usize
    requires { (header.da ≤ 127) × (header.sa ≤ 126) × (length (head_bytes header) ≤ length out.old) }
    ensures { AtFront (head_bytes header) out.old out.new result }
{
    let dsap = header.dsap;
    let ssap = header.ssap;
    let n = put_addresses(header, out);
    n + put_saps(dsap, ssap, &mut out[n..])
}

fn sap_sum(sap: Sap) -> u8
    ensures { result ≡ sum_of (sap_bytes sap) }
{
    match sap {
        None => 0,
        Some(number) => number,
    }
}

// The checksum of DA to the last access point. It is taken from the fields: loads of bytes that were stored
// just before in pieces would have to wait for them.
fn head_sum(header: Header) -> u8
    ensures { result ≡ checksum_of (head_bytes header) }
{
    let dsap = header.dsap;
    let ssap = header.ssap;
    let da = header.da as u16 + 128 * sap_length(dsap) as u16;
    let sa = header.sa as u16 + 128 * sap_length(ssap) as u16;
    let saps = sap_sum(dsap) as u16 + sap_sum(ssap) as u16;
    ((da + sa + header.fc as u16 + saps) % 256) as u8
}

// Stores the checksum and the end byte behind the n bytes in front.
fn put_end(n: usize, fcs: u8, out: &mut [u8])
    requires { (n ≤ 249) × (n + 2 ≤ length out.old) }
    ensures { out.new ≡ take n out.old ++ (fcs ∷ 0x16 ∷ []) ++ drop (n + 2) out.old }
{
    out[n] = fcs;
    out[n + 1] = 0x16;
}

// Makes DA to the end byte around the len bytes of user data, which stand in their place already and have
// this checksum.
fn put_closed(header: Header, sum: u8, len: usize, out: &mut [u8]) -> usize
    requires { (header.da ≤ 127) × (header.sa ≤ 126) × (length (head_bytes header) + len ≤ 249) × (length (head_bytes header) + len + 2 ≤ length out.old) × (sum ≡ checksum_of (take len (drop (length (head_bytes header)) out.old))) }
    ensures { AtFront (closed_of (core_of header (take len (drop (length (head_bytes header)) out.old)))) out.old out.new result }
{
    let fcs = ((head_sum(header) as u16 + sum as u16) % 256) as u8;
    let n = put_head(header, out) + len;
    put_end(n, fcs, out);
    n + 2
}

// Makes a whole telegram around the len bytes of user data, which stand in their place already and have this
// checksum.
fn put_around(format: Format, header: Header, sum: u8, len: usize, out: &mut [u8]) -> usize
    requires { (header.da ≤ 127) × (header.sa ≤ 126) × (length (head_bytes header) + len ≤ 249) × (user_start format header + len + 2 ≤ length out.old) × (sum ≡ checksum_of (user_in format header len out.old)) }
    ensures { AtFront (telegram_of format header (user_in format header len out.old)) out.old out.new result }
{
    let le = length_byte(header, len);
    let n = put_start(format, le, out);
    n + put_closed(header, sum, len, &mut out[n..])
}

// Writes a telegram from its fields and user data.
pub fn write(format: Format, header: Header, user: &[u8], out: &mut [u8]) -> Result<usize, Refusal>
    ensures answer { told result ≡ answer_by (verdict_of format header user.now) (telegram_of format header user.now) (length out.old) }
    ensures bytes { out.new ≡ held_by (verdict_of format header user.now) (telegram_of format header user.now) out.old }
{
    let len = user.len();
    if !writable(format, header, len) {
        return Err(Refusal::Field);
    }
    let start = user_start(format, header);
    if out.len() < start + len + 2 {
        return Err(Refusal::NoRoom);
    }
    let sum = checksum(user);
    octets::store_behind(start, user, out);
    Ok(put_around(format, header, sum, len, out))
}

// Writes a telegram around len bytes of user data that the caller has put into out from
// `user_start` on. They are not copied, and stay where they are.
pub fn write_around(
    format: Format,
    header: Header,
    len: usize,
    out: &mut [u8],
) -> Result<usize, Refusal>
    ensures answer { told result ≡ answer_by (verdict_of format header (user_in format header len out.old)) (telegram_of format header (user_in format header len out.old)) (length out.old) }
    ensures bytes { out.new ≡ held_by (verdict_of format header (user_in format header len out.old)) (telegram_of format header (user_in format header len out.old)) out.old }
{
    if !writable(format, header, len) {
        return Err(Refusal::Field);
    }
    let place = user_start(format, header);
    if out.len() < place + len + 2 {
        return Err(Refusal::NoRoom);
    }
    let sum = checksum(&out[place..place + len]);
    Ok(put_around(format, header, sum, len, out))
}
