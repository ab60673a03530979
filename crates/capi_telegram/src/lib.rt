// Telegrams through the C interface, by the same eight fields for reading and writing.
#![tactic(auto)]

ghost use Rattle.std.specs.Prelude.{◌≡◌, length};
ghost use Rattle.octets.specs.Front.{answer_by, held_by};
ghost use Rattle.fdl.specs.Reading.{read_of};
ghost use Rattle.fields.specs.Outcome.{status_of, count_after};
ghost use Rattle.capi_telegram.specs.Telegram.{sap_number, sap_of, refusal_of, telegram_fields, fields_after, header_of, verdict_at, bytes_at, answer_of, held_of};

use fdl::{Header, Reading, Sap};
use fields::{Kind, format_number, kind_of, store_count, told};
use octets::Refusal;

fn sap_number(sap: Sap) -> u8
    ensures { result ≡ sap_number sap }
{
    match sap {
        None => 255,
        Some(number) => number,
    }
}

fn sap_of(number: u8) -> Sap
    ensures { result ≡ sap_of number }
{
    if number == 255 { None } else { Some(number) }
}

// Stores eight fields.
fn put_fields(kind: u8, header: Header, start: u8, len: u8, fields: &mut [u8; 8])
    ensures { fields.new ≡ telegram_fields kind header start len }
{
    let dsap = header.dsap;
    let ssap = header.ssap;
    *fields = [
        kind,
        header.da,
        header.sa,
        header.fc,
        sap_number(dsap),
        sap_number(ssap),
        start,
        len,
    ];
}

// Reads a telegram into its fields.
#[unsafe(no_mangle)]
pub extern "C" fn rabtunex_read_telegram(bytes: &[u8], fields: &mut [u8; 8]) -> u8
    ensures refusal { result ≡ refusal_of (read_of bytes.now) }
    ensures fields { fields.new ≡ fields_after (read_of bytes.now) fields.old }
{
    match fdl_reader::read(bytes) {
        Ok(Reading::Confirmation) => {
            *fields = [0, 0, 0, 0, 255, 255, 0, 0];
            0
        }
        Ok(Reading::Token { da, sa }) => {
            *fields = [1, da, sa, 0, 255, 255, 0, 0];
            0
        }
        Ok(
            Reading::Telegram {
                format,
                header,
                start,
                len,
            },
        ) => {
            put_fields(
                format_number(format),
                header,
                start as u8,
                len as u8,
                fields,
            );
            0
        }
        Err(refusal) => refusal.number(),
    }
}

fn header_of(fields: &[u8; 8]) -> Header
    ensures { result ≡ header_of fields.now }
{
    Header {
        da: fields[1],
        sa: fields[2],
        fc: fields[3],
        dsap: sap_of(fields[4]),
        ssap: sap_of(fields[5]),
    }
}

#[tactic(auto, unfolding(octets::specs::Front::answer_by, octets::specs::Front::held_by))]
fn write_kind(
    kind: Option<Kind>,
    fields: &[u8; 8],
    user: &[u8],
    out: &mut [u8],
) -> Result<usize, u8>
    ensures answer { result ≡ answer_by (verdict_at kind fields.now user.now) (bytes_at kind fields.now user.now) (length out.old) }
    ensures bytes { out.new ≡ held_by (verdict_at kind fields.now user.now) (bytes_at kind fields.now user.now) out.old }
{
    match kind {
        Some(Kind::Confirmation) => {
            if user.len() != 0 {
                return Err(Refusal::Field.number());
            }
            told(framing::write_confirmation(out))
        }
        Some(Kind::Token) => {
            if user.len() != 0 {
                return Err(Refusal::Field.number());
            }
            told(framing::write_token(fields[1], fields[2], out))
        }
        Some(Kind::Telegram(format)) => told(fdl_writer::write(
            format,
            header_of(fields),
            user,
            out,
        )),
        None => Err(Refusal::Field.number()),
    }
}

// Writes a telegram from its fields and user data, and its length to stored.
#[unsafe(no_mangle)]
pub extern "C" fn rabtunex_write_telegram(
    fields: &[u8; 8],
    user: &[u8],
    out: &mut [u8],
    stored: &mut usize,
) -> u8
    ensures refusal { result ≡ status_of (answer_of fields.now user.now (length out.old)) }
    ensures bytes { out.new ≡ held_of fields.now user.now out.old }
    ensures count { stored.new ≡ count_after (answer_of fields.now user.now (length out.old)) stored.old }
{
    let written = write_kind(kind_of(fields[0]), fields, user, out);
    store_count(written, stored)
}
