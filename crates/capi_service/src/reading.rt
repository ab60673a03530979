// Service telegrams through the C interface: reading one into eighteen fields.
ghost use Rattle.std.specs.Prelude.{◌≡◌};
ghost use Rattle.service_fields.specs.Service.{mode_of};
ghost use Rattle.capi_service.specs.Service.{way_number, fields_of, read_in, refusal_of, fields_after};

use content::Content;
use fdl::Format;
use fields::format_number;
use octets::{Mode, Refusal};
use service::{Reading, Way};

fn way_number(way: Way) -> u8
    ensures { result ≡ way_number way }
{
    match way {
        Way::Call => 0,
        Way::Answer => 1,
    }
}

// Stores eighteen fields.
fn put_fields(
    format: Format,
    header: fdl::Header,
    way: Way,
    content: Content,
    start: u8,
    len: u8,
    fields: &mut [u8; 18],
)
    ensures { fields.new ≡ fields_of format header way content start len }
{
    let own = service_fields::own_of(content);
    *fields = [
        own.0,
        way_number(way),
        format_number(format),
        header.da,
        header.sa,
        header.fc,
        start,
        len,
        own.1,
        own.2,
        own.3,
        own.4,
        own.5,
        own.6,
        own.7,
        own.8,
        own.9,
        own.10,
    ];
}

// The version of a number that is 0 or 1.
fn mode_of(version: u8) -> Mode
    ensures { result ≡ mode_of version }
{
    if version == 0 { Mode::Dpv0 } else { Mode::Dpv1 }
}

// Reads a service telegram into its fields.
#[unsafe(no_mangle)]
pub extern "C" fn rabtunex_read_service(bytes: &[u8], version: u8, fields: &mut [u8; 18]) -> u8
    ensures refusal { result ≡ refusal_of (read_in bytes.now version) }
    ensures fields { fields.new ≡ fields_after (read_in bytes.now version) fields.old }
{
    if 1 < version {
        return Refusal::Field.number();
    }
    let reading = service_reader::read(bytes, mode_of(version));
    match reading {
        Ok(
            Reading {
                format,
                header,
                way,
                content,
                start,
                len,
            },
        ) => {
            put_fields(format, header, way, content, start as u8, len as u8, fields);
            0
        }
        Err(refusal) => refusal.number(),
    }
}
