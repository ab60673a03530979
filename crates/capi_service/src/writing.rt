// Service telegrams through the C interface: writing one from its fields.
ghost use Rattle.std.specs.Prelude.{◌≡◌, ◌+◌, length};
ghost use Rattle.octets.specs.Choice.{pick};
ghost use Rattle.octets.specs.Front.{answer_by, held_by};
ghost use Rattle.access.specs.Route.{service_route};
ghost use Rattle.fields.specs.Outcome.{status_of, count_after};
ghost use Rattle.capi_service.specs.Service.{lacking_number, reserved_by, named_verdict, named_bytes, answer_of, held_of};

use access::{Route, Service};
use fdl::Format;
use fields::{Kind, kind_of, store_count, told};
use octets::Refusal;
use service_fields::Named;

// The refusal of fields that name no service, or not that way: what the telegram's fields say comes first, with
// fixed bytes of the service's own and len of the part; then the number.
#[tactic(auto, unfolding(crate::specs::Service::lacking_number))]
fn lacking_number(
    format: Format,
    service: Service,
    fields: &[u8; 18],
    fixed: usize,
    len: usize,
    number: u8,
) -> u8
    ensures { result ≡ lacking_number format service fields.now (fixed + len) number }
{
    let header = routing::header_of(service, fields[3], fields[4], fields[5]);
    if framing::writable_with(format, header, fixed, len) {
        number
    } else {
        Refusal::Field.number()
    }
}

// The refusal of a DPV1 number that the way does not have.
fn reserved_number(right: bool, fc: u8) -> u8
    ensures { result ≡ pick right (reserved_by (service_route Service.Dpv1 fc)) 10 }
{
    if !right {
        return Refusal::NoService.number();
    }
    let route = routing::route_for(Service::Dpv1, fc);
    match route {
        Route::Nowhere => Refusal::NoService.number(),
        Route::Call(_) => Refusal::Dpv1Code.number(),
        Route::Answer(_) => Refusal::Dpv1Code.number(),
    }
}

// Writes what the fields name; right says whether their way is the function code's.
#[tactic(auto, unfolding(octets::specs::Front::answer_by, octets::specs::Front::held_by))]
fn write_named(
    named: Named,
    right: bool,
    format: Format,
    fields: &[u8; 18],
    part: &[u8],
    out: &mut [u8],
) -> Result<usize, u8>
    ensures answer { result ≡ answer_by (named_verdict named right format fields.now part.now) (named_bytes named format fields.now part.now) (length out.old) }
    ensures bytes { out.new ≡ held_by (named_verdict named right format fields.now part.now) (named_bytes named format fields.now part.now) out.old }
{
    let len = part.len();
    let no_service = Refusal::NoService.number();
    match named {
        Named::Content(content) => {
            if right {
                return told(service_writer::write(
                    format, fields[3], fields[4], fields[5], content, part, out,
                ));
            }
            let service = content::service_of(content);
            let fixed = content::fixed_length(content);
            Err(lacking_number(format, service, fields, fixed, len, no_service))
        }
        Named::Reserved => {
            let number = reserved_number(right, fields[5]);
            Err(lacking_number(format, Service::Dpv1, fields, 4, len, number))
        }
        Named::Unlisted => {
            let number = lacking_number(format, Service::Dpv1, fields, 0, len, no_service);
            Err(number)
        }
        Named::Nothing => Err(Refusal::Field.number()),
    }
}

// Writes a service telegram from its fields and its part, and its length to stored.
#[tactic(auto, unfolding(octets::specs::Front::answer_by, octets::specs::Front::held_by))]
#[unsafe(no_mangle)]
pub extern "C" fn rabtunex_write_service(
    fields: &[u8; 18],
    version: u8,
    part: &[u8],
    out: &mut [u8],
    stored: &mut usize,
) -> u8
    ensures refusal { result ≡ status_of (answer_of fields.now version part.now (length out.old)) }
    ensures bytes { out.new ≡ held_of fields.now version part.now out.old }
    ensures count { stored.new ≡ count_after (answer_of fields.now version part.now (length out.old)) stored.old }
{
    if 1 < version {
        return Refusal::Field.number();
    }
    if 1 < fields[1] {
        return Refusal::Field.number();
    }
    let kind = kind_of(fields[2]);
    match kind {
        Some(Kind::Confirmation) => Refusal::Field.number(),
        Some(Kind::Token) => Refusal::Field.number(),
        Some(Kind::Telegram(format)) => {
            let named = service_fields::content_in(fields, version);
            let right = service_fields::right_way(fields);
            store_count(write_named(named, right, format, fields, part, out), stored)
        }
        None => Refusal::Field.number(),
    }
}
