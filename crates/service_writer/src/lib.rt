// Writing a whole telegram for a service: a bad telegram field or data length gives 12, a function code
// that the service does not go by 10; then come the refusals of the service's own data, and 11 last.
#![tactic(auto)]

ghost use Rattle.std.specs.Prelude.{◌≡◌, true, ◌+◌, ◌≤◌, ltb, length};
ghost use Rattle.octets.specs.Refusals.{told};
ghost use Rattle.octets.specs.Choice.{pick};
ghost use Rattle.octets.specs.Front.{answer_by, held_by};
ghost use Rattle.fdl.specs.Around.{good_fields};
ghost use Rattle.fdl.specs.Writing.{telegram_of};
ghost use Rattle.content.specs.Fields.{fixed_length};
ghost use Rattle.content.specs.Writing.{bytes_for};
ghost use Rattle.service.specs.Writing.{way_by, way_verdict, verdict_of, telegram_for, no_room};

use access::Route;
use content::Content;
use fdl::{Format, Header};
use octets::Refusal;
use service::Way;

// Writes the user data at the front of out.
fn write_data(way: Way, content: Content, part: &[u8], out: &mut [u8]) -> Result<usize, Refusal>
    ensures answer { told result ≡ answer_by (way_verdict way content part.now) (bytes_for content part.now) (length out.old) }
    ensures bytes { out.new ≡ held_by (way_verdict way content part.now) (bytes_for content part.now) out.old }
{
    match way {
        Way::Call => content_writer::write_call(content, part, out),
        Way::Answer => content_writer::write_answer(content, part, out),
    }
}

// From where on the data's writer is lent the room: from the data's place, or from the end where the whole
// telegram does not fit.
fn lent_from(room: usize, whole: usize, start: usize) -> usize
    ensures { result ≡ pick (ltb room whole) room start }
{
    if room < whole {
        return room;
    }
    start
}

// Writes a telegram with this header and len bytes of data. The data go straight to their place in it;
// where it has no room, their writer is lent none either, so that it only says whether they are refused.
// That writer is called in one place, so that the compiler puts it here.
fn write_way(
    way: Way,
    format: Format,
    header: Header,
    content: Content,
    len: usize,
    part: &[u8],
    out: &mut [u8],
) -> Result<usize, Refusal>
    requires { (len ≡ fixed_length content + length part.now) × (good_fields format header len ≡ true) }
    ensures answer { told result ≡ answer_by (way_verdict way content part.now) (telegram_of format header (bytes_for content part.now)) (length out.old) }
    ensures bytes { out.new ≡ held_by (way_verdict way content part.now) (telegram_of format header (bytes_for content part.now)) out.old }
{
    let start = framing::user_start(format, header);
    let whole = start + len + 2;
    let room = out.len();
    let from = lent_from(room, whole, start);
    let written = write_data(way, content, part, &mut out[from..]);
    if room < whole {
        written?;
        return Err(Refusal::NoRoom);
    }
    let stored = written?;
    fdl_writer::write_around(format, header, stored, out)
}

// The way of a route that leads somewhere; one that leads nowhere is refused before.
fn way_of(route: Route) -> Way
    ensures { result ≡ way_by route }
{
    match route {
        Route::Call(_) => Way::Call,
        Route::Answer(_) => Way::Answer,
        Route::Nowhere => Way::Call,
    }
}

// Writes a service from its fields and the part behind them. The function code decides the way, and
// service and way the access points. Both ways go through one call, so that the compiler puts it here.
pub fn write(
    format: Format,
    da: u8,
    sa: u8,
    fc: u8,
    content: Content,
    part: &[u8],
    out: &mut [u8],
) -> Result<usize, Refusal>
    ensures answer { told result ≡ answer_by (verdict_of format da sa fc content part.now) (telegram_for format da sa fc content part.now) (length out.old) }
    ensures bytes { out.new ≡ held_by (verdict_of format da sa fc content part.now) (telegram_for format da sa fc content part.now) out.old }
{
    let service = content::service_of(content);
    let header = routing::header_of(service, da, sa, fc);
    let fixed = content::fixed_length(content);
    if framing::writable_with(format, header, fixed, part.len()) {
        let route = routing::route_for(service, fc);
        if let Route::Nowhere = route {
            Err(Refusal::NoService)
        } else {
            let len = fixed + part.len();
            write_way(way_of(route), format, header, content, len, part, out)
        }
    } else {
        Err(Refusal::Field)
    }
}
