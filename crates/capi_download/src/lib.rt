// The whole download through the C interface.
#![tactic(auto)]

ghost use Rattle.std.specs.Prelude.{◌≡◌};
ghost use Rattle.octets.specs.Refusals.{told};
ghost use Rattle.capi_download.specs.Joined.{download_between, refusal_in, state_after, ending_after, sendings_after};

use controller_bytes::{put_ending, settings_in};
use octets::Refusal;
use printer_bytes::{printer_in, put_printer};
use protocol::Downloaded;

// Stores how a download ended, after how many sendings, and the printer then, and answers the refusal, 0 for
// none.
fn put_downloaded(
    downloaded: Result<Downloaded, Refusal>,
    state: &mut [u8; 11],
    ending: &mut [u8; 4],
    sendings: &mut usize,
) -> u8
    ensures refusal { result ≡ refusal_in (told downloaded) }
    ensures state { state.new ≡ state_after (told downloaded) state.old }
    ensures ending { ending.new ≡ ending_after (told downloaded) ending.old }
    ensures sendings { sendings.new ≡ sendings_after (told downloaded) sendings.old }
{
    match downloaded {
        Ok(ended) => {
            put_printer(ended.printer, state);
            put_ending(ended.ending, ending);
            *sendings = ended.sent as usize;
            0
        }
        Err(refusal) => refusal.number(),
    }
}

// A whole download to a printer that is lent, along a line that is given.
#[unsafe(no_mangle)]
pub extern "C" fn rabtunex_download(
    settings: &[u8; 4],
    book: &[u8],
    line: &[u8],
    not_yet: &[u8],
    diagnosis: &[u8],
    state: &mut [u8; 11],
    lengths: &mut [u8; 16],
    bodies: &mut [u8; 3200],
    reply: &mut [u8],
    request: &mut [u8],
    ending: &mut [u8; 4],
    sendings: &mut usize,
) -> u8
    ensures refusal { result ≡ refusal_in (download_between settings.now book.now line.now not_yet.now diagnosis.now state.old lengths.old bodies.old reply.old request.old).answer }
    ensures state { state.new ≡ state_after (download_between settings.now book.now line.now not_yet.now diagnosis.now state.old lengths.old bodies.old reply.old request.old).answer state.old }
    ensures lengths { lengths.new ≡ (download_between settings.now book.now line.now not_yet.now diagnosis.now state.old lengths.old bodies.old reply.old request.old).slots.lengths }
    ensures bodies { bodies.new ≡ (download_between settings.now book.now line.now not_yet.now diagnosis.now state.old lengths.old bodies.old reply.old request.old).slots.bodies }
    ensures reply { reply.new ≡ (download_between settings.now book.now line.now not_yet.now diagnosis.now state.old lengths.old bodies.old reply.old request.old).reply }
    ensures request { request.new ≡ (download_between settings.now book.now line.now not_yet.now diagnosis.now state.old lengths.old bodies.old reply.old request.old).request }
    ensures ending { ending.new ≡ ending_after (download_between settings.now book.now line.now not_yet.now diagnosis.now state.old lengths.old bodies.old reply.old request.old).answer ending.old }
    ensures sendings { sendings.new ≡ sendings_after (download_between settings.now book.now line.now not_yet.now diagnosis.now state.old lengths.old bodies.old reply.old request.old).answer sendings.old }
{
    let Some(printer) = printer_in(state) else {
        return Refusal::Field.number();
    };
    let downloaded = download::run(
        settings_in(settings),
        book,
        line,
        not_yet,
        diagnosis,
        printer,
        lengths,
        bodies,
        reply,
        request,
    );
    put_downloaded(downloaded, state, ending, sendings)
}
