// Template books through the C interface: how many templates one has, each template, and writing.
#![tactic(auto)]

ghost use Rattle.std.specs.Prelude.{◌≡◌, length};
ghost use Rattle.book.specs.Reading.{read_of};
ghost use Rattle.book.specs.Template.{template_of};
ghost use Rattle.fields.specs.Outcome.{status_of, count_after};
ghost use Rattle.capi_book.specs.Book.{refusal_of, templates_after, template_refusal, fields_after, answer_of, held_of};

use book::Template;
use fields::{store_count, told};

// Reads a book, and stores how many templates it has.
#[unsafe(no_mangle)]
pub extern "C" fn rabtunex_read_book(bytes: &[u8], count: &mut usize) -> u8
    ensures refusal { result ≡ refusal_of (read_of bytes.now) }
    ensures count { count.new ≡ templates_after (read_of bytes.now) count.old }
{
    match book_reader::read(bytes) {
        Ok(templates) => {
            *count = templates;
            0
        }
        Err(refusal) => refusal.number(),
    }
}

// Finds template k of a book, counted from 1, and stores its slot and where its body is.
#[unsafe(no_mangle)]
pub extern "C" fn rabtunex_book_template(bytes: &[u8], k: usize, fields: &mut [usize; 3]) -> u8
    ensures refusal { result ≡ template_refusal (template_of bytes.now k) }
    ensures fields { fields.new ≡ fields_after (template_of bytes.now k) fields.old }
{
    match book_reader::template(bytes, k) {
        Ok(Template { slot, start, len }) => {
            *fields = [slot as usize, start, len];
            0
        }
        Err(refusal) => refusal.number(),
    }
}

// Writes a book from its slots, lengths and bodies, and its length to stored.
#[unsafe(no_mangle)]
pub extern "C" fn rabtunex_write_book(
    slots: &[u8],
    lengths: &[u8],
    bodies: &[u8],
    out: &mut [u8],
    stored: &mut usize,
) -> u8
    ensures refusal { result ≡ status_of (answer_of slots.now lengths.now bodies.now (length out.old)) }
    ensures bytes { out.new ≡ held_of slots.now lengths.now bodies.now out.old }
    ensures count { stored.new ≡ count_after (answer_of slots.now lengths.now bodies.now (length out.old)) stored.old }
{
    store_count(
        told(book_writer::write(slots, lengths, bodies, out)),
        stored,
    )
}
