// The records of a book by number: every field, the record's own place, its text and its note.
ghost use Rattle.std.specs.Prelude.{◌≡◌, ◌<◌, ◌≤◌, length, get_or};
ghost use Rattle.book.specs.Walk.{body_at};
ghost use Rattle.book.specs.Books.{places_of, most_book_bytes, record_answer, record_text_in, record_note_in};
ghost use Rattle.book.specs.Settings.{first_record};

use crate::located::RecordRef;
use crate::reading::read_book;
use crate::settings::FIRST_RECORD;
use crate::types::Entry;
use prelude::refusals::Refusal;
use prelude::refused::NO_SUCH_NUMBER;
use prelude::slices::{part, word};

// A record's type byte and length stand before its body.
pub const HEAD: usize = 3;

// The body of a record at any place; bytes past the end count as nothing.
pub fn body_from(file: &[u8], at: usize) -> &[u8]
    requires { at ≤ most_book_bytes }
    ensures { result.now ≡ body_at file.now at }
{
    part(file, at + HEAD, usize::from(word(file, at + 1)))
}

// The place of a record by its number, on from that of an earlier one, from length to length.
pub fn place_from(file: &[u8], n: usize, place: usize, k: usize) -> usize
    requires first_record_in_bounds { first_record ≤ length file.now }
    requires n_le_k { n ≤ k }
    requires k_in_bounds { k < length (places_of file.now) }
    requires place_value { place ≡ get_or (places_of file.now) n 0 }
    ensures { (result ≡ get_or (places_of file.now) k 0) × (result ≤ length file.now) }
{
    let mut at = place;
    for _ in n..k {
        at = RecordRef { file, at }.next_place();
    }
    at
}

// The same from the first record on.
pub fn place_of(file: &[u8], k: usize) -> usize
    requires first_record_in_bounds { first_record ≤ length file.now }
    requires k_in_bounds { k < length (places_of file.now) }
    ensures { (result ≡ get_or (places_of file.now) k 0) × (result ≤ length file.now) }
{
    place_from(file, 0, FIRST_RECORD, k)
}

// The record at a number: every field, its place, its stretches.
pub fn record_at(file: &[u8], k: usize) -> Result<Entry, Refusal>
    ensures { result ≡ record_answer file.now k }
{
    let book = read_book(file)?;
    if k >= book.records {
        return Err(NO_SUCH_NUMBER);
    }
    let at = place_of(file, k);
    Ok(RecordRef { file, at }.entry())
}

// Kept: `text_at` and `note_at` differ in a field alone; one function of both would take a closure and a clause on it, and be no shorter.
// The text of a record, as that stretch of the caller's file; nothing where there is no such record.
pub fn text_at(file: &[u8], k: usize) -> &[u8]
    ensures { result.now ≡ record_text_in file.now (record_answer file.now k) }
{
    let Ok(entry) = record_at(file, k) else {
        return &file[..0];
    };
    entry.text.of(file)
}

// Its note, in the same way.
pub fn note_at(file: &[u8], k: usize) -> &[u8]
    ensures { result.now ≡ record_note_in file.now (record_answer file.now k) }
{
    let Ok(entry) = record_at(file, k) else {
        return &file[..0];
    };
    entry.note.of(file)
}
