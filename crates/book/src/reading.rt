// Reading a book: one pass from record to record, linear in the file.
ghost use Rattle.std.specs.Prelude.{◌≡◌, ◌≤◌, length};
ghost use Rattle.book.specs.Walk.{walk_of};
ghost use Rattle.book.specs.Books.{counted, book_of};
ghost use Rattle.book.specs.Settings.{first_record};

use crate::entries::HEAD;
use crate::fillers::after_end_record;
use crate::settings::{FIRST_RECORD, is_identified, settings_of, settings_ok};
use crate::steps::step_at;
use crate::types::{Book, MOST_BOOK_BYTES};
use prelude::refusals::{Fault, Refusal};
use prelude::refused::{BOOK_TOO_LONG, NOT_A_BOOK};

// Kept: `first_record ≤ length file` here, in `place_from` and `place_of`, and in `judge_list` of cancelled: an accepted book has it, and a type for it alone would be taken apart at once.
fn read_records(file: &[u8]) -> Result<Book, Refusal>
    requires { first_record ≤ length file.now }
    ensures { result ≡ counted file.now 0 (walk_of file.now) }
{
    let mut records: usize = 0;
    let mut at: usize = FIRST_RECORD;
    while let Some(next) = step_at(file, at)? {
        records += 1;
        at = next;
    }
    after_end_record(file, at + HEAD)?;
    Ok(Book {
        settings: settings_of(file),
        records,
    })
}

// The settings and the number of records of a book, or its refusal.
pub fn read_book(file: &[u8]) -> Result<Book, Refusal>
    ensures { result ≡ book_of file.now }
{
    if file.len() > MOST_BOOK_BYTES {
        return Err(BOOK_TOO_LONG);
    }
    if !is_identified(file) {
        return Err(NOT_A_BOOK);
    }
    if !settings_ok(file) {
        return Err(Fault::BadSettings.at(5));
    }
    read_records(file)
}
