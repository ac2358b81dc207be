// A book read with its list of cancelled days: the book's own refusals, then 43.
ghost use Rattle.std.specs.Prelude.{◌≡◌};
ghost use Rattle.cancelled.specs.Cancelled.{book_with};

use crate::judging::judge_list;
use book::reading::read_book;
use book::types::Book;
use prelude::refusals::Refusal;

// The settings and the number of records of a book, or the refusal of the book or its list.
pub fn read_with(file: &[u8], list: &[u32]) -> Result<Book, Refusal>
    ensures { result ≡ book_with file.now list.now }
{
    let b = read_book(file)?;
    judge_list(file, b.records, list)?;
    Ok(b)
}
