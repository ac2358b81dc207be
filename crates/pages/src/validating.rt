// What every question about a book and a day asks first: the book's refusals, then 11.
ghost use Rattle.std.specs.Prelude.{◌≡◌};
ghost use Rattle.pages.specs.Answers.{validated};

use crate::types::Ready;
use book::reading::read_book;
use days::facts::facts_of_day;
use days::types::CalendarDay;
use prelude::refusals::Refusal;

// The number of records and the day's facts, or the refusal.
pub fn validate(file: &[u8], n: CalendarDay) -> Result<Ready, Refusal>
    ensures { result ≡ validated file.now n }
{
    // Kept: `read_book(file)?` took 19 instructions more a question, 5 % in a book of one record.
    match read_book(file) {
        Ok(book) => {
            let facts = facts_of_day(n)?;
            Ok(Ready {
                records: book.records,
                facts,
            })
        }
        Err(e) => Err(e),
    }
}
