// The export of a book's days as a Calendar file: the book's refusals, then 11, 13, 12.
ghost use Rattle.std.specs.Prelude.{◌≡◌, length};
ghost use Rattle.export.specs.Export.{export_answer, export_leaves, shows_under};
ghost use Rattle.export.specs.Demand.{Demand3};

use crate::deciding::span_ok;
use crate::requests::Request;
use crate::working::export_span;
use book::reading::read_book;
use days::facts::facts_of_day;
use days::types::CalendarDay;
use falls::types::ShortMonth;
use prelude::refusals::Refusal;
use prelude::refused::OUT_OF_RANGE;

// The export of count days from the first on into the buffer, from its start on.
pub fn export(
    file: &[u8],
    first: CalendarDay,
    count: u16,
    c: ShortMonth,
    out: &mut [u8],
) -> Result<usize, Refusal>
    ensures value { result ≡ export_answer (shows_under c) file.now first.0 count (length out.old) }
    ensures out_after { out.new ≡ export_leaves (shows_under c) file.now first.0 count out.old }
    ensures demand3 { Demand3 (shows_under c) file.now first.0 count out.old result out.new }
{
    let book = read_book(file)?;
    if !span_ok(first.0, count) {
        return Err(OUT_OF_RANGE);
    }
    let q = Request {
        book,
        first: facts_of_day(first)?,
        choice: c,
    };
    export_span(file, q, usize::from(count), out)
}
