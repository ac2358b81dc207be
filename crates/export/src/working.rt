// The export of a span with its working space; a small export clears little of it.
ghost use Rattle.std.specs.Prelude.{◌≡◌, ◌≤◌, length};
ghost use Rattle.book.specs.Books.{most_records};
ghost use Rattle.calendar_writer.specs.DayLists.{most_days};
ghost use Rattle.export.specs.Export.{span_answer, span_leaves, shows_under};
ghost use Rattle.export.specs.Requests.{ValidRequest, Space};

use crate::collecting::collect;
use crate::deciding::answer_for;
use crate::requests::Request;
use crate::settings::settings_for;
use crate::spans::{Filling, Span};
use crate::writing::put_file;
use book::types::MOST_RECORDS;
use calendar_writer::measuring::measure;
use calendar_writer::types::MOST_DAYS;
use day_steps::packing::pack_days;
use prelude::refusals::Refusal;
use sorting::ordering::order_codes;

// A span of so few days of a book of so few records needs little working space.
const FEW_DAYS: usize = 32;

const FEW_RECORDS: usize = 64;

// As many days as the lent lists of days, sums and places have elements.
// Kept: the working space is lent as lists side by side, here and below: no heap, and what is called fills one or two of them at a time.
// Kept: `ValidRequest` in three clauses: a struct that holds it has the count, and each function would ask that the lent lists are as long.
fn export_days(
    file: &[u8],
    q: Request,
    days: &mut [u32],
    sums: &mut [u64],
    places: &mut [usize],
    codes: &mut [u64],
    spare: &mut [u64],
    out: &mut [u8],
) -> Result<usize, Refusal>
    requires valid_request { ValidRequest file.now q (length days.old) }
    requires space { Space q.book.records days.old sums.old places.old codes.old spare.old }
    ensures value { result ≡ span_answer (shows_under q.choice) file.now q.first.day.0 (length days.old) (length out.old) }
    ensures out_after { out.new ≡ span_leaves (shows_under q.choice) file.now q.first.day.0 (length days.old) out.old }
{
    pack_days(q.first, days);
    let span = Span {
        choice: q.choice,
        first: usize::from(q.first.day.0),
        days,
    };
    let n = collect(file, q.book.records, &span, codes, sums);
    let m = measure(sums);
    let length = answer_for(m, out.len())?;
    order_codes(codes, spare, n);
    let filling = Filling {
        file,
        settings: settings_for(q.book.settings),
        sums,
        codes: &codes[..n],
    };
    put_file(&filling, &span, m.descriptors, places, out);
    Ok(length)
}

// The export with space for so many days of a book of so many records.
fn export_in_space<const SPAN: usize, const RECORDS: usize>(
    file: &[u8],
    q: Request,
    count: usize,
    out: &mut [u8],
) -> Result<usize, Refusal>
    requires valid_request { ValidRequest file.now q count }
    requires count_bound { count ≤ SPAN }
    requires records_bound { q.book.records ≤ RECORDS }
    requires span_bound { SPAN ≤ most_days }
    requires records_most { RECORDS ≤ most_records }
    ensures value { result ≡ span_answer (shows_under q.choice) file.now q.first.day.0 count (length out.old) }
    ensures out_after { out.new ≡ span_leaves (shows_under q.choice) file.now q.first.day.0 count out.old }
{
    let mut days = [0u32; SPAN];
    let mut sums = [0u64; SPAN];
    let mut places = [0usize; SPAN];
    let mut codes = [0u64; RECORDS];
    let mut spare = [0u64; RECORDS];
    export_days(
        file,
        q,
        &mut days[..count],
        &mut sums[..count],
        &mut places[..count],
        &mut codes,
        &mut spare,
        out,
    )
}

// Any span has at most 366 days, and a book at most 4,680 records; a short one of a small book clears less.
pub fn export_span(file: &[u8], q: Request, count: usize, out: &mut [u8]) -> Result<usize, Refusal>
    requires { ValidRequest file.now q count }
    ensures value { result ≡ span_answer (shows_under q.choice) file.now q.first.day.0 count (length out.old) }
    ensures out_after { out.new ≡ span_leaves (shows_under q.choice) file.now q.first.day.0 count out.old }
{
    if count <= FEW_DAYS && q.book.records <= FEW_RECORDS {
        return export_in_space::<FEW_DAYS, FEW_RECORDS>(file, q, count, out);
    }
    export_in_space::<MOST_DAYS, MOST_RECORDS>(file, q, count, out)
}
