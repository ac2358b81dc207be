// A day's page: how many lines it has, and the line at a place.
ghost use Rattle.std.specs.Prelude.{◌≡◌, ◌≤◌};
ghost use Rattle.book.specs.Books.{most_records};
ghost use Rattle.pages.specs.Answers.{page_line_in, line_text, page_count, page_line_at};
ghost use Rattle.pages.specs.Invariants.{ReadyBook};
ghost use Rattle.pages.specs.Pages.{falls_on};

use crate::collecting::count_lines;
use crate::ordering::{line_of, page_codes};
use crate::types::{Line, Ready};
use crate::validating::validate;
use book::types::MOST_RECORDS;
use days::types::CalendarDay;
use falls::types::ShortMonth;
use prelude::refusals::Refusal;
use prelude::refused::NO_SUCH_NUMBER;

// A book of up to so many records needs little working space.
const FEW_RECORDS: usize = 64;

// The number of lines of a day's page.
#[tactic(auto, unfolding(crate::specs::Answers::page_count_in))]
pub fn page_lines(file: &[u8], n: CalendarDay, c: ShortMonth) -> Result<usize, Refusal>
    ensures { result ≡ page_count (falls_on c) file.now n }
{
    let a = validate(file, n)?;
    Ok(count_lines(file, c, a))
}

// The line at a place, by way of working space for N records.
fn line_with<const N: usize>(
    file: &[u8],
    c: ShortMonth,
    k: usize,
    a: Ready,
) -> Result<Line, Refusal>
    requires ready_book { ReadyBook file.now a }
    requires records_in_bounds { a.records ≤ N }
    requires size { N ≤ most_records }
    ensures { result ≡ page_line_in (falls_on c) file.now k (Ok a) }
{
    // Kept: arrays on the stack with a count beside: nothing here has a heap.
    let mut codes = [0u64; N];
    let mut spare = [0u64; N];
    let n = page_codes(file, c, a, &mut codes, &mut spare);
    if k < n {
        return Ok(line_of(file, a.facts, codes[k]));
    }
    Err(NO_SUCH_NUMBER)
}

fn line_in(file: &[u8], c: ShortMonth, k: usize, a: Ready) -> Result<Line, Refusal>
    requires { ReadyBook file.now a }
    ensures { result ≡ page_line_in (falls_on c) file.now k (Ok a) }
{
    if a.records <= FEW_RECORDS {
        return line_with::<FEW_RECORDS>(file, c, k, a);
    }
    line_with::<MOST_RECORDS>(file, c, k, a)
}

// The line at a place of a day's page.
#[tactic(auto, unfolding(crate::specs::Answers::page_line_in))]
pub fn line_at(file: &[u8], n: CalendarDay, c: ShortMonth, k: usize) -> Result<Line, Refusal>
    ensures { result ≡ page_line_at (falls_on c) file.now n k }
{
    let a = validate(file, n)?;
    line_in(file, c, k, a)
}

// The text of that line, as that stretch of the caller's file; nothing where there is no such line.
#[tactic(auto, unfolding(crate::specs::Answers::line_text))]
pub fn line_text(file: &[u8], n: CalendarDay, c: ShortMonth, k: usize) -> &[u8]
    ensures { result.now ≡ line_text file.now (page_line_at (falls_on c) file.now n k) }
{
    let Ok(line) = line_at(file, n, c, k) else {
        return &file[..0];
    };
    line.text.of(file)
}
