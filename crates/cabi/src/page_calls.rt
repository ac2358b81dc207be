// Day pages, lent and printed, the next occurrence, and the short-month choice of a caller who names none.
ghost use Rattle.std.specs.Prelude.{◌≡◌, length};
ghost use Rattle.falls.specs.Falls.{default_choice};
ghost use Rattle.pages.specs.Answers.{page_count, page_line_at, next_occurrence, record_falls};
ghost use Rattle.pages.specs.Pages.{falls_on};
ghost use Rattle.printing.specs.Answers.{page_length, print_gives, print_left};
ghost use Rattle.marshal.specs.PageAnswers.{choice_of, day_of, falls_out, page_line_out, next_out};
ghost use Rattle.marshal.specs.CountAnswers.{count_out};

use days::types::CalendarDay;
use falls::choice::default_choice;
use falls::types::ShortMonth;
use marshal::count_answers::CountOut;
use marshal::page_answers::{FallsOut, OccurrenceOut, PageLineOut, choice_of, last_of};

#[unsafe(no_mangle)]
pub extern "C" fn apptbook_default_last() -> bool
    ensures { choice_of result ≡ default_choice }
{
    let c: ShortMonth = default_choice();
    last_of(c)
}

#[unsafe(no_mangle)]
pub extern "C" fn apptbook_falls_on(file: &[u8], record: usize, day: u16, last: bool) -> FallsOut
    ensures { result ≡ falls_out (record_falls file.now (choice_of last) (day_of day) «record») }
{
    let c: ShortMonth = choice_of(last);
    let n = CalendarDay(day);
    FallsOut::from(pages::next::record_falls(file, record, n, c))
}

#[unsafe(no_mangle)]
pub extern "C" fn apptbook_page_lines(file: &[u8], day: u16, last: bool) -> CountOut
    ensures { result ≡ count_out (page_count (falls_on (choice_of last)) file.now (day_of day)) }
{
    let c: ShortMonth = choice_of(last);
    let n = CalendarDay(day);
    CountOut::from(pages::lines::page_lines(file, n, c))
}

#[unsafe(no_mangle)]
pub extern "C" fn apptbook_page_line(file: &[u8], day: u16, last: bool, line: usize) -> PageLineOut
    ensures { result ≡ page_line_out (page_line_at (falls_on (choice_of last)) file.now (day_of day) line) }
{
    let c: ShortMonth = choice_of(last);
    let n = CalendarDay(day);
    PageLineOut::from(pages::lines::line_at(file, n, c, line))
}

#[unsafe(no_mangle)]
pub extern "C" fn apptbook_next_occurrence(
    file: &[u8],
    record: usize,
    day: u16,
    last: bool,
) -> OccurrenceOut
    ensures { result ≡ next_out (next_occurrence (falls_on (choice_of last)) file.now (day_of day) «record») }
{
    let c: ShortMonth = choice_of(last);
    let n = CalendarDay(day);
    OccurrenceOut::from(pages::next::next_occurrence(file, record, n, c))
}

#[unsafe(no_mangle)]
pub extern "C" fn apptbook_page_length(file: &[u8], day: u16, last: bool) -> CountOut
    ensures { result ≡ count_out (page_length (falls_on (choice_of last)) file.now (day_of day)) }
{
    let c: ShortMonth = choice_of(last);
    let n = CalendarDay(day);
    CountOut::from(printing::calls::page_length(file, n, c))
}

#[unsafe(no_mangle)]
pub extern "C" fn apptbook_print_page(
    file: &[u8],
    day: u16,
    last: bool,
    buffer: &mut [u8],
) -> CountOut
    ensures gives { result ≡ count_out (print_gives (falls_on (choice_of last)) file.now (day_of day) (length buffer.old)) }
    ensures leaves { buffer.new ≡ print_left (falls_on (choice_of last)) file.now (day_of day) buffer.old }
{
    let c: ShortMonth = choice_of(last);
    let n = CalendarDay(day);
    CountOut::from(printing::calls::print_page(file, n, c, buffer))
}
