// What an accepted Calendar file shows: the descriptors by number, and the appointments of a day. Each call gives the file's own refusal first.
ghost use Rattle.std.specs.Prelude.{◌≡◌, [], MatchOption};
ghost use Rattle.calendar.specs.Shown.{descriptor_answer, count_answer, appointment_answer, appointment_text_in, places_on};
ghost use Rattle.calendar.specs.Invariants.{AcceptedFile, ListOn};

use crate::appointments::{appointment_in, count_list};
use crate::lists::span_of;
use crate::reading::read_calendar;
use crate::types::{Descriptor, Span, StoredAppointment};
use days::types::{CalendarDay, LAST_DAY};
use prelude::refusals::Refusal;
use prelude::refused::{NO_SUCH_NUMBER, OUT_OF_RANGE};
use prelude::slices::word_in;

// The day and the block offset at a place of the table, as stored.
pub fn descriptor_at(file: &[u8], k: usize) -> Result<Descriptor, Refusal>
    ensures { result ≡ descriptor_answer file.now k }
{
    let n = read_calendar(file)?;
    if n <= k {
        return Err(NO_SUCH_NUMBER);
    }
    let p = 64 + 12 * k;
    let day = CalendarDay(word_in(file, p));
    let offset = word_in(file, p + 6);
    Ok(Descriptor { day, offset })
}

// Where the list of a day lies; none where it has no descriptor.
fn span_on(file: &[u8], day: u16, n: usize) -> Option<Span>
    requires { AcceptedFile file.now n }
    ensures { MatchOption result (places_on file.now day ≡ []) (λ s. ListOn file.now day s.from s.end) }
{
    for k in 0..n {
        let p = 64 + 12 * k;
        if word_in(file, p) == day {
            return Some(span_of(file, p));
        }
    }
    None
}

// How many appointments a day has.
pub fn appointment_count(file: &[u8], day: CalendarDay) -> Result<usize, Refusal>
    ensures { result ≡ count_answer file.now day.0 }
{
    let n = read_calendar(file)?;
    if LAST_DAY < day.0 {
        return Err(OUT_OF_RANGE);
    }
    match span_on(file, day.0, n) {
        Some(span) => Ok(count_list(file, span)),
        None => Ok(0),
    }
}

// The k-th appointment of a day.
pub fn appointment_at(file: &[u8], day: CalendarDay, k: usize) -> Result<StoredAppointment, Refusal>
    ensures { result ≡ appointment_answer file.now day.0 k }
{
    let n = read_calendar(file)?;
    if LAST_DAY < day.0 {
        return Err(OUT_OF_RANGE);
    }
    match span_on(file, day.0, n) {
        Some(span) => appointment_in(file, span, k),
        None => Err(NO_SUCH_NUMBER),
    }
}

// Its text, as that stretch of the caller's file; nothing where there is no such appointment.
pub fn text_at(file: &[u8], day: CalendarDay, k: usize) -> &[u8]
    ensures { result.now ≡ appointment_text_in file.now (appointment_answer file.now day.0 k) }
{
    let Ok(e) = appointment_at(file, day, k) else {
        return &file[..0];
    };
    e.text.of(file)
}
