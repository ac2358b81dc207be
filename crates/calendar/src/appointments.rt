// The appointments of a list that was judged: how many, and each by its number.
ghost use Rattle.std.specs.Prelude.{◌≡◌, length};
ghost use Rattle.calendar.specs.Lists.{list_walk_from, places_in_list};
ghost use Rattle.calendar.specs.Shown.{shown_at, appointment_among};
ghost use Rattle.calendar.specs.Invariants.{AppointmentIn, FineList};

use crate::lists::size_at;
use crate::types::{Span, StoredAppointment};
use days::types::Minute;
use prelude::refusals::Refusal;
use prelude::refused::NO_SUCH_NUMBER;
use prelude::slices::{Stretch, word_in};

// The appointment at a place.
fn shown_at(file: &[u8], at: usize) -> StoredAppointment
    requires { AppointmentIn file.now at }
    ensures { result ≡ shown_at file.now at }
{
    let minute = word_in(file, at + 2);
    let flags = u16::from(file[at + 1]);
    let size = size_at(file, at);
    StoredAppointment {
        minute: Minute(minute),
        flags,
        text: Stretch {
            place: at + 4,
            length: size - 5,
        },
    }
}

// How many appointments a list has.
// Kept: this walk and the next count by hand: an iterator of its own with `count` and `nth` is longer than the two loops. File and span stand apart here and in lists: the walk asks of places of the file.
pub fn count_list(file: &[u8], span: Span) -> usize
    requires { FineList file.now span.end span.from }
    ensures { result ≡ length (places_in_list (list_walk_from file.now span.end 0 span.from)) }
{
    let mut n: usize = 0;
    let mut at = span.from;
    while at < span.end {
        at += size_at(file, at);
        n += 1;
    }
    n
}

// The k-th appointment of a list, or 10.
pub fn appointment_in(file: &[u8], span: Span, k: usize) -> Result<StoredAppointment, Refusal>
    requires { FineList file.now span.end span.from }
    ensures { result ≡ appointment_among file.now k (places_in_list (list_walk_from file.now span.end 0 span.from)) }
{
    let mut i: usize = 0;
    let mut at = span.from;
    while at < span.end {
        if i == k {
            return Ok(shown_at(file, at));
        }
        at += size_at(file, at);
        i += 1;
    }
    Err(NO_SUCH_NUMBER)
}
