// What stands at a place of an accepted book: whether it falls on a day, its times, its text, its rule.
#![tactic(auto, unfolding(book::specs::Books::entry_at))]

ghost use Rattle.std.specs.Prelude.{◌≡◌, ◌+◌, ◌≤◌};
ghost use Rattle.records.specs.Fields.{fixed_of, text_length};
ghost use Rattle.book.specs.Books.{entry_at, most_book_bytes};
ghost use Rattle.falls.specs.Falls.{falls};
ghost use Rattle.falls.specs.Moved.{named_day, falling};
ghost use Rattle.falls.specs.Times.{times_of};
ghost use Rattle.occurrences.specs.Rules.{rule_of};

use crate::types::Listed;
use book::entries::{HEAD, body_from};
use book::located::RecordRef;
use days::types::{DayFacts, Minute};
use falls::moved::{falling_on, named_day};
use falls::rules::falls_quickly;
use falls::times::{start_of, times_of};
use falls::types::{Falling, ShortMonth};
use occurrences::reading::rule_of;
use occurrences::types::Rule;
use prelude::slices::{Stretch, byte};
use records::fields::{fixed_of, text_length};

// Whether a record falls on a day, for a pass over the book. Inlined there: a call takes `here` through memory, 20 instructions more a record.
// Kept: choice and facts side by side, here and below, as `falls_quickly` and `falling_on` take them.
#[inline]
pub fn falls_at(here: RecordRef<'_>, c: ShortMonth, f: DayFacts) -> bool
    ensures { result ≡ falls c f (entry_at here.entry.file.now here.entry.at).«record» }
{
    falls_quickly(c, f, here.kind(), here.body())
}

// Whether it falls on a day, and if so whether it was moved there.
pub fn falling_at(here: RecordRef<'_>, c: ShortMonth, f: DayFacts) -> Falling
    ensures { result ≡ falling c f (entry_at here.entry.file.now here.entry.at).«record» }
{
    falling_on(c, f, here.kind(), here.body())
}

// Its start minute.
pub fn start_at(here: RecordRef<'_>) -> Minute
    ensures { result ≡ (times_of (entry_at here.entry.file.now here.entry.at).«record»).start }
{
    start_of(here.kind(), here.body())
}

// Where the text lies of the record of a type and body at a place.
// Kept: here and below a place with a bound, type and body, no `RecordRef`: `listed_at` and `rule_at` ask less than that one holds.
fn text_in(at: usize, t: u8, p: &[u8]) -> Stretch
    requires { at ≤ most_book_bytes }
    ensures { result ≡ record { place = at + 3 + fixed_of t; length = text_length t p.now } }
{
    Stretch {
        place: at + HEAD + fixed_of(t),
        length: usize::from(text_length(t, p)),
    }
}

// What a page lists of it, in one reading. Nothing is asked of the place but that it is one of a book.
pub fn listed_at(file: &[u8], at: usize) -> Listed
    requires { at ≤ most_book_bytes }
    ensures times_value { result.times ≡ times_of (entry_at file.now at).«record» }
    ensures named_value { result.named ≡ named_day (entry_at file.now at).«record» }
    ensures text_value { result.text ≡ (entry_at file.now at).text }
{
    let t = byte(file, at);
    let p = body_from(file, at);
    Listed {
        times: times_of(t, p),
        named: named_day(t, p),
        text: text_in(at, t, p),
    }
}

// Its rule.
pub fn rule_at(file: &[u8], at: usize) -> Rule
    requires { at ≤ most_book_bytes }
    ensures { result ≡ rule_of (entry_at file.now at).«record» }
{
    rule_of(byte(file, at), body_from(file, at))
}
