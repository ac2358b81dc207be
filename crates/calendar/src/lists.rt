// A day's list of appointments: where it lies, and 24 at the first place where none stands.
ghost use Rattle.std.specs.Prelude.{◌≡◌, ◌+◌, ◌-◌, ◌<◌, ◌≤◌, length};
ghost use Rattle.calendar.specs.Lists.{size_at, first_zero, text_ends, appointment_ok, list_walk_from, verdict_in};
ghost use Rattle.calendar.specs.Invariants.{BlockAt, ListIn, ZeroLast};
ghost use Rattle.calendar.specs.Reader.{block_at, list_place, list_end};

use crate::types::Span;
use days::types::LAST_MINUTE;
use prelude::refusals::{Fault, Refusal};
use prelude::slices::word_in;

// Size, flags, minute, and the zero behind the text.
const LEAST_SIZE: usize = 5;

// Where the list of the day lies whose descriptor stands at p.
pub fn span_of(file: &[u8], p: usize) -> Span
    requires p_in_bounds { p + 12 ≤ length file.now }
    requires block_at { BlockAt file.now p }
    ensures { (result.from ≡ list_place file.now (block_at file.now p)) × (result.end ≡ list_end file.now (block_at file.now p)) }
{
    let block = 64 * usize::from(word_in(file, p + 6));
    let from = block + 10 + usize::from(word_in(file, block + 6));
    let end = from + usize::from(word_in(file, block + 8));
    Span { from, end }
}

// The size of the appointment at a place.
pub fn size_at(file: &[u8], at: usize) -> usize
    requires { at < length file.now }
    ensures { (result ≡ size_at file.now at) × (result < 256) }
{
    usize::from(file[at])
}

// Whether the first zero after the minute is the last byte of the appointment at a place: a scan of a few bytes.
fn short_text_ends(file: &[u8], at: usize, size: usize) -> bool
    requires { (5 ≤ size) × (at + size ≤ length file.now) }
    ensures { result ≡ text_ends file.now at size }
{
    let last = size - 1;
    for k in 4..last {
        if file[at + k] == 0 {
            return false;
        }
    }
    file[at + last] == 0
}

// The first zero from a place on, up to one that stands at `end`: a scan that asks for no other end.
// Kept: a `for` or `position` also asks at each byte whether the slice has ended: 5 instructions a byte against 0.4 (callgrind).
fn zero_from(file: &[u8], from: usize, end: usize) -> usize
    requires { ZeroLast file.now from end }
    ensures { result ≡ first_zero (end - from) file.now from }
{
    let mut i = from;
    while file[i] != 0 {
        i += 1;
    }
    i
}

// The same for any text: a long one is scanned up to the zero that was seen at its end, which is quicker.
fn text_ends(file: &[u8], at: usize, size: usize) -> bool
    requires { (5 ≤ size) × (at + size ≤ length file.now) }
    ensures { result ≡ text_ends file.now at size }
{
    if size < 11 {
        return short_text_ends(file, at, size);
    }
    let last = at + size - 1;
    file[last] == 0 && zero_from(file, at + 4, last) == last
}

// Whether an appointment stands at a place of a list that ends at `end`, where the one before began at minute `low`.
fn appointment_ok(file: &[u8], end: usize, low: u16, at: usize) -> bool
    requires { (at < end) × ListIn file.now end }
    ensures { result ≡ appointment_ok file.now end low at }
{
    let size = size_at(file, at);
    if size < LEAST_SIZE || end < at + size || 3 < file[at + 1] {
        return false;
    }
    let minute = word_in(file, at + 2);
    if LAST_MINUTE < minute || minute < low {
        return false;
    }
    text_ends(file, at, size)
}

// A list, from its first appointment to its end.
pub fn judge_list(file: &[u8], span: Span) -> Result<(), Refusal>
    requires { ListIn file.now span.end }
    ensures { result ≡ verdict_in (list_walk_from file.now span.end 0 span.from) }
{
    let mut low: u16 = 0;
    let mut at = span.from;
    while at < span.end {
        if !appointment_ok(file, span.end, low, at) {
            return Err(Fault::BadAppointment.at(at));
        }
        low = word_in(file, at + 2);
        at += size_at(file, at);
    }
    Ok(())
}
