// Filling the blocks of a span: first each with its appointments left zero, then record by record each appointment on its days.
ghost use Rattle.std.specs.Prelude.{◌≡◌, ◌+◌, ◌<◌, ◌≤◌, length};
ghost use Rattle.prelude.specs.Bytes.{bit};
ghost use Rattle.prelude.specs.Splice.{splice};
ghost use Rattle.pages.specs.Codes.{place_in, decode};
ghost use Rattle.calendar.specs.File.{appointment_bytes};
ghost use Rattle.export.specs.Export.{special_time, appointment_of, shows_under};
ghost use Rattle.calendar_writer.specs.Sums.{rows};
ghost use Rattle.calendar_writer.specs.Scatter.{Added, Roomy, scatter};
ghost use Rattle.export.specs.Invariants.{ReadyToFill};
ghost use Rattle.export.specs.Passes.{Sound, marked, so_far};

use crate::scattering::put_hits;
use crate::spans::{Filling, Span};
use calendar_writer::placing::put_blanks;
use calendar_writer::puts::put_appointment;
use days::types::Minute;
use pages::codes::place_in;
use pages::places::{listed_at, rule_at};

// Flag 1 by the alarm mark, flag 2 by the interval.
fn flags_of(alarm: bool, minute: Minute, interval: u16) -> u8
    requires { 0 < interval }
    ensures { result ≡ bit alarm + special_time interval minute.0 }
{
    u8::from(alarm) + 2 * u8::from(minute.0 % interval != 0)
}

// Puts the appointment of a code's record on its days.
// Kept: `places_len` here and below: a struct of a span and lent places is taken apart at `put_blanks`, whose clauses take the slice.
fn fill_code(filling: &Filling, span: &Span, code: u64, places: &mut [usize], out: &mut [u8])
    requires sound { Sound filling.now.file.now (place_in code) }
    requires places_len { length places.old ≡ length span.now.days.now }
    requires roomy { Roomy (λ k. marked span.now.choice span.now.days.now k (decode filling.now.file.now code)) (length span.now.days.now) (length (appointment_bytes (appointment_of filling.now.file.now filling.now.settings.interval (decode filling.now.file.now code)))) places.old (length out.old) }
    ensures added { Added (λ k. marked span.now.choice span.now.days.now k (decode filling.now.file.now code)) (length (appointment_bytes (appointment_of filling.now.file.now filling.now.settings.interval (decode filling.now.file.now code)))) (length span.now.days.now) places.old places.new }
    ensures out_after { out.new ≡ scatter (length span.now.days.now) (λ k. marked span.now.choice span.now.days.now k (decode filling.now.file.now code)) (appointment_bytes (appointment_of filling.now.file.now filling.now.settings.interval (decode filling.now.file.now code))) places.old 0 out.old }
{
    let file = filling.file;
    let at = place_in(code);
    let listed = listed_at(file, at);
    let start = listed.times.start;
    let flags = flags_of(listed.times.alarm, start, filling.settings.interval);
    let text = listed.text.of(file);
    // Kept: a piece with its size beside it: nothing here has a heap.
    let mut piece = [0u8; 32];
    let size = put_appointment(&mut piece, 0, start, flags, text);
    let r = rule_at(file, at);
    put_hits(span, r, &piece[..size], places, out);
}

// The blocks of the days from the first on, whole.
pub fn put_days(
    filling: &Filling,
    span: &Span,
    places: &mut [usize],
    out: &mut [u8],
    at: usize,
) -> usize
    requires ready_to_fill { ReadyToFill filling.now.file.now (shows_under span.now.choice) span.now.first (marked span.now.choice span.now.days.now) span.now.days.now filling.now.sums.now filling.now.codes.now }
    requires places_len { length places.old ≡ length span.now.days.now }
    requires sums_in_bounds { at + length (rows (so_far filling.now.file.now filling.now.settings.interval (marked span.now.choice span.now.days.now) filling.now.codes.now (length filling.now.codes.now)) span.now.first 0 filling.now.sums.now) ≤ length out.old }
    ensures next { result ≡ at + length (rows (so_far filling.now.file.now filling.now.settings.interval (marked span.now.choice span.now.days.now) filling.now.codes.now (length filling.now.codes.now)) span.now.first 0 filling.now.sums.now) }
    ensures put { out.new ≡ splice out.old at (rows (so_far filling.now.file.now filling.now.settings.interval (marked span.now.choice span.now.days.now) filling.now.codes.now (length filling.now.codes.now)) span.now.first 0 filling.now.sums.now) }
{
    let end = put_blanks(out, at, span.first, filling.sums, places);
    for &code in filling.codes {
        fill_code(filling, span, code, places, out);
    }
    end
}
