// The whole file into a lent buffer, in file order: head, table, zeros up to the first block, blocks.
ghost use Rattle.std.specs.Prelude.{◌≡◌, ◌+◌, ◌≤◌, length};
ghost use Rattle.prelude.specs.Splice.{splice};
ghost use Rattle.calendar.specs.File.{file_of};
ghost use Rattle.calendar_writer.specs.DayLists.{days_with, most_days};
ghost use Rattle.export.specs.Export.{appointments_for, shows_under};
ghost use Rattle.export.specs.Invariants.{ReadyToFill};
ghost use Rattle.export.specs.Passes.{marked};

use crate::filling::put_days;
use crate::spans::{Filling, Span};
use calendar_writer::measuring::first_unit;
use calendar_writer::puts::{put_head, put_table, put_zeros};

// The file of n days with appointments.
// Kept: `places_len`, as in filling; n beside the span, as it was counted with the measure.
pub fn put_file(
    filling: &Filling,
    span: &Span,
    n: usize,
    places: &mut [usize],
    out: &mut [u8],
) -> usize
    requires ready_to_fill { ReadyToFill filling.now.file.now (shows_under span.now.choice) span.now.first (marked span.now.choice span.now.days.now) span.now.days.now filling.now.sums.now filling.now.codes.now }
    requires days_len_bound { length span.now.days.now ≤ most_days }
    requires places_len { length places.old ≡ length span.now.days.now }
    requires n_value { n ≡ length (days_with (appointments_for (shows_under span.now.choice) filling.now.file.now filling.now.settings.interval) (length span.now.days.now) span.now.first) }
    requires first_in_bounds { 0 + length (file_of filling.now.settings (days_with (appointments_for (shows_under span.now.choice) filling.now.file.now filling.now.settings.interval) (length span.now.days.now) span.now.first)) ≤ length out.old }
    ensures next { result ≡ 0 + length (file_of filling.now.settings (days_with (appointments_for (shows_under span.now.choice) filling.now.file.now filling.now.settings.interval) (length span.now.days.now) span.now.first)) }
    ensures put { out.new ≡ splice out.old 0 (file_of filling.now.settings (days_with (appointments_for (shows_under span.now.choice) filling.now.file.now filling.now.settings.interval) (length span.now.days.now) span.now.first)) }
{
    let unit = first_unit(n);
    let table = put_head(out, 0, filling.settings, n);
    let end = put_table(out, table, span.first, filling.sums, unit);
    let start = put_zeros(out, end, 64 * unit - end);
    put_days(filling, span, places, out, start)
}
