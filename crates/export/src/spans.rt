// The days of an export, and what is filled in on them.
ghost use Rattle.std.specs.Prelude.{◌<◌};
ghost use Rattle.day_steps.specs.Codes.{Spanned};

use calendar::types::CalendarSettings;
use falls::types::ShortMonth;

// Kept: slices beside one another, lent from `export_days`: nothing here has a heap. The span is no field of `Filling`: the borrow checker took it for one at another lifetime.
// A span: the choice for short months, the first day, and the days' codes.
#[derive(Clone, Copy)]
pub struct Span<'a> {
    pub choice: ShortMonth,
    pub first: usize,
    pub days: &'a [u32],
    ghost spanned: { Spanned first days.now },
}

// What a span is filled from: the book, the settings, the sums of the days, and the codes of the records that show on one.
#[derive(Clone, Copy)]
pub struct Filling<'a> {
    pub file: &'a [u8],
    pub settings: CalendarSettings,
    pub sums: &'a [u64],
    pub codes: &'a [u64],
    ghost some: { 0 < settings.interval },
}
