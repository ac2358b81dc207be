// The six settings of the Calendar file, from those of the book.
ghost use Rattle.std.specs.Prelude.{◌≡◌};
ghost use Rattle.export.specs.Export.{code_of, interval_of, settings_for};

use book::types::Settings;
use calendar::types::CalendarSettings;

// Kept: two tables of document 01, a function each, from number to number as the file has them.
fn code_of(granularity: u16) -> u16
    ensures { result ≡ code_of granularity }
{
    match granularity {
        15 => 0,
        60 => 2,
        _ => 1,
    }
}

fn interval_of(granularity: u16) -> u16
    ensures { result ≡ interval_of granularity }
{
    match granularity {
        15 => 15,
        60 => 60,
        _ => 30,
    }
}

// Kept: a function, no `From`, since neither type is of this crate.
pub fn settings_for(s: Settings) -> CalendarSettings
    ensures { result ≡ settings_for s }
{
    CalendarSettings {
        ring: s.lead,
        sound: u16::from(s.alarm),
        code: code_of(s.granularity),
        interval: interval_of(s.granularity),
        hours24: 1,
        start: s.start,
    }
}
