// A book's first twelve bytes: identification and settings.
ghost use Rattle.std.specs.Prelude.{◌≡◌};
ghost use Rattle.book.specs.Settings.{book_identified, settings_in_range, settings_of, flags_ok, settings_ok};

use crate::types::Settings;
use days::types::{LAST_MINUTE, Minute};
use prelude::slices::{byte, word};
use records::ranges::MOST_LEAD;

const MARK: [u8; 5] = [0xFF, 0xFF, 0x01, 0x00, 0x01];

const MOST_GRANULARITY: u16 = 720;

// Behind identification and settings.
pub const FIRST_RECORD: usize = 12;

pub fn is_identified(file: &[u8]) -> bool
    ensures { result ≡ book_identified file.now }
{
    file.starts_with(&MARK)
}

// Kept: the range of the granularity by two tests; with `contains` a probe read books in two instructions a record more, since this is inlined.
pub fn settings_in_range(s: Settings) -> bool
    ensures { result ≡ settings_in_range s }
{
    s.start.0 <= LAST_MINUTE
        && 1 <= s.granularity
        && s.granularity <= MOST_GRANULARITY
        && s.lead <= MOST_LEAD
}

pub fn settings_of(file: &[u8]) -> Settings
    ensures { result ≡ settings_of file.now }
{
    Settings {
        start: Minute(word(file, 5)),
        granularity: word(file, 7),
        alarm: byte(file, 9) == 1,
        lead: u16::from(byte(file, 10)),
        carry_forward: byte(file, 11) == 1,
    }
}

fn flags_ok(alarm: u8, carry: u8) -> bool
    ensures { result ≡ flags_ok alarm carry }
{
    alarm <= 1 && carry <= 1
}

pub fn settings_ok(file: &[u8]) -> bool
    ensures { result ≡ settings_ok file.now }
{
    file.len() >= FIRST_RECORD
        && settings_in_range(settings_of(file))
        && flags_ok(byte(file, 9), byte(file, 11))
}
