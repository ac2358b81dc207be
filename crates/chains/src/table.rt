// The Single Occurrence Table: its entries, their heads and dates, and 31.
ghost use Rattle.std.specs.Prelude.{◌≡◌, ℕ, ◌+◌, ◌*◌, ◌<◌, ◌≤◌, length, MatchResult};
ghost use Rattle.prelude.specs.Refusals.{refusal_at, bad_day_table};
ghost use Rattle.prelude.specs.Verdicts.{in_turn};
ghost use Rattle.prelude.specs.Bytes.{byte};
ghost use Rattle.chains.specs.Chains.{entries, head_at, entry_verdict};
ghost use Rattle.chains.specs.Dates.{date_number};

use crate::records::NO_RECORD;
use prelude::refusals::{Fault, Refusal};
use prelude::slices::word_in;

// Five bytes an entry; the days are the entries before the last.
#[derive(Clone, Copy)]
pub struct Table<'a> {
    pub bytes: &'a [u8],
    pub days: usize,
    ghost counted: { days + 1 ≡ entries bytes.now },
    ghost of_bytes: { (i : ℕ) → byte bytes.now i < 256 },
}

impl<'a> Table<'a> {
    // A table that is not empty; a last entry that is cut short is one of its entries.
    pub fn new(bytes: &'a [u8]) -> Result<Table<'a>, Refusal>
        ensures { MatchResult result (λ t. t.bytes.now ≡ bytes.now) (λ e. (e ≡ refusal_at bad_day_table 0) × (entries bytes.now ≡ 0)) }
    {
        match bytes.len().div_ceil(5) {
            0 => Err(Fault::BadDayTable.at(0)),
            entries => Ok(Table {
                bytes,
                days: entries - 1,
            }),
        }
    }

    // The first record of an entry's day.
    pub fn head_at(&self, i: usize) -> u16
        requires { 5 * i + 5 ≤ length self.now.bytes.now }
        ensures { result ≡ head_at self.now.bytes.now i }
    {
        word_in(self.bytes, 5 * i + 3)
    }

    // The date of an entry as a number, which grows as its bytes do, the first one first.
    fn date_at(&self, i: usize) -> u32
        requires { 5 * i + 5 ≤ length self.now.bytes.now }
        ensures { (result ≡ date_number self.now.bytes.now i) × (result < 16777216) }
    {
        let year = self.bytes[5 * i];
        let month = self.bytes[5 * i + 1];
        let day = self.bytes[5 * i + 2];
        u32::from_be_bytes([0, year, month, day])
    }

    // 31 at the first bad entry: low is the least date that may come.
    // Kept: a loop of its own beside `judge_in_turn`, since low goes from entry to entry.
    pub fn judge(&self) -> Result<(), Refusal>
        ensures { result ≡ in_turn (entry_verdict self.now.bytes.now) (self.now.days + 1) 0 }
    {
        let mut low = 0;
        for i in 0..self.days {
            let date = self.date_at(i);
            if self.head_at(i) == NO_RECORD || date < low {
                return Err(Fault::BadDayTable.at(i));
            }
            low = date + 1;
        }
        if self.bytes.len() - 5 * self.days < 5 || self.head_at(self.days) != NO_RECORD {
            return Err(Fault::BadDayTable.at(self.days));
        }
        Ok(())
    }
}
