// A Calendar file's head and its table of descriptors: 21 and 22.
ghost use Rattle.std.specs.Prelude.{◌≡◌, ◌+◌, ◌*◌, ◌<◌, ◌≤◌, length};
ghost use Rattle.calendar.specs.Reader.{calendar_identified, count_of, table_from};

use crate::types::MARK;
use days::types::LAST_DAY;
use prelude::refusals::{Fault, Refusal};
use prelude::slices::word_in;

// Whether the file has a head with its eight bytes.
pub fn is_calendar(file: &[u8]) -> bool
    ensures { result ≡ calendar_identified file.now }
{
    file.len() >= 64 && file.starts_with(&MARK)
}

// The number of descriptors.
pub fn count_of(file: &[u8]) -> usize
    requires { 64 ≤ length file.now }
    ensures { (result ≡ count_of file.now) × (result < 65536) }
{
    usize::from(word_in(file, 8))
}

// The days of the table, each a Calendar day and each later than the one before.
pub fn judge_table(file: &[u8], count: usize) -> Result<(), Refusal>
    requires { 64 + 12 * count ≤ length file.now }
    ensures { result ≡ table_from count file.now 64 0 }
{
    let mut low: u16 = 0;
    for k in 0..count {
        let p = 64 + 12 * k;
        let day = word_in(file, p);
        if LAST_DAY < day || day < low {
            return Err(Fault::BadTable.at(p));
        }
        low = day + 1;
    }
    Ok(())
}
