// Reading a Calendar file: head, table, then each day's block and list. One pass, linear in what they hold.
ghost use Rattle.std.specs.Prelude.{◌≡◌};
ghost use Rattle.calendar.specs.Reader.{block_ok, day_verdict, days_from, calendar_of};
ghost use Rattle.calendar.specs.Invariants.{WholeTable, InTable};

use crate::head::{count_of, is_calendar, judge_table};
use crate::lists::{judge_list, span_of};
use crate::types::LAST_BLOCK;
use prelude::refusals::{Fault, Refusal};
use prelude::refused::{CALENDAR_TOO_LONG, NOT_A_CALENDAR};
use prelude::slices::word_in;

// Whether the block of the descriptor at p lies behind the table and in the file, and is that day's.
fn block_ok(file: &[u8], p: usize, table_end: usize) -> bool
    requires { InTable file.now table_end p }
    ensures { result ≡ block_ok file.now p }
{
    let offset = usize::from(word_in(file, p + 6));
    let block = 64 * offset;
    if LAST_BLOCK < offset || block < table_end || file.len() < block + 10 {
        return false;
    }
    if word_in(file, block) != 0
        || word_in(file, block + 2) != word_in(file, p)
        || word_in(file, block + 4) != 1
    {
        return false;
    }
    let notes = usize::from(word_in(file, block + 6));
    let appointments = usize::from(word_in(file, block + 8));
    block + 10 + notes + appointments <= file.len()
}

// The day whose descriptor stands at p: 23, then 24.
fn judge_day(file: &[u8], p: usize, table_end: usize) -> Result<(), Refusal>
    requires { InTable file.now table_end p }
    ensures { result ≡ day_verdict file.now p }
{
    if !block_ok(file, p, table_end) {
        return Err(Fault::BadBlock.at(p));
    }
    judge_list(file, span_of(file, p))
}

// Each day in turn.
fn judge_days(file: &[u8], count: usize) -> Result<(), Refusal>
    requires { WholeTable file.now count }
    ensures { result ≡ days_from count file.now 64 }
{
    let table_end = 64 + 12 * count;
    for k in 0..count {
        judge_day(file, 64 + 12 * k, table_end)?;
    }
    Ok(())
}

// The number of days of a Calendar file, or its refusal.
pub fn read_calendar(file: &[u8]) -> Result<usize, Refusal>
    ensures { result ≡ calendar_of file.now }
{
    if 2228224 < file.len() {
        return Err(CALENDAR_TOO_LONG);
    }
    if !is_calendar(file) {
        return Err(NOT_A_CALENDAR);
    }
    let count = count_of(file);
    if file.len() < 64 + 12 * count {
        return Err(Fault::BadTable.at(64));
    }
    judge_table(file, count)?;
    judge_days(file, count)?;
    Ok(count)
}
