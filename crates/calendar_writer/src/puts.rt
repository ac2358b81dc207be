// Putting the pieces of a Calendar file into a lent buffer, whose room was tested before. Each put returns the place after what it wrote.
// Kept: (out, at) and the room that is asked, in each contract: the clauses `put` and `next` say the lent bytes by `splice`, of one call.
ghost use Rattle.std.specs.Prelude.{◌≡◌, [], ◌+◌, ◌≤◌, length};
ghost use Rattle.prelude.specs.Splice.{splice};
ghost use Rattle.days.specs.Days.{last_day};
ghost use Rattle.texts.specs.Notes.{most_text};
ghost use Rattle.calendar.specs.File.{zeros, head_bytes, first_unit, appointment_bytes};
ghost use Rattle.calendar_writer.specs.DayLists.{most_days};
ghost use Rattle.calendar_writer.specs.Sums.{descriptor_of, sum_table, row_of};

use crate::bytes::{appointment_head, block_head, descriptor_of, head_mark, settings_words};
use crate::measuring::units_for;
use crate::sums::{alarms_in, bytes_in};
use calendar::types::CalendarSettings;
use days::types::Minute;
use prelude::slices::copy_in;

pub fn put_zeros(out: &mut [u8], at: usize, n: usize) -> usize
    requires { at + length (zeros n) ≤ length out.old }
    ensures next { result ≡ at + length (zeros n) }
    ensures put { out.new ≡ splice out.old at (zeros n) }
{
    out[at..at + n].fill(0);
    at + n
}

pub fn put_head(out: &mut [u8], at: usize, s: CalendarSettings, n: usize) -> usize
    requires { at + length (head_bytes s n) ≤ length out.old }
    ensures next { result ≡ at + length (head_bytes s n) }
    ensures put { out.new ≡ splice out.old at (head_bytes s n) }
{
    let mark = head_mark(n);
    let second = copy_in(out, at, &mark);
    let words = settings_words(s);
    let third = copy_in(out, second, &words);
    put_zeros(out, third, 42)
}

fn put_descriptor(out: &mut [u8], at: usize, day: usize, alarms: usize, unit: usize) -> usize
    requires { at + length (descriptor_of day alarms unit) ≤ length out.old }
    ensures next { result ≡ at + length (descriptor_of day alarms unit) }
    ensures put { out.new ≡ splice out.old at (descriptor_of day alarms unit) }
{
    let piece = descriptor_of(day, alarms, unit);
    copy_in(out, at, &piece)
}

// A descriptor for each day with appointments, from the sums; the first block stands at that unit.
// A day is a number in a span here: first + k is the day of the k-th sum.
pub fn put_table(out: &mut [u8], at: usize, first: usize, sums: &[u64], unit: usize) -> usize
    requires sums_bound { first + length sums.now ≤ last_day + 1 }
    requires unit_bound { unit ≤ first_unit most_days }
    requires sums_in_bounds { at + length (sum_table first unit sums.now) ≤ length out.old }
    ensures next { result ≡ at + length (sum_table first unit sums.now) }
    ensures put { out.new ≡ splice out.old at (sum_table first unit sums.now) }
{
    let mut pos = at;
    let mut u = unit;
    for (k, &sum) in sums.iter().enumerate() {
        if sum != 0 {
            pos = put_descriptor(out, pos, first + k, alarms_in(sum), u);
            u += units_for(sum);
        }
    }
    pos
}

// The block of a day with its appointments left zero; nothing where it has none. The day is a number in a span.
pub fn put_blank(out: &mut [u8], at: usize, day: usize, sum: u64) -> usize
    requires { at + length (row_of day sum []) ≤ length out.old }
    ensures next { result ≡ at + length (row_of day sum []) }
    ensures put { out.new ≡ splice out.old at (row_of day sum []) }
{
    if sum == 0 {
        return at;
    }
    let head = block_head(day, bytes_in(sum));
    let rest = copy_in(out, at, &head);
    put_zeros(out, rest, 64 * units_for(sum) - 10)
}

// An appointment of that minute, flags and text.
pub fn put_appointment(out: &mut [u8], at: usize, minute: Minute, flags: u8, text: &[u8]) -> usize
    requires text_len_bound { length text.now ≤ most_text }
    requires text_in_bounds { at + length (appointment_bytes (record { minute = minute.0; flags = flags; text = text.now })) ≤ length out.old }
    ensures next { result ≡ at + length (appointment_bytes (record { minute = minute.0; flags = flags; text = text.now })) }
    ensures put { out.new ≡ splice out.old at (appointment_bytes (record { minute = minute.0; flags = flags; text = text.now })) }
{
    let head = appointment_head((5 + text.len()) as u8, flags, minute);
    let second = copy_in(out, at, &head);
    let third = copy_in(out, second, text);
    put_zeros(out, third, 1)
}
