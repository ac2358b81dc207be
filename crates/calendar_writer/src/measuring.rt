// The measure of an export, from the sums of its days: all that is decided before the first byte is written.
ghost use Rattle.std.specs.Prelude.{◌≡◌, ◌*◌, ◌≤◌, length};
ghost use Rattle.calendar.specs.File.{first_unit};
ghost use Rattle.calendar_writer.specs.Sums.{units_for, most_units, measured, sum_up};
ghost use Rattle.calendar_writer.specs.DayLists.{most_days};

use crate::sums::{bytes_in, count_in};
use crate::types::Measure;
use calendar::types::LAST_BLOCK;

// The units of a day's block.
pub fn units_for(sum: u64) -> usize
    ensures { result ≡ units_for sum }
{
    (bytes_in(sum) + 73) / 64
}

// The unit at which the first block stands behind n descriptors.
pub fn first_unit(n: usize) -> usize
    requires { n ≤ most_days }
    ensures { result ≡ first_unit n }
{
    1 + (12 * n + 63) / 64
}

fn measure_of(n: usize, units: usize, last: usize, appointments: usize) -> Measure
    requires n_le_most_days { n ≤ most_days }
    requires units_bound { units ≤ most_days * most_units }
    requires last_le_units { last ≤ units }
    ensures { result ≡ measured n units last appointments }
{
    let first = first_unit(n);
    Measure {
        length: 64 * (first + units),
        descriptors: n,
        appointments,
        past_last_block: LAST_BLOCK < first + last,
    }
}

// The file's length, its descriptors and its appointments, and whether a block would start at block 32,768 or later.
pub fn measure(sums: &[u64]) -> Measure
    requires { length sums.now ≤ most_days }
    ensures { result ≡ sum_up 0 0 0 0 sums.now }
{
    let mut n: usize = 0;
    let mut units: usize = 0;
    let mut last: usize = 0;
    let mut appointments: usize = 0;
    for &sum in sums {
        if sum != 0 {
            n += 1;
            last = units;
            units += units_for(sum);
            appointments += count_in(sum);
        }
    }
    measure_of(n, units, last, appointments)
}
