// The blocks of a span with their appointments left zero.
ghost use Rattle.std.specs.Prelude.{◌≡◌, ◌+◌, ◌≤◌, length};
ghost use Rattle.days.specs.Days.{last_day};
ghost use Rattle.calendar_writer.specs.Sums.{rows, none_yet};
ghost use Rattle.calendar_writer.specs.Scatter.{FilledBlocks};

use crate::puts::put_blank;

// The blocks of the days from the first on, and the place of each day's first appointment.
// A day is a number in a span here: first + k is the day of the k-th sum.
// Kept: sums and places are two lent slices of numbers, as long as each other: `measure` takes the one and `put_hits` the other.
pub fn put_blanks(
    out: &mut [u8],
    at: usize,
    first: usize,
    sums: &[u64],
    places: &mut [usize],
) -> usize
    requires sums_bound { first + length sums.now ≤ last_day + 1 }
    requires places_len { length places.old ≡ length sums.now }
    requires sums_in_bounds { at + length (rows none_yet first 0 sums.now) ≤ length out.old }
    ensures next { result ≡ at + length (rows none_yet first 0 sums.now) }
    ensures put { FilledBlocks out.old at first sums.now none_yet places.new out.new }
{
    let mut pos = at;
    for (k, &sum) in sums.iter().enumerate() {
        places[k] = pos + 10;
        pos = put_blank(out, pos, first + k, sum);
    }
    pos
}
