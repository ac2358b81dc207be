// The month of a day, found in the table of month starts by eleven halvings (request R-5).
// The first five compare with entries at fixed places, so that the compiler need not put the table into memory: only the 45 starts that are left go there.
ghost use Rattle.std.specs.Prelude.{◌≡◌, ◌+◌, ◌≤◌};
ghost use Rattle.days.specs.Days.{last_day};
ghost use Rattle.days.specs.Halving.{Found, Narrowed, NarrowedByFive};
ghost use Rattle.days.specs.Table.{StartsFrom};

use crate::table::{MonthStarts, table};

// A month, counted from January 1980 = 0, and the day on which it starts.
#[derive(Clone, Copy)]
pub struct Month {
    pub number: usize,
    pub start: u16,
}

// 45 months from month `first` on, and the days on which they start.
#[derive(Clone, Copy)]
struct Rest {
    first: usize,
    starts: [u16; 45],
}

fn rest_from(t: &MonthStarts, first: usize) -> Rest
    requires { first + 45 ≤ 1440 }
    ensures { (result.first ≡ first) × StartsFrom first 45 result.starts }
{
    let mut starts = [0; 45];
    // Kept: with `copy_from_slice` the whole table goes to the stack, and a date takes 3,450 instructions in place of 99, measured in a probe of 1,000 calls.
    for (k, start) in starts.iter_mut().enumerate() {
        *start = t.days[first + k];
    }
    Rest { first, starts }
}

// The fourth halving and the fifth, of the 180 months from month `first` on.
fn rest_of_180(t: &MonthStarts, first: usize, n: u16) -> Rest
    requires { Narrowed n 3 first 180 }
    ensures { NarrowedByFive n result.first result.starts }
{
    if n < t.days[first + 90] {
        if n < t.days[first + 45] {
            return rest_from(t, first);
        }
        return rest_from(t, first + 45);
    }
    let upper = first + 90;
    if n < t.days[upper + 45] {
        return rest_from(t, upper);
    }
    rest_from(t, upper + 45)
}

// The first three halvings, and then those two.
// Kept: a loop reads places that are not fixed, and the whole table would go to the stack (docs/PROOFS.md, "Speed").
fn rest_of(n: u16) -> Rest
    requires { n ≤ last_day }
    ensures { NarrowedByFive n result.first result.starts }
{
    let t = table();
    if n < t.days[720] {
        if n < t.days[360] {
            if n < t.days[180] {
                return rest_of_180(&t, 0, n);
            }
            return rest_of_180(&t, 180, n);
        }
        if n < t.days[540] {
            return rest_of_180(&t, 360, n);
        }
        return rest_of_180(&t, 540, n);
    }
    if n < t.days[1080] {
        if n < t.days[900] {
            return rest_of_180(&t, 720, n);
        }
        return rest_of_180(&t, 900, n);
    }
    if n < t.days[1260] {
        return rest_of_180(&t, 1080, n);
    }
    rest_of_180(&t, 1260, n)
}

// All eleven: those five, and six more among the 45 months that they leave.
pub fn month_of(n: u16) -> Month
    requires { n ≤ last_day }
    ensures { Found n result.number result.start }
{
    let rest = rest_of(n);
    let starts = rest.starts;
    let mut low: usize = 0;
    let mut left: usize = 45;
    // k halvings lie behind: the proof's invariant names it.
    // Kept: halved by hand, no `partition_point`: request R-5 asks for eleven halvings (law `eleven_halvings`, edit `ten_halvings`).
    for k in 5..11usize {
        let half = left / 2;
        left -= half;
        if starts[low + half] <= n {
            low += half;
        }
    }
    Month {
        number: rest.first + low,
        start: starts[low],
    }
}
