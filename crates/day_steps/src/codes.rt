// A date and a day's facts as one number each, and what such a number holds.
ghost use Rattle.std.specs.Prelude.{◌≡◌};
ghost use Rattle.day_steps.specs.Codes.{date_code, year_of_code, month_of_code, day_of_code, date_of_code, day_code, Known};
ghost use Rattle.day_steps.specs.Codes.{date_in, month_in, day_in, weekday_in, month_length_in};

use days::types::{Date, DayFacts};

// Kept: numbers packed by hand, no struct: the clauses say what each holds, and a span's list of u32 is lent by the caller of `pack_days`.
pub fn date_code(d: Date) -> u32
    ensures { result ≡ date_code d }
{
    (u32::from(d.year) * 16 + u32::from(d.month)) * 32 + u32::from(d.day)
}

// Kept: a function a field of a code, here and below: each has its own clause, and one with const parameters would leave the six.
// The year in a date's code.
pub fn year_of_code(code: u32) -> u32
    ensures { result ≡ year_of_code code }
{
    code / 512
}

pub fn month_of_code(code: u32) -> u32
    ensures { result ≡ month_of_code code }
{
    code / 32 % 16
}

pub fn day_of_code(code: u32) -> u32
    ensures { result ≡ day_of_code code }
{
    code % 32
}

// The date of such a code. A year has 16 bits.
pub fn date_of_code(code: u32) -> Date
    ensures { result ≡ date_of_code code }
{
    Date {
        year: (year_of_code(code) % 65536) as u16,
        month: month_of_code(code) as u16,
        day: day_of_code(code) as u16,
    }
}

pub fn day_code(f: DayFacts) -> u32
    requires { Known f }
    ensures { result ≡ day_code f }
{
    date_code(f.date) * 256 + u32::from(f.weekday) * 32 + u32::from(f.length)
}

// The date in a day's code, as a code.
pub fn date_in(p: u32) -> u32
    ensures { result ≡ date_in p }
{
    p / 256
}

pub fn month_in(p: u32) -> u32
    ensures { result ≡ month_in p }
{
    p / 8192 % 16
}

pub fn day_in(p: u32) -> u32
    ensures { result ≡ day_in p }
{
    p / 256 % 32
}

pub fn weekday_in(p: u32) -> u32
    ensures { result ≡ weekday_in p }
{
    p / 32 % 8
}

pub fn month_length_in(p: u32) -> u32
    ensures { result ≡ month_length_in p }
{
    p % 32
}
