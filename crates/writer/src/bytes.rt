// Dates as their three bytes: the year from 1900, the month and the day.
ghost use Rattle.std.specs.Prelude.{◌≡◌};
ghost use Rattle.records.specs.Encoding.{date_bytes, check_off_bit, check_off_bytes};
ghost use Rattle.records.specs.Invariants.{ThreeBytes};
ghost use Rattle.writer.specs.Heads.{CheckFit};

use days::types::Date;

pub fn date_bytes(d: Date) -> [u8; 3]
    requires { ThreeBytes d }
    ensures { result ≡ date_bytes d }
{
    [(d.year - 1900) as u8, d.month as u8, d.day as u8]
}

// What a to-do's check-off adds to the state, and its date.
pub fn check_off_bytes(check_off: Option<Date>) -> (u8, [u8; 3])
    requires { CheckFit check_off }
    ensures mark { result.0 ≡ check_off_bit check_off }
    ensures date { result.1 ≡ check_off_bytes check_off }
{
    match check_off {
        Some(on) => (2, date_bytes(on)),
        None => (0, [0, 0, 0]),
    }
}
