// An entry of a list of cancelled days as one number: the record's number and the day.
ghost use Rattle.std.specs.Prelude.{◌≡◌, ◌<◌};
ghost use Rattle.cancelled.specs.Cancelled.{cancelled_code, cancelled_number, cancelled_day};

// Kept: numbers packed by hand, no struct: the clauses say what each holds, and the list of u32 is lent by the caller of `read_with`.
pub fn cancelled_code(number: usize, day: u16) -> u32
    requires { number < 65536 }
    ensures { result ≡ cancelled_code number day }
{
    (number as u32) * 65536 + u32::from(day)
}

pub fn cancelled_number(e: u32) -> usize
    ensures { result ≡ cancelled_number e }
{
    (e / 65536) as usize
}

pub fn cancelled_day(e: u32) -> u16
    ensures { result ≡ cancelled_day e }
{
    (e % 65536) as u16
}
