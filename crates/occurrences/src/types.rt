// A record's rule as numbers.

// The kind is the record's type. Weekly: a is the weekday. Monthly by date: a the day. By position: a the weekday, b the week. Yearly: a the month, b the day.
// The first and the last date are date codes; of a dated record both are its date.
// Kept: the kind is a number, since the contracts of `next_from`, `next_after` and `next_shown` hold for any `Rule`, of any kind.
#[derive(Clone, Copy)]
pub struct Rule {
    pub kind: u32,
    pub a: u32,
    pub b: u32,
    pub first: u32,
    pub last: u32,
}
