// The fields of a record's body, gathered without judging them: bytes past the body's end count as 0.
ghost use Rattle.std.specs.Prelude.{◌≡◌, ◌≤◌, eqb};
ghost use Rattle.std.specs.Int.Bits.{bit_and};
ghost use Rattle.prelude.specs.Bytes.{byte as byte_of};
ghost use Rattle.records.specs.Fields.{date_at, bit0, bit1, dated_of, repeat_of, weekly_of, monthly_by_date_of, monthly_by_position_of, yearly_of, check_off_of, to_do_of, record_of, fixed_of, text_length};

use crate::types::{Dated, MonthlyByDate, MonthlyByPosition, Record, Repeat, ToDo, Weekly, Yearly};
use days::types::{Date, Minute};
use prelude::slices::{byte, word, word_high};

fn date_at(p: &[u8], i: usize) -> Date
    requires { i ≤ 16 }
    ensures { result ≡ date_at p.now i }
{
    Date {
        year: 1900 + u16::from(byte(p, i)),
        month: u16::from(byte(p, i + 1)),
        day: u16::from(byte(p, i + 2)),
    }
}

// Whether the state has all bits of the mask.
fn bit<const MASK: u8>(p: &[u8]) -> bool
    ensures { result ≡ eqb (bit_and (byte_of p.now 0) MASK) MASK }
{
    byte(p, 0) & MASK == MASK
}

fn bit_0(p: &[u8]) -> bool
    ensures { result ≡ bit0 p.now }
{
    bit::<1>(p)
}

pub fn bit_1(p: &[u8]) -> bool
    ensures { result ≡ bit1 p.now }
{
    bit::<2>(p)
}

pub fn dated_of(p: &[u8]) -> Dated
    ensures { result ≡ dated_of p.now }
{
    Dated {
        alarm: bit_0(p),
        date: date_at(p, 1),
        start: Minute(word_high(p, 4)),
        end: Minute(word(p, 6)),
        lead: u16::from(byte(p, 8)),
    }
}

fn repeat_of(p: &[u8], i: usize) -> Repeat
    requires { i ≤ 3 }
    ensures { result ≡ repeat_of p.now i }
{
    Repeat {
        alarm: bit_0(p),
        start: Minute(word_high(p, i)),
        first: date_at(p, i + 2),
        end: Minute(word(p, i + 5)),
        last: date_at(p, i + 7),
        lead: u16::from(byte(p, i + 10)),
    }
}

pub fn weekly_of(p: &[u8]) -> Weekly
    ensures { result ≡ weekly_of p.now }
{
    Weekly {
        weekday: u16::from(byte(p, 1)),
        repeat: repeat_of(p, 2),
    }
}

pub fn monthly_by_date_of(p: &[u8]) -> MonthlyByDate
    ensures { result ≡ monthly_by_date_of p.now }
{
    MonthlyByDate {
        day: u16::from(byte(p, 1)),
        repeat: repeat_of(p, 2),
    }
}

pub fn monthly_by_position_of(p: &[u8]) -> MonthlyByPosition
    ensures { result ≡ monthly_by_position_of p.now }
{
    MonthlyByPosition {
        week: u16::from(byte(p, 1)),
        weekday: u16::from(byte(p, 2)),
        repeat: repeat_of(p, 3),
    }
}

pub fn yearly_of(p: &[u8]) -> Yearly
    ensures { result ≡ yearly_of p.now }
{
    Yearly {
        month: u16::from(byte(p, 1)),
        day: u16::from(byte(p, 2)),
        repeat: repeat_of(p, 3),
    }
}

fn check_off_of(p: &[u8]) -> Option<Date>
    ensures { result ≡ check_off_of p.now }
{
    bit_1(p).then(|| date_at(p, 5))
}

pub fn to_do_of(p: &[u8]) -> ToDo
    ensures { result ≡ to_do_of p.now }
{
    ToDo {
        carry_forward: bit_0(p),
        priority: u16::from(byte(p, 1)),
        start: date_at(p, 2),
        check_off: check_off_of(p),
    }
}

// The record of a type 1 to 6.
// Kept: types are bytes here and below, since these functions promise something of every byte (`record_of`, `fixed_of`); `t` and `p` are no struct, which would be built at each call, from `kind` and `body` of a `RecordRef` or from `byte` and `body_from`.
pub fn record_of(t: u8, p: &[u8]) -> Record
    ensures { result ≡ record_of t p.now }
{
    match t {
        1 => Record::Dated(dated_of(p)),
        2 => Record::Weekly(weekly_of(p)),
        3 => Record::MonthlyByDate(monthly_by_date_of(p)),
        4 => Record::MonthlyByPosition(monthly_by_position_of(p)),
        5 => Record::Yearly(yearly_of(p)),
        _ => Record::ToDo(to_do_of(p)),
    }
}

// The fixed bytes of a type 1 to 6.
// Kept: an arm a type, since with `2 | 3` and `4 | 5` this is no table, and reading takes 5 to 8 instructions a record more than the 104.6 of a full book of small records (`read_book` in docs/measured/bench.md).
pub fn fixed_of(t: u8) -> usize
    ensures { result ≡ fixed_of t }
{
    match t {
        1 => 12,
        2 => 16,
        3 => 16,
        4 => 17,
        5 => 17,
        _ => 11,
    }
}

pub fn text_length(t: u8, p: &[u8]) -> u16
    ensures { result ≡ text_length t p.now }
{
    u16::from(byte(p, fixed_of(t) - 3))
}
