// The head and the fixed bytes of each kind of record, as one array.
ghost use Rattle.std.specs.Prelude.{◌≡◌, ◌≤◌, length};
ghost use Rattle.records.specs.declared.types.Record.{Record};
ghost use Rattle.writer.specs.Heads.{record_head, short_head, long_head, to_do_head, DatedFit, RepeatFit, ToDoFit, Lengths};

use crate::bytes::{check_off_bytes, date_bytes};
use records::types::{Dated, Repeat, ToDo};

// A record's text and note, not too long.
#[derive(Clone, Copy)]
pub struct Texts<'a> {
    pub text: &'a [u8],
    pub note: &'a [u8],
    ghost lengths: { Lengths text.now note.now },
}

impl<'a> Texts<'a> {
    pub fn text_length(self) -> u16
        ensures { result ≡ length self.entry.text.now }
    {
        self.text.len() as u16
    }

    pub fn note_length(self) -> u16
        ensures { result ≡ length self.entry.note.now }
    {
        self.note.len() as u16
    }
}

pub fn dated_head(d: Dated, texts: Texts<'_>) -> [u8; 15]
    requires { DatedFit d }
    ensures { result ≡ record_head (Record.Dated d) (length texts.entry.text.now) (length texts.entry.note.now) }
{
    let t = texts.text_length();
    let n = texts.note_length();
    let [low, high] = (12 + t + n).to_le_bytes();
    let [year, month, day] = date_bytes(d.date);
    let [start_high, start_low] = d.start.0.to_be_bytes();
    let [end_low, end_high] = d.end.0.to_le_bytes();
    let [note_low, note_high] = n.to_le_bytes();
    [
        1,
        low,
        high,
        u8::from(d.alarm),
        year,
        month,
        day,
        start_high,
        start_low,
        end_low,
        end_high,
        d.lead as u8,
        t as u8,
        note_low,
        note_high,
    ]
}

// Types 2 and 3: one number before the start minute.
pub fn short_head(kind: u8, a: u8, r: Repeat, texts: Texts<'_>) -> [u8; 19]
    requires { RepeatFit r }
    ensures { result ≡ short_head kind a r (length texts.entry.text.now) (length texts.entry.note.now) }
{
    let t = texts.text_length();
    let n = texts.note_length();
    let [low, high] = (16 + t + n).to_le_bytes();
    let [start_high, start_low] = r.start.0.to_be_bytes();
    let [first_year, first_month, first_day] = date_bytes(r.first);
    let [end_low, end_high] = r.end.0.to_le_bytes();
    let [last_year, last_month, last_day] = date_bytes(r.last);
    let [note_low, note_high] = n.to_le_bytes();
    [
        kind,
        low,
        high,
        u8::from(r.alarm),
        a,
        start_high,
        start_low,
        first_year,
        first_month,
        first_day,
        end_low,
        end_high,
        last_year,
        last_month,
        last_day,
        r.lead as u8,
        t as u8,
        note_low,
        note_high,
    ]
}

// Types 4 and 5: two numbers before it.
// Kept: beside `short_head`, an array of another length; in pieces around the numbers each record took two copies more.
pub fn long_head(kind: u8, a: u8, b: u8, r: Repeat, texts: Texts<'_>) -> [u8; 20]
    requires { RepeatFit r }
    ensures { result ≡ long_head kind a b r (length texts.entry.text.now) (length texts.entry.note.now) }
{
    let t = texts.text_length();
    let n = texts.note_length();
    let [low, high] = (17 + t + n).to_le_bytes();
    let [start_high, start_low] = r.start.0.to_be_bytes();
    let [first_year, first_month, first_day] = date_bytes(r.first);
    let [end_low, end_high] = r.end.0.to_le_bytes();
    let [last_year, last_month, last_day] = date_bytes(r.last);
    let [note_low, note_high] = n.to_le_bytes();
    [
        kind,
        low,
        high,
        u8::from(r.alarm),
        a,
        b,
        start_high,
        start_low,
        first_year,
        first_month,
        first_day,
        end_low,
        end_high,
        last_year,
        last_month,
        last_day,
        r.lead as u8,
        t as u8,
        note_low,
        note_high,
    ]
}

fn to_do_bytes(d: ToDo, mark: u8, y: u8, m: u8, day: u8, texts: Texts<'_>) -> [u8; 14]
    requires to_do_fit { ToDoFit d }
    requires mark_bound { mark ≤ 2 }
    ensures { result ≡ to_do_head d mark y m day (length texts.entry.text.now) (length texts.entry.note.now) }
{
    let t = texts.text_length();
    let n = texts.note_length();
    let [low, high] = (11 + t + n).to_le_bytes();
    let [start_year, start_month, start_day] = date_bytes(d.start);
    let [note_low, note_high] = n.to_le_bytes();
    [
        6,
        low,
        high,
        u8::from(d.carry_forward) + mark,
        d.priority as u8,
        start_year,
        start_month,
        start_day,
        y,
        m,
        day,
        t as u8,
        note_low,
        note_high,
    ]
}

pub fn to_do_head(d: ToDo, texts: Texts<'_>) -> [u8; 14]
    requires { ToDoFit d }
    ensures { result ≡ record_head (Record.ToDo d) (length texts.entry.text.now) (length texts.entry.note.now) }
{
    let (mark, [year, month, day]) = check_off_bytes(d.check_off);
    to_do_bytes(d, mark, year, month, day, texts)
}
