// The judgement of a record's body, that stretch of the file and nothing beyond it: 6, 7, 8, in this order.
ghost use Rattle.std.specs.Prelude.{◌≡◌, ◌+◌, ◌≤◌, length, false};
ghost use Rattle.prelude.specs.Choice.{if_b};
ghost use Rattle.prelude.specs.Bytes.{part};
ghost use Rattle.texts.specs.Notes.{no_zero, note_ok};
ghost use Rattle.records.specs.Bodies.{fields_ok, judge_body};

use crate::fields::{
    dated_of, fixed_of, monthly_by_date_of, monthly_by_position_of, to_do_of, weekly_of, yearly_of,
};
use crate::ranges::{
    check_off_clean, dated_ok, monthly_by_date_ok, monthly_by_position_ok, to_do_ok, weekly_ok,
    yearly_ok,
};
use prelude::refusals::Fault;
use prelude::slices::word_in;
use texts::rules::{MOST_TEXT, no_zero, note_ok_at};

// Kept: here and below `t` is a byte, since the contracts speak of every byte; `t` and `p` are no struct, which would be built at each call, from `kind` and `body` of a `RecordRef` or from `byte` and `body_from`.
fn fields_ok(t: u8, p: &[u8]) -> bool
    ensures { result ≡ fields_ok t p.now }
{
    match t {
        1 => dated_ok(dated_of(p)),
        2 => weekly_ok(weekly_of(p)),
        3 => monthly_by_date_ok(monthly_by_date_of(p)),
        4 => monthly_by_position_ok(monthly_by_position_of(p)),
        5 => yearly_ok(yearly_of(p)),
        _ => to_do_ok(to_do_of(p)) && check_off_clean(p),
    }
}

// Text and note by their rules, where they lie in the body.
fn texts_ok(p: &[u8], fixed: usize, text: usize, note: usize) -> bool
    requires { fixed + text + note ≤ length p.now }
    ensures { result ≡ if_b (no_zero (part p.now fixed text)) (note_ok (part p.now (fixed + text) note)) false }
{
    let middle = fixed + text;
    no_zero(&p[fixed..middle]) && note_ok_at(p, middle, note)
}

// The body of a record of a type 1 to 6.
pub fn judge_body(t: u8, p: &[u8]) -> Result<(), Fault>
    ensures { result ≡ judge_body t p.now }
{
    let fixed = fixed_of(t);
    if p.len() < fixed {
        return Err(Fault::BadLength);
    }
    let text = usize::from(p[fixed - 3]);
    let note = usize::from(word_in(p, fixed - 2));
    if MOST_TEXT < text || p.len() - fixed < text + note {
        return Err(Fault::BadLength);
    }
    if !fields_ok(t, p) {
        return Err(Fault::BadField);
    }
    if !texts_ok(p, fixed, text, note) {
        return Err(Fault::BadText);
    }
    Ok(())
}
