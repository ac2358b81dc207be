// Putting a record's bytes into the buffer, whose room was tested before.
ghost use Rattle.std.specs.Prelude.{◌≡◌, ◌++◌, ◌+◌, ◌≤◌, length, true};
ghost use Rattle.records.specs.Ranges.{record_ok};
ghost use Rattle.records.specs.Encoding.{encode};
ghost use Rattle.writer.specs.Heads.{Put};

use crate::heads::{Texts, dated_head, long_head, short_head, to_do_head};
use prelude::slices::copy_in;
use records::types::Record;

// The bytes before a record's text, then its text and its note.
// Kept: buffer and place stand apart, here and below, as `copy_in` takes them: a struct of both would be taken apart at each call of it, and built anew behind.
fn put_with_texts(buf: &mut [u8], at: usize, head: &[u8], texts: Texts<'_>) -> usize
    requires { at + length (head.now ++ (texts.text.now ++ texts.note.now)) ≤ length buf.old }
    ensures { Put at (head.now ++ (texts.entry.text.now ++ texts.entry.note.now)) buf.old result buf.new }
{
    let second = copy_in(buf, at, head);
    let third = copy_in(buf, second, texts.text);
    copy_in(buf, third, texts.note)
}

// A record with its text and its note.
// Kept: each kind's type byte stands once here or in `heads`, beside its bytes; a function of the kind would match the six again.
pub fn put_record(buf: &mut [u8], at: usize, r: Record, texts: Texts<'_>) -> usize
    requires r_value { record_ok r ≡ true }
    requires inside { at + length (encode r texts.text.now texts.note.now) ≤ length buf.old }
    ensures { Put at (encode r texts.entry.text.now texts.entry.note.now) buf.old result buf.new }
{
    match r {
        Record::Dated(d) => put_with_texts(buf, at, &dated_head(d, texts), texts),
        Record::Weekly(w) => put_with_texts(
            buf,
            at,
            &short_head(2, w.weekday as u8, w.repeat, texts),
            texts,
        ),
        Record::MonthlyByDate(m) => put_with_texts(
            buf,
            at,
            &short_head(3, m.day as u8, m.repeat, texts),
            texts,
        ),
        Record::MonthlyByPosition(m) => put_with_texts(
            buf,
            at,
            &long_head(4, m.week as u8, m.weekday as u8, m.repeat, texts),
            texts,
        ),
        Record::Yearly(y) => put_with_texts(
            buf,
            at,
            &long_head(5, y.month as u8, y.day as u8, y.repeat, texts),
            texts,
        ),
        Record::ToDo(d) => put_with_texts(buf, at, &to_do_head(d, texts), texts),
    }
}
