// Each kind of record as the struct for all kinds.
ghost use Rattle.std.specs.Prelude.{◌≡◌};
ghost use Rattle.marshal.specs.RecordAnswers.{dated_out, repeat_out, to_do_out, checked_out, kind_out, record_out};

use crate::record_answers::{Numbers, RecordOut, no_date, record_with, refused_out};
use book::types::Entry;
use days::types::Date;
use prelude::refusals::Refusal;
use records::types::{Dated, Record, Repeat, ToDo};

#[tactic(auto, unfolding(crate::specs::RecordAnswers::dated_out))]
fn dated_out(e: Entry, d: Dated) -> RecordOut
    ensures { result ≡ dated_out e d }
{
    let n = Numbers {
        start: d.start.0,
        end: d.end.0,
        lead: d.lead,
        ..Numbers::default()
    };
    record_with(e, 1, n, d.date, no_date(), no_date(), d.alarm, false)
}

#[tactic(auto, unfolding(crate::specs::RecordAnswers::repeat_out))]
fn repeat_out(
    e: Entry,
    kind: u16,
    r: Repeat,
    weekday: u16,
    week: u16,
    month: u16,
    day: u16,
) -> RecordOut
    ensures { result ≡ repeat_out e kind r weekday week month day }
{
    let n = Numbers {
        weekday,
        week,
        month,
        day,
        start: r.start.0,
        end: r.end.0,
        lead: r.lead,
        ..Numbers::default()
    };
    record_with(e, kind, n, r.first, r.last, no_date(), r.alarm, false)
}

// Kept: a date beside its flag, and kinds as numbers here and below, as include/apptbook.h has them and the definition `to_do_out` takes them.
#[tactic(auto, unfolding(crate::specs::RecordAnswers::to_do_out))]
fn to_do_out(e: Entry, t: ToDo, on: Date, checked_off: bool) -> RecordOut
    ensures { result ≡ to_do_out e t on checked_off }
{
    let n = Numbers {
        priority: t.priority,
        ..Numbers::default()
    };
    record_with(
        e,
        6,
        n,
        t.start,
        no_date(),
        on,
        t.carry_forward,
        checked_off,
    )
}

#[tactic(auto, unfolding(crate::specs::RecordAnswers::checked_out))]
fn checked_out(e: Entry, t: ToDo) -> RecordOut
    ensures { result ≡ checked_out e t t.check_off }
{
    let c = t.check_off;
    let Some(date) = c else {
        return to_do_out(e, t, no_date(), false);
    };
    to_do_out(e, t, date, true)
}

#[tactic(auto, unfolding(crate::specs::RecordAnswers::kind_out))]
fn kind_out(e: Entry, r: Record) -> RecordOut
    ensures { result ≡ kind_out e r }
{
    match r {
        Record::Dated(d) => dated_out(e, d),
        Record::Weekly(w) => repeat_out(e, 2, w.repeat, w.weekday, 0, 0, 0),
        Record::MonthlyByDate(m) => repeat_out(e, 3, m.repeat, 0, 0, 0, m.day),
        Record::MonthlyByPosition(m) => repeat_out(e, 4, m.repeat, m.weekday, m.week, 0, 0),
        Record::Yearly(y) => repeat_out(e, 5, y.repeat, 0, 0, y.month, y.day),
        Record::ToDo(t) => checked_out(e, t),
    }
}

impl From<Result<Entry, Refusal>> for RecordOut {
    ghost from_gives = { λ a r. r ≡ record_out a };

    #[tactic(auto, unfolding(crate::specs::RecordAnswers::record_out))]
    fn from(a: Result<Entry, Refusal>) -> RecordOut {
        match a {
            Ok(e) => {
                let record = e.record;
                kind_out(e, record)
            }
            Err(e) => refused_out(e.number, e.place),
        }
    }
}
