// A record as a caller hands it over: as the reading calls give it. Number, place and stretches are not read.
ghost use Rattle.std.specs.Prelude.{◌≡◌};
ghost use Rattle.marshal.specs.RecordArguments.{first_in, last_in, repeat_in, dated_in, check_off_in, to_do_in, record_in};

use crate::record_answers::RecordOut;
use days::types::{Date, Minute};
use records::types::{
    Dated, MonthlyByDate, MonthlyByPosition, Record, Repeat, ToDo, Weekly, Yearly,
};

impl RecordOut {
    fn first(self) -> Date
        ensures { result ≡ first_in self }
    {
        Date {
            year: self.first_year,
            month: self.first_month,
            day: self.first_day,
        }
    }

    fn last(self) -> Date
        ensures { result ≡ last_in self }
    {
        Date {
            year: self.last_year,
            month: self.last_month,
            day: self.last_day,
        }
    }

    fn dated(self) -> Dated
        ensures { result ≡ dated_in self }
    {
        Dated {
            alarm: self.flag,
            date: self.first(),
            start: Minute(self.start),
            end: Minute(self.end),
            lead: self.lead,
        }
    }

    fn repeat(self) -> Repeat
        ensures { result ≡ repeat_in self }
    {
        Repeat {
            alarm: self.flag,
            start: Minute(self.start),
            first: self.first(),
            end: Minute(self.end),
            last: self.last(),
            lead: self.lead,
        }
    }

    #[tactic(auto, unfolding(crate::specs::RecordArguments::check_off_in))]
    fn check_off(self) -> Option<Date>
        ensures { result ≡ check_off_in self }
    {
        if self.checked_off {
            Some(Date {
                year: self.check_off_year,
                month: self.check_off_month,
                day: self.check_off_day,
            })
        } else {
            None
        }
    }

    fn to_do(self, priority: u16) -> ToDo
        ensures { result ≡ to_do_in self priority }
    {
        ToDo {
            carry_forward: self.flag,
            priority,
            start: self.first(),
            check_off: self.check_off(),
        }
    }
}

// A kind that is none is a to-do of priority 0, which is refused with 7.
impl From<RecordOut> for Record {
    ghost from_gives = { λ r x. x ≡ record_in r };

    #[tactic(auto, unfolding(crate::specs::RecordArguments::record_in))]
    fn from(r: RecordOut) -> Record {
        match r.kind {
            1 => Record::Dated(r.dated()),
            2 => Record::Weekly(Weekly {
                weekday: r.weekday,
                repeat: r.repeat(),
            }),
            3 => Record::MonthlyByDate(MonthlyByDate {
                day: r.day,
                repeat: r.repeat(),
            }),
            4 => Record::MonthlyByPosition(MonthlyByPosition {
                week: r.week,
                weekday: r.weekday,
                repeat: r.repeat(),
            }),
            5 => Record::Yearly(Yearly {
                month: r.month,
                day: r.day,
                repeat: r.repeat(),
            }),
            6 => Record::ToDo(r.to_do(r.priority)),
            _ => Record::ToDo(r.to_do(0)),
        }
    }
}
