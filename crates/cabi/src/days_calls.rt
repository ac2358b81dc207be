// Days: dates, day numbers, weekdays, and the Psion's count.
ghost use Rattle.std.specs.Prelude.{◌≡◌};
ghost use Rattle.days.specs.Dates.{real};
ghost use Rattle.days.specs.Answers.{length_answer, day_answer, date_answer, weekday_answer, facts_answer, next_answer, calendar_of_psion, psion_of_calendar};
ghost use Rattle.marshal.specs.DayAnswers.{length_out, day_out, psion_out, date_out, weekday_out, facts_out, facts_in};

use days::types::{CalendarDay, Date, DayFacts, PsionDay};
use marshal::day_answers::{DateOut, DayOut, LengthOut, WeekdayOut};
use marshal::day_facts::FactsOut;

#[unsafe(no_mangle)]
pub extern "C" fn apptbook_month_length(year: u16, month: u16) -> LengthOut
    ensures { result ≡ length_out (length_answer year month) }
{
    LengthOut::from(days::dates::month_length(year, month))
}

#[unsafe(no_mangle)]
pub extern "C" fn apptbook_is_real_date(year: u16, month: u16, day: u16) -> bool
    ensures { result ≡ real (record { year = year; month = month; day = day }) }
{
    days::dates::is_real(Date { year, month, day })
}

#[unsafe(no_mangle)]
pub extern "C" fn apptbook_day_of_date(year: u16, month: u16, day: u16) -> DayOut
    ensures { result ≡ day_out (day_answer (record { year = year; month = month; day = day })) }
{
    DayOut::from(days::numbers::day_of_date(Date { year, month, day }))
}

#[unsafe(no_mangle)]
pub extern "C" fn apptbook_date_of_day(day: u16) -> DateOut
    ensures { result ≡ date_out (date_answer (record { 0 = day })) }
{
    DateOut::from(days::numbers::date_of_day(CalendarDay(day)))
}

#[unsafe(no_mangle)]
pub extern "C" fn apptbook_weekday(day: u16) -> WeekdayOut
    ensures { result ≡ weekday_out (weekday_answer (record { 0 = day })) }
{
    WeekdayOut::from(days::numbers::weekday_of_day(CalendarDay(day)))
}

#[unsafe(no_mangle)]
pub extern "C" fn apptbook_day_facts(day: u16) -> FactsOut
    ensures { result ≡ facts_out (facts_answer (record { 0 = day })) }
{
    FactsOut::from(days::facts::facts_of_day(CalendarDay(day)))
}

#[unsafe(no_mangle)]
pub extern "C" fn apptbook_next_day(facts: FactsOut) -> FactsOut
    ensures { result ≡ facts_out (next_answer (facts_in facts)) }
{
    FactsOut::from(days::facts::next_day(DayFacts::from(facts)))
}

#[unsafe(no_mangle)]
pub extern "C" fn apptbook_calendar_of_psion(day: u16) -> DayOut
    ensures { result ≡ day_out (calendar_of_psion (record { 0 = day })) }
{
    DayOut::from(days::psion::calendar_of_psion(PsionDay(day)))
}

#[unsafe(no_mangle)]
pub extern "C" fn apptbook_psion_of_calendar(day: u16) -> DayOut
    ensures { result ≡ psion_out (psion_of_calendar (record { 0 = day })) }
{
    DayOut::from(days::psion::psion_of_calendar(CalendarDay(day)))
}
