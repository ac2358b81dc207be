// The Calendar file: how many days it has, its descriptors, and a day's appointments.
ghost use Rattle.std.specs.Prelude.{◌≡◌};
ghost use Rattle.calendar.specs.Reader.{calendar_of};
ghost use Rattle.calendar.specs.Shown.{descriptor_answer, count_answer, appointment_answer};
ghost use Rattle.marshal.specs.CalendarAnswers.{descriptor_out, appointment_out};
ghost use Rattle.marshal.specs.CountAnswers.{count_out};

use days::types::CalendarDay;
use marshal::calendar_answers::{AppointmentOut, DescriptorOut};
use marshal::count_answers::CountOut;

#[unsafe(no_mangle)]
pub extern "C" fn apptbook_read_calendar(file: &[u8]) -> CountOut
    ensures { result ≡ count_out (calendar_of file.now) }
{
    CountOut::from(calendar::reading::read_calendar(file))
}

#[unsafe(no_mangle)]
pub extern "C" fn apptbook_calendar_day(file: &[u8], descriptor: usize) -> DescriptorOut
    ensures { result ≡ descriptor_out (descriptor_answer file.now descriptor) }
{
    DescriptorOut::from(calendar::shown::descriptor_at(file, descriptor))
}

#[unsafe(no_mangle)]
pub extern "C" fn apptbook_calendar_appointments(file: &[u8], day: u16) -> CountOut
    ensures { result ≡ count_out (count_answer file.now day) }
{
    let n = CalendarDay(day);
    CountOut::from(calendar::shown::appointment_count(file, n))
}

#[unsafe(no_mangle)]
pub extern "C" fn apptbook_calendar_appointment(
    file: &[u8],
    day: u16,
    appointment: usize,
) -> AppointmentOut
    ensures { result ≡ appointment_out (appointment_answer file.now day appointment) }
{
    let n = CalendarDay(day);
    AppointmentOut::from(calendar::shown::appointment_at(file, n, appointment))
}
