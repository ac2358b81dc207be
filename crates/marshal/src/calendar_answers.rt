// The Calendar file, read and exported: counts, its descriptors, and a day's appointments.
ghost use Rattle.std.specs.Prelude.{◌≡◌};
ghost use Rattle.marshal.specs.CalendarAnswers.{descriptor_out, appointment_out};

use calendar::types::{Descriptor, StoredAppointment};
use prelude::refusals::Refusal;

#[repr(C)]
#[derive(Clone, Copy, Default)]
pub struct DescriptorOut {
    pub number: u32,
    pub place: usize,
    pub day: u16,
    pub offset: u16,
}

#[repr(C)]
#[derive(Clone, Copy, Default)]
pub struct AppointmentOut {
    pub number: u32,
    pub place: usize,
    pub text_at: usize,
    pub text_length: usize,
    pub minute: u16,
    pub flags: u16,
}

impl From<Result<Descriptor, Refusal>> for DescriptorOut {
    ghost from_gives = { λ a r. r ≡ descriptor_out a };

    #[tactic(auto, unfolding(crate::specs::CalendarAnswers::descriptor_out))]
    fn from(a: Result<Descriptor, Refusal>) -> DescriptorOut {
        match a {
            Ok(d) => DescriptorOut {
                day: d.day.0,
                offset: d.offset,
                ..DescriptorOut::default()
            },
            Err(e) => DescriptorOut {
                number: e.number,
                place: e.place,
                ..DescriptorOut::default()
            },
        }
    }
}

impl From<Result<StoredAppointment, Refusal>> for AppointmentOut {
    ghost from_gives = { λ a r. r ≡ appointment_out a };

    #[tactic(auto, unfolding(crate::specs::CalendarAnswers::appointment_out))]
    fn from(a: Result<StoredAppointment, Refusal>) -> AppointmentOut {
        match a {
            Ok(e) => AppointmentOut {
                text_at: e.text.place,
                text_length: e.text.length,
                minute: e.minute.0,
                flags: e.flags,
                ..AppointmentOut::default()
            },
            Err(e) => AppointmentOut {
                number: e.number,
                place: e.place,
                ..AppointmentOut::default()
            },
        }
    }
}
