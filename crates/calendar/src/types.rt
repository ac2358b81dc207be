// What reading a Calendar file gives, and the settings that stand in its head.
use days::types::{CalendarDay, Minute};
use prelude::slices::Stretch;

// A Calendar file's first eight bytes.
pub const MARK: [u8; 8] = [0xB5, 0xA2, 0xB0, 0xB3, 0xB3, 0xB0, 0xA2, 0xB5];

pub const LAST_BLOCK: usize = 32767;

// Kept: words as stored, no bool and no enum: a clause of `put_head` holds for any six.
// The six settings of the head, as stored: early ring in minutes, sound, interval code and interval in minutes, 24-hour flag, start minute.
#[derive(Clone, Copy)]
pub struct CalendarSettings {
    pub ring: u16,
    pub sound: u16,
    pub code: u16,
    pub interval: u16,
    pub hours24: u16,
    pub start: Minute,
}

// A descriptor's day and block offset, as stored.
#[derive(Clone, Copy)]
pub struct Descriptor {
    pub day: CalendarDay,
    pub offset: u16,
}

// An appointment as read: its minute, its flags, and where its text lies in the file.
#[derive(Clone, Copy)]
pub struct StoredAppointment {
    pub minute: Minute,
    pub flags: u16,
    pub text: Stretch,
}

// Where a day's list of appointments lies: its first byte's place, and the place behind it.
#[derive(Clone, Copy)]
pub struct Span {
    pub from: usize,
    pub end: usize,
}
