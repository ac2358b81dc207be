// What reading a book gives.
use days::types::Minute;
use prelude::slices::Stretch;
use records::types::Record;

pub const MOST_BOOK_BYTES: usize = 65535;

// Each record takes 14 bytes or more.
pub const MOST_RECORDS: usize = 4680;

// The book's settings, document 01 "Settings".
#[derive(Clone, Copy)]
pub struct Settings {
    pub start: Minute,
    pub granularity: u16,
    pub alarm: bool,
    pub lead: u16,
    pub carry_forward: bool,
}

// An accepted book: its settings, and how many records it has, to-dos among them and the end record not.
#[derive(Clone, Copy)]
pub struct Book {
    pub settings: Settings,
    pub records: usize,
}

// A record with its own place in the file, and the stretches of its text and note.
#[derive(Clone, Copy)]
pub struct Entry {
    pub place: usize,
    pub record: Record,
    pub text: Stretch,
    pub note: Stretch,
}

// The stretches of a record's text and note.
#[derive(Clone, Copy)]
pub struct Texts {
    pub text: Stretch,
    pub note: Stretch,
}
