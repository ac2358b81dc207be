// The place of a record that a walk has judged, so that its bytes are there: its fields, its text and note, the next place.
ghost use Rattle.std.specs.Prelude.{◌≡◌};
ghost use Rattle.book.specs.Walk.{type_at, next_place, body_at};
ghost use Rattle.book.specs.Books.{entry_at};
ghost use Rattle.book.specs.Invariants.{RecordAt};

use crate::entries::HEAD;
use crate::types::{Entry, Texts};
use prelude::slices::{Stretch, word_in};
use records::fields::{fixed_of, record_of};

#[derive(Clone, Copy)]
pub struct RecordRef<'a> {
    pub file: &'a [u8],
    pub at: usize,
    ghost there: { RecordAt file.now at },
}

impl<'a> RecordRef<'a> {
    // Its type.
    // Kept: a byte, as `record_of` and `fixed_of` take it.
    pub fn kind(self) -> u8
        ensures { result ≡ type_at self.entry.file.now self.entry.at }
    {
        self.file[self.at]
    }

    // The place after it.
    pub fn next_place(self) -> usize
        ensures { result ≡ next_place self.entry.file.now self.entry.at }
    {
        self.at + HEAD + usize::from(word_in(self.file, self.at + 1))
    }

    // Its body.
    pub fn body(self) -> &'a [u8]
        ensures { result.now ≡ body_at self.entry.file.now self.entry.at }
    {
        let l = usize::from(word_in(self.file, self.at + 1));
        &self.file[self.at + HEAD..][..l]
    }

    // Where its text and its note lie.
    pub fn texts(self) -> Texts
        ensures { (result.text ≡ (entry_at self.entry.file.now self.entry.at).text) × (result.note ≡ (entry_at self.entry.file.now self.entry.at).note) }
    {
        let body = self.body();
        let fixed = fixed_of(self.kind());
        let text = Stretch {
            place: self.at + HEAD + fixed,
            length: usize::from(body[fixed - 3]),
        };
        let note = Stretch {
            place: text.place + text.length,
            length: usize::from(word_in(body, fixed - 2)),
        };
        Texts { text, note }
    }

    // Every field of it.
    pub fn entry(self) -> Entry
        ensures { result ≡ entry_at self.entry.file.now self.entry.at }
    {
        let record = record_of(self.kind(), self.body());
        let Texts { text, note } = self.texts();
        Entry {
            place: self.at,
            record,
            text,
            note,
        }
    }
}
