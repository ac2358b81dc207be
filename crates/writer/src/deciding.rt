// What open, add and close decide before the first byte is written.
ghost use Rattle.std.specs.Prelude.{◌≡◌, ◌+◌, ◌≤◌};
ghost use Rattle.records.specs.Fields.{fixed_of};
ghost use Rattle.records.specs.Encoding.{type_of};
ghost use Rattle.writer.specs.Writing.{open_refusal, room_refusal, state_open, add_refusal, close_refusal};

use crate::types::Writer;
use book::settings::{FIRST_RECORD, settings_in_range};
use book::types::{MOST_BOOK_BYTES, Settings};
use prelude::refusals::Fault;
use records::ranges::record_ok;
use records::types::Record;
use texts::rules::{MOST_TEXT, no_zero, note_ok};

pub fn judge_open(s: Settings, size: usize) -> Result<(), Fault>
    ensures { result ≡ open_refusal s size }
{
    if !settings_in_range(s) {
        return Err(Fault::BadSettings);
    }
    if size < 15 {
        return Err(Fault::NoRoom);
    }
    Ok(())
}

fn is_open(w: Writer) -> bool
    ensures { result ≡ state_open w }
{
    FIRST_RECORD <= w.used && !w.closed
}

// Whether the bytes used, some more and the end record exceed neither the buffer nor 65,535.
fn judge_room(size: usize, used: usize, more: usize) -> Result<(), Fault>
    requires { more ≤ 1000 }
    ensures { result ≡ room_refusal size (used + more) }
{
    if MOST_BOOK_BYTES < used {
        return Err(Fault::NoRoom);
    }
    let end = used + more + 3;
    if size.min(MOST_BOOK_BYTES) < end {
        return Err(Fault::NoRoom);
    }
    Ok(())
}

// Kept: by kind here, by type byte in records' `fixed_of`: to call that, the six kinds would be matched to their bytes, in as many arms.
fn fixed_size(r: Record) -> usize
    ensures value { result ≡ fixed_of (type_of r) }
    ensures most { result ≤ 17 }
{
    match r {
        Record::Dated(_) => 12,
        Record::Weekly(_) | Record::MonthlyByDate(_) => 16,
        Record::MonthlyByPosition(_) | Record::Yearly(_) => 17,
        Record::ToDo(_) => 11,
    }
}

pub fn judge_add(w: Writer, size: usize, r: Record, text: &[u8], note: &[u8]) -> Result<(), Fault>
    ensures { result ≡ add_refusal w size r text.now note.now }
{
    if !is_open(w) {
        return Err(Fault::NotOpen);
    }
    if MOST_TEXT < text.len() {
        return Err(Fault::BadLength);
    }
    if !record_ok(r) {
        return Err(Fault::BadField);
    }
    if !no_zero(text) || !note_ok(note) {
        return Err(Fault::BadText);
    }
    judge_room(size, w.used, 3 + fixed_size(r) + text.len() + note.len())
}

pub fn judge_close(w: Writer, size: usize) -> Result<(), Fault>
    ensures { result ≡ close_refusal w size }
{
    if !is_open(w) {
        return Err(Fault::NotOpen);
    }
    judge_room(size, w.used, 0)
}
