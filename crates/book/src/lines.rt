// The lines of a record's note: how many, and each as a stretch of the caller's file.
ghost use Rattle.std.specs.Prelude.{◌≡◌};
ghost use Rattle.book.specs.Books.{record_answer};
ghost use Rattle.book.specs.Lines.{note_from, lines_answer, line_answer};

use crate::entries::place_of;
use crate::located::RecordRef;
use crate::reading::read_book;
use prelude::refusals::Refusal;
use prelude::refused::NO_SUCH_NUMBER;
use prelude::slices::Stretch;
use texts::lines::{line_at, line_count};

// The note of a record, as a stretch of the file.
// Kept: by hand beside `record_at`: as `record_at(file, k)?.note` that one is no longer inlined, and `record` of the case takes 475 instructions, not 432.
fn note_of(file: &[u8], k: usize) -> Result<Stretch, Refusal>
    ensures { result ≡ note_from (record_answer file.now k) }
{
    let book = read_book(file)?;
    if k >= book.records {
        return Err(NO_SUCH_NUMBER);
    }
    let at = place_of(file, k);
    Ok(RecordRef { file, at }.texts().note)
}

// How many lines the note of a record has.
pub fn note_lines(file: &[u8], k: usize) -> Result<usize, Refusal>
    ensures { result ≡ lines_answer file.now k }
{
    let note = note_of(file, k)?;
    Ok(line_count(note.of(file)))
}

// Line j of the note of a record.
pub fn note_line(file: &[u8], k: usize, j: usize) -> Result<Stretch, Refusal>
    ensures { result ≡ line_answer file.now k j }
{
    let note = note_of(file, k)?;
    let bytes = note.of(file);
    if j >= line_count(bytes) {
        return Err(NO_SUCH_NUMBER);
    }
    let line = line_at(bytes, j);
    Ok(Stretch {
        place: note.place + line.place,
        length: line.length,
    })
}
