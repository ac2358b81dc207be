// Books. A file comes as a pointer and a length; what an answer shows of it are places in that file.
ghost use Rattle.std.specs.Prelude.{◌≡◌};
ghost use Rattle.book.specs.Books.{book_of, record_answer};
ghost use Rattle.book.specs.Lines.{lines_answer, line_answer};
ghost use Rattle.marshal.specs.BookAnswers.{book_out, line_out};
ghost use Rattle.marshal.specs.CountAnswers.{count_out};
ghost use Rattle.marshal.specs.RecordAnswers.{record_out};

use marshal::book_answers::{BookOut, LineOut};
use marshal::count_answers::CountOut;
use marshal::record_answers::RecordOut;

#[unsafe(no_mangle)]
pub extern "C" fn apptbook_read_book(file: &[u8]) -> BookOut
    ensures { result ≡ book_out (book_of file.now) }
{
    BookOut::from(book::reading::read_book(file))
}

#[unsafe(no_mangle)]
pub extern "C" fn apptbook_record(file: &[u8], record: usize) -> RecordOut
    ensures { result ≡ record_out (record_answer file.now «record») }
{
    RecordOut::from(book::entries::record_at(file, record))
}

#[unsafe(no_mangle)]
pub extern "C" fn apptbook_note_lines(file: &[u8], record: usize) -> CountOut
    ensures { result ≡ count_out (lines_answer file.now «record») }
{
    CountOut::from(book::lines::note_lines(file, record))
}

#[unsafe(no_mangle)]
pub extern "C" fn apptbook_note_line(file: &[u8], record: usize, line: usize) -> LineOut
    ensures { result ≡ line_out (line_answer file.now «record» line) }
{
    LineOut::from(book::lines::note_line(file, record, line))
}
