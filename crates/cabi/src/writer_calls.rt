// Writing. Settings and records go in as the answers of the reading calls have them, so what was read can be handed on as it is.
ghost use Rattle.std.specs.Prelude.{◌≡◌, length};
ghost use Rattle.writer.specs.Writing.{open_gives, open_leaves, add_gives, add_leaves, close_gives, close_leaves};
ghost use Rattle.marshal.specs.BookAnswers.{settings_in};
ghost use Rattle.marshal.specs.RecordArguments.{record_in};
ghost use Rattle.marshal.specs.WriterStates.{writer_out, writer_in};

use book::types::Settings;
use marshal::book_answers::BookOut;
use marshal::record_answers::RecordOut;
use marshal::writer_states::WriterOut;
use records::types::Record;
use writer::types::Writer;

#[unsafe(no_mangle)]
pub extern "C" fn apptbook_open(settings: BookOut, buffer: &mut [u8]) -> WriterOut
    ensures gives { result ≡ writer_out (open_gives (settings_in settings) (length buffer.old)) }
    ensures leaves { buffer.new ≡ open_leaves (settings_in settings) buffer.old }
{
    WriterOut::from(writer::calls::open_book(Settings::from(settings), buffer))
}

#[unsafe(no_mangle)]
pub extern "C" fn apptbook_add(
    state: WriterOut,
    buffer: &mut [u8],
    record: RecordOut,
    text: &[u8],
    note: &[u8],
) -> WriterOut
    ensures gives { result ≡ writer_out (add_gives (writer_in state) (length buffer.old) (record_in «record») text.now note.now) }
    ensures leaves { buffer.new ≡ add_leaves (writer_in state) buffer.old (record_in «record») text.now note.now }
{
    let w = Writer::from(state);
    let r = Record::from(record);
    WriterOut::from(writer::calls::add_record(w, buffer, r, text, note))
}

#[unsafe(no_mangle)]
pub extern "C" fn apptbook_close(state: WriterOut, buffer: &mut [u8]) -> WriterOut
    ensures gives { result ≡ writer_out (close_gives (writer_in state) (length buffer.old)) }
    ensures leaves { buffer.new ≡ close_leaves (writer_in state) buffer.old }
{
    WriterOut::from(writer::calls::close_book(Writer::from(state), buffer))
}
