// The export of a book's days as a Calendar file.
ghost use Rattle.std.specs.Prelude.{◌≡◌, length};
ghost use Rattle.export.specs.Export.{export_answer, export_leaves, shows_under};
ghost use Rattle.marshal.specs.PageAnswers.{choice_of};
ghost use Rattle.marshal.specs.CountAnswers.{count_out};

use days::types::CalendarDay;
use falls::types::ShortMonth;
use marshal::count_answers::CountOut;
use marshal::page_answers::choice_of;

#[unsafe(no_mangle)]
pub extern "C" fn apptbook_export(
    file: &[u8],
    first: u16,
    count: u16,
    last: bool,
    buffer: &mut [u8],
) -> CountOut
    ensures gives { result ≡ count_out (export_answer (shows_under (choice_of last)) file.now first count (length buffer.old)) }
    ensures leaves { buffer.new ≡ export_leaves (shows_under (choice_of last)) file.now first count buffer.old }
{
    let c: ShortMonth = choice_of(last);
    let n = CalendarDay(first);
    CountOut::from(export::calls::export(file, n, count, c, buffer))
}
