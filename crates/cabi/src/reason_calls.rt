// Why a record is on a day or not.
ghost use Rattle.std.specs.Prelude.{◌≡◌};
ghost use Rattle.marshal.specs.PageAnswers.{choice_of, day_of};
ghost use Rattle.marshal.specs.ReasonAnswers.{reason_out, ExplainedOut};
ghost use Rattle.reasons.specs.Answers.{record_why};

use days::types::CalendarDay;
use falls::types::ShortMonth;
use marshal::page_answers::choice_of;
use marshal::reason_answers::ReasonOut;
use reasons::calls::why;

#[unsafe(no_mangle)]
pub extern "C" fn apptbook_why(file: &[u8], record: usize, day: u16, last: bool) -> ReasonOut
    ensures gives { result ≡ reason_out (record_why file.now (choice_of last) (day_of day) «record») }
    ensures shown { ExplainedOut file.now (choice_of last) (day_of day) «record» result }
{
    let c: ShortMonth = choice_of(last);
    let n = CalendarDay(day);
    ReasonOut::from(why(file, record, n, c))
}
