// The question for a reason: of a body, of a record at a place, of a book.
ghost use Rattle.std.specs.Prelude.{◌≡◌};
ghost use Rattle.records.specs.Fields.{record_of};
ghost use Rattle.book.specs.Books.{entry_at};
ghost use Rattle.pages.specs.Invariants.{ReadyBook};
ghost use Rattle.reasons.specs.Answers.{why_in, record_why};
ghost use Rattle.reasons.specs.Holds.{Promised};
ghost use Rattle.reasons.specs.Reasons.{reason_of};

use crate::absent::absent;
use crate::types::Reason;
use book::entries::place_of;
use book::located::RecordRef;
use days::types::{CalendarDay, DayFacts};
use falls::moved::falling_on;
use falls::types::{Falling, ShortMonth};
use pages::types::Ready;
use pages::validating::validate;
use prelude::refusals::Refusal;
use prelude::refused::NO_SUCH_NUMBER;

// Why the record of a type 1 to 6 with that body is on a day, or is not.
// Kept: type, body, choice and facts side by side, as `falling_on` and `absent` take them.
#[tactic(auto, unfolding(crate::specs::Reasons::reason_of, crate::specs::Reasons::or_else))]
fn reason_on(c: ShortMonth, f: DayFacts, t: u8, p: &[u8]) -> Reason
    ensures { result ≡ reason_of c f (record_of t p.now) }
{
    match falling_on(c, f, t, p) {
        Falling::No => absent(c, f, t, p),
        Falling::Own => Reason::OwnDay,
        Falling::Moved => Reason::Moved,
    }
}

// The same of a record of the book.
#[tactic(auto, unfolding(book::specs::Books::entry_at))]
fn reason_at(here: RecordRef<'_>, c: ShortMonth, f: DayFacts) -> Reason
    ensures { result ≡ reason_of c f (entry_at here.entry.file.now here.entry.at).«record» }
{
    reason_on(c, f, here.kind(), here.body())
}

fn why_in(file: &[u8], c: ShortMonth, k: usize, a: Ready) -> Result<Reason, Refusal>
    requires { ReadyBook file.now a }
    ensures { result ≡ why_in file.now c k (Ok a) }
{
    if k < a.records {
        let at = place_of(file, k);
        Ok(reason_at(RecordRef { file, at }, c, a.facts))
    } else {
        Err(NO_SUCH_NUMBER)
    }
}

// Why the record of a number is on a day, or is not.
pub fn why(file: &[u8], k: usize, n: CalendarDay, c: ShortMonth) -> Result<Reason, Refusal>
    ensures gives { result ≡ record_why file.now c n k }
    ensures shown { Promised file.now c n k result }
{
    let a = validate(file, n)?;
    why_in(file, c, k, a)
}
