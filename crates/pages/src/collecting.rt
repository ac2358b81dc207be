// One pass over the book: the records that fall on a day, counted or collected as codes.
ghost use Rattle.std.specs.Prelude.{◌≡◌, map, ◌≤◌, length, take, drop};
ghost use Rattle.sorting.specs.Keep.{keep};
ghost use Rattle.pages.specs.Pages.{numbered, falls_on, page_on};
ghost use Rattle.pages.specs.Codes.{code};
ghost use Rattle.pages.specs.Invariants.{ReadyBook};

use crate::codes::code_of;
use crate::places::{falls_at, start_at};
use crate::types::Ready;
use book::located::RecordRef;
use book::settings::FIRST_RECORD;
use falls::types::ShortMonth;

// How many records fall on the day.
pub fn count_lines(file: &[u8], c: ShortMonth, a: Ready) -> usize
    requires { ReadyBook file.now a }
    ensures { result ≡ length (page_on c a.facts file.now) }
{
    let f = a.facts;
    let mut at = FIRST_RECORD;
    let mut count = 0;
    for _ in 0..a.records {
        let here = RecordRef { file, at };
        if falls_at(here, c, f) {
            count += 1;
        }
        at = here.next_place();
    }
    count
}

// The codes of the records that fall on the day, in the book's order, from the first of the lent ones on; those behind stay.
// Kept: the count comes back beside the lent buffer, whose room is asked, as `order_codes` takes it: nothing here has a heap.
pub fn collect(file: &[u8], c: ShortMonth, a: Ready, codes: &mut [u64]) -> usize
    requires ready_book { ReadyBook file.now a }
    requires records_in_bounds { a.records ≤ length codes.old }
    ensures upper_bound { result ≤ length codes.old }
    ensures codes_after { take result codes.new ≡ map code (keep (falls_on c a.facts) (numbered file.now)) }
    ensures codes_unchanged { drop result codes.new ≡ drop result codes.old }
{
    let f = a.facts;
    let mut at = FIRST_RECORD;
    let mut count = 0;
    for number in 0..a.records {
        let here = RecordRef { file, at };
        if falls_at(here, c, f) {
            codes[count] = code_of(start_at(here), number, at);
            count += 1;
        }
        at = here.next_place();
    }
    count
}
