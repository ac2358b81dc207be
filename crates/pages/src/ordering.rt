// A page as codes in order, and the line of a code.
ghost use Rattle.std.specs.Prelude.{◌≡◌, map, ◌≤◌, length, take, drop};
ghost use Rattle.pages.specs.Pages.{page_on, page_line_of};
ghost use Rattle.pages.specs.Codes.{code as code_of, decode};
ghost use Rattle.pages.specs.Invariants.{ReadyBook};

use crate::codes::{number_in, place_in};
use crate::collecting::collect;
use crate::places::listed_at;
use crate::types::{Line, Ready};
use days::types::DayFacts;
use falls::moved::lacks;
use falls::types::ShortMonth;
use sorting::ordering::order_codes;

// The codes of a day's page, in its order, from the first of the lent ones on; those behind stay. What spare holds is lost.
// Kept: the count comes back beside the lent buffers, whose room is asked: nothing here has a heap.
pub fn page_codes(
    file: &[u8],
    c: ShortMonth,
    a: Ready,
    codes: &mut [u64],
    spare: &mut [u64],
) -> usize
    requires ready_book { ReadyBook file.now a }
    requires records_in_bounds { a.records ≤ length codes.old }
    requires codes_in_bounds { length codes.old ≤ length spare.old }
    ensures upper_bound { result ≤ length codes.old }
    ensures codes_after { take result codes.new ≡ map code_of (page_on c a.facts file.now) }
    ensures codes_unchanged { drop result codes.new ≡ drop result codes.old }
{
    let n = collect(file, c, a, codes);
    order_codes(codes, spare, n);
    n
}

// The line of a code on the page of a day.
#[tactic(auto, unfolding(crate::specs::Pages::page_line_of, crate::specs::Codes::decode, falls::specs::Moved::day_missing))]
pub fn line_of(file: &[u8], f: DayFacts, code: u64) -> Line
    ensures { result ≡ page_line_of f (decode file.now code) }
{
    let listed = listed_at(file, place_in(code));
    Line {
        number: number_in(code),
        start: listed.times.start,
        end: listed.times.end,
        alarm: listed.times.alarm,
        moved: lacks(f, listed.named),
        text: listed.text,
    }
}
