// How many bytes a printed page has: of a book in one pass, without any order, or of the codes of its lines.
ghost use Rattle.std.specs.Prelude.{◌≡◌, true, false, map, ◌+◌, ◌≤◌, length};
ghost use Rattle.prelude.specs.Bytes.{bit, stretch_bytes};
ghost use Rattle.prelude.specs.Choice.{if_lt};
ghost use Rattle.book.specs.Books.{entry_at};
ghost use Rattle.falls.specs.Moved.{day_missing};
ghost use Rattle.pages.specs.Pages.{page_on, page_line_of, falls_on};
ghost use Rattle.pages.specs.Invariants.{ReadyBook};
ghost use Rattle.printing.specs.Printed.{page_lines, page_text};
ghost use Rattle.printing.specs.Coded.{coded_lines, coded_text};

use crate::types::{Coded, MOST_PAGE_BYTES, Size};
use book::located::RecordRef;
use book::settings::FIRST_RECORD;
use days::types::DayFacts;
use digits::puts::decimal_length;
use falls::moved::day_missing;
use falls::types::ShortMonth;
use pages::codes::place_in;
use pages::places::falls_at;
use pages::types::Ready;
use records::fields::text_length;

// The bytes of the line of a record on the page of a day.
fn record_size(here: RecordRef<'_>, f: DayFacts) -> usize
    ensures { result ≡ 13 + bit (day_missing f (entry_at here.entry.file.now here.entry.at).«record») + length (stretch_bytes here.entry.file.now (entry_at here.entry.file.now here.entry.at).text) }
{
    let t = here.kind();
    let p = here.body();
    let moved = day_missing(f, t, p);
    13 + usize::from(moved) + usize::from(text_length(t, p))
}

// The lines of a day's page and their bytes.
fn measure(file: &[u8], c: ShortMonth, a: Ready) -> Size
    requires { ReadyBook file.now a }
    ensures lines_value { result.lines ≡ length (page_on c a.facts file.now) }
    ensures bytes_value { result.bytes ≡ length (page_lines file.now (map (page_line_of a.facts) (page_on c a.facts file.now))) }
{
    let f = a.facts;
    let mut at: usize = FIRST_RECORD;
    let mut lines: usize = 0;
    let mut bytes: usize = 0;
    for _ in 0..a.records {
        let here = RecordRef { file, at };
        at = here.next_place();
        if falls_at(here, c, f) {
            lines += 1;
            bytes += record_size(here, f);
        }
    }
    Size { lines, bytes }
}

// The bytes of the whole page.
#[tactic(auto, using(crate::proofs::Laws::Sizes::page_sizes))]
pub fn page_size(file: &[u8], c: ShortMonth, a: Ready) -> usize
    requires { ReadyBook file.now a }
    ensures { result ≡ length (page_text (falls_on c) file.now a.facts) }
{
    let s = measure(file, c, a);
    16 + decimal_length(s.lines) + s.bytes
}

impl Coded<'_> {
    // The bytes of the lines.
    fn lines_size(&self) -> usize
        ensures { result ≡ length (page_lines self.now.file.now (coded_lines self.now.file.now self.now.facts self.now.codes.now)) }
    {
        let mut bytes: usize = 0;
        for &code in self.codes {
            let at = place_in(code);
            let here = RecordRef {
                file: self.file,
                at,
            };
            bytes += record_size(here, self.facts);
        }
        bytes
    }

    // The bytes of the page.
    #[tactic(auto, using(crate::proofs::Laws::Sizes::page_sizes))]
    fn size(&self) -> usize
        ensures { result ≡ length (coded_text self.now.file.now self.now.facts self.now.codes.now) }
    {
        16 + decimal_length(self.codes.len()) + self.lines_size()
    }

    // Whether the page is longer than the room. No page is longer than MOST_PAGE_BYTES, so that it need not be measured then.
    #[tactic(auto, using(falls::proofs::Laws::Tests::choices))]
    pub fn exceeds(&self, room: usize) -> bool
        ensures { result ≡ if_lt room (length (coded_text self.now.file.now self.now.facts self.now.codes.now)) true false }
    {
        room < MOST_PAGE_BYTES && room < self.size()
    }
}
