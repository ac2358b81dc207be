// A day's printed page: how long it is, and the page itself. Nothing is stored before every decision is made.
ghost use Rattle.std.specs.Prelude.{◌≡◌, ◌+◌, ◌≤◌, length};
ghost use Rattle.prelude.specs.Splice.{splice};
ghost use Rattle.pages.specs.Invariants.{ReadyBook};
ghost use Rattle.pages.specs.Pages.{falls_on};
ghost use Rattle.printing.specs.Coded.{coded_text};
ghost use Rattle.printing.specs.Answers.{text_gives, text_leaves, print_in, print_leaves, page_length, print_gives, print_left};

use crate::measures::page_size;
use crate::puts::{put_head, put_lines};
use crate::types::Coded;
use book::types::MOST_RECORDS;
use days::types::CalendarDay;
use falls::types::ShortMonth;
use pages::ordering::page_codes;
use pages::types::Ready;
use pages::validating::validate;
use prelude::refusals::Refusal;
use prelude::refused::NO_ROOM;

// How many bytes the printed page of a day has.
pub fn page_length(file: &[u8], n: CalendarDay, c: ShortMonth) -> Result<usize, Refusal>
    ensures { result ≡ page_length (falls_on c) file.now n }
{
    let a = validate(file, n)?;
    Ok(page_size(file, c, a))
}

impl Coded<'_> {
    // At the start of a buffer that has room for it.
    #[tactic(auto, using(crate::proofs::Laws::Puts::puts), unfolding(crate::specs::Coded::coded_text))]
    fn put(&self, out: &mut [u8]) -> usize
        requires { 0 + length (coded_text self.now.file.now self.now.facts self.now.codes.now) ≤ length out.old }
        ensures next { result ≡ 0 + length (coded_text self.now.file.now self.now.facts self.now.codes.now) }
        ensures put { out.new ≡ splice out.old 0 (coded_text self.now.file.now self.now.facts self.now.codes.now) }
    {
        let at = put_head(out, 0, self.facts, self.codes.len());
        put_lines(self.file, self.facts, self.codes, out, at)
    }

    // Measured, and then put.
    #[tactic(auto, using(falls::proofs::Laws::Tests::choices))]
    fn print(&self, out: &mut [u8]) -> Result<usize, Refusal>
        ensures gives { result ≡ text_gives (length out.old) (coded_text self.now.file.now self.now.facts self.now.codes.now) }
        ensures leaves { out.new ≡ text_leaves out.old (coded_text self.now.file.now self.now.facts self.now.codes.now) }
    {
        if self.exceeds(out.len()) {
            Err(NO_ROOM)
        } else {
            Ok(self.put(out))
        }
    }
}

// The page of a book, by way of lent working space: what codes and spare hold is lost.
// Kept: two lent buffers, and the count of codes beside them, as `page_codes` gives it: nothing here has a heap.
fn print_with(
    file: &[u8],
    c: ShortMonth,
    a: Ready,
    codes: &mut [u64],
    spare: &mut [u64],
    out: &mut [u8],
) -> Result<usize, Refusal>
    requires ready_book { ReadyBook file.now a }
    requires records_in_bounds { a.records ≤ length codes.old }
    requires codes_in_bounds { length codes.old ≤ length spare.old }
    ensures gives { result ≡ print_in (falls_on c) file.now (length out.old) (Ok a) }
    ensures leaves { out.new ≡ print_leaves (falls_on c) file.now out.old (Ok a) }
{
    let n = page_codes(file, c, a, codes, spare);
    let coded = Coded {
        file,
        facts: a.facts,
        codes: &codes[..n],
    };
    coded.print(out)
}

// The same with working space for N records, at most as many as a book has.
fn print_within<const N: usize>(
    file: &[u8],
    c: ShortMonth,
    a: Ready,
    out: &mut [u8],
) -> Result<usize, Refusal>
    requires ready_book { ReadyBook file.now a }
    requires records_in_bounds { a.records ≤ N }
    requires n_in_bounds { N ≤ MOST_RECORDS }
    ensures gives { result ≡ print_in (falls_on c) file.now (length out.old) (Ok a) }
    ensures leaves { out.new ≡ print_leaves (falls_on c) file.now out.old (Ok a) }
{
    // Kept: arrays on the stack: nothing here has a heap.
    let mut codes = [0u64; N];
    let mut spare = [0u64; N];
    print_with(file, c, a, &mut codes, &mut spare, out)
}

// A book of few records needs little working space.
fn print_in(file: &[u8], c: ShortMonth, a: Ready, out: &mut [u8]) -> Result<usize, Refusal>
    requires { ReadyBook file.now a }
    ensures gives { result ≡ print_in (falls_on c) file.now (length out.old) (Ok a) }
    ensures leaves { out.new ≡ print_leaves (falls_on c) file.now out.old (Ok a) }
{
    if a.records <= 64 {
        print_within::<64>(file, c, a, out)
    } else {
        print_within::<MOST_RECORDS>(file, c, a, out)
    }
}

// The printed page of a day at the start of a lent buffer, and how many bytes it has.
pub fn print_page(
    file: &[u8],
    n: CalendarDay,
    c: ShortMonth,
    out: &mut [u8],
) -> Result<usize, Refusal>
    ensures gives { result ≡ print_gives (falls_on c) file.now n (length out.old) }
    ensures leaves { out.new ≡ print_left (falls_on c) file.now n out.old }
{
    let a = validate(file, n)?;
    print_in(file, c, a, out)
}
