// One pass over the book: the records that show on a day of the span, as codes, and the sum of each day.
ghost use Rattle.std.specs.Prelude.{◌≡◌, map, ◌<◌, ◌≤◌, length, get_or, take, drop};
ghost use Rattle.sorting.specs.Keep.{keep};
ghost use Rattle.book.specs.Books.{entry_at, most_records};
ghost use Rattle.pages.specs.Pages.{numbered};
ghost use Rattle.pages.specs.Invariants.{record_at};
ghost use Rattle.pages.specs.Codes.{code};
ghost use Rattle.occurrences.specs.Rules.{rule_of, rule_shows};
ghost use Rattle.occurrences.specs.Next.{Next};
ghost use Rattle.calendar_writer.specs.Scatter.{Added};
ghost use Rattle.calendar_writer.specs.Sums.{most_weight};
ghost use Rattle.export.specs.Passes.{AtMost, CountedBook, Sound, marked, kept_in, weighs, most_sum, Weighed};

use crate::spans::Span;
use book::located::RecordRef;
use book::settings::FIRST_RECORD;
use calendar_writer::sums::weight_of;
use occurrences::hits::{next_after, next_from, on_to};
use occurrences::types::Rule;
use pages::codes::code_of;
use pages::places::{listed_at, rule_at};

// Adds a weight to the sum of each day on which a rule shows; from is the first of them.
// Kept: from is the length where there is no day (`Next`); `sums_len` and `at_most` here and below: a struct of a span and lent sums is taken apart at `measure`, whose clauses take the slice.
fn add_hits(span: &Span, r: Rule, from: usize, w: u64, sums: &mut [u64])
    requires sums_len { length sums.old ≡ length span.now.days.now }
    requires next { Next (λ k. rule_shows span.now.choice r (get_or span.now.days.now k 0)) 0 (length span.now.days.now) from }
    requires w_le_most_weight { w ≤ most_weight }
    requires at_most { AtMost most_sum sums.old }
    ensures { Added (λ k. rule_shows span.now.choice r (get_or span.now.days.now k 0)) w (length span.now.days.now) sums.old sums.new }
{
    let mut j = from;
    while j < span.days.len() {
        sums[j] += w;
        j = next_after(span.choice, r, span.days, j);
    }
}

// Takes in a record that shows from a day on: its weight goes to its days, and its code comes back.
fn take_in(
    file: &[u8],
    at: usize,
    number: usize,
    span: &Span,
    r: Rule,
    from: usize,
    sums: &mut [u64],
) -> u64
    requires sound { Sound file.now at }
    requires number_lt_most_records { number < most_records }
    requires r_value { r ≡ rule_of (entry_at file.now at).«record» }
    requires sums_len { length sums.old ≡ length span.now.days.now }
    requires next { Next (λ k. rule_shows span.now.choice r (get_or span.now.days.now k 0)) 0 (length span.now.days.now) from }
    requires at_most { AtMost most_sum sums.old }
    ensures value { result ≡ code (record_at file.now number at) }
    ensures added { Added (λ k. rule_shows span.now.choice r (get_or span.now.days.now k 0)) (weighs (record_at file.now number at)) (length span.now.days.now) sums.old sums.new }
{
    let listed = listed_at(file, at);
    let w = weight_of(listed.times.alarm, listed.text.length);
    add_hits(span, r, from, w, sums);
    let start = listed.times.start;
    code_of(start, number, at)
}

// The codes of the records that show on a day of the span, in the book's order, and the sums of its days, which were 0. Codes behind the count stay.
// Kept: the codes are a lent buffer with their count beside it, which `order_codes` takes so; nothing here has a heap.
pub fn collect(
    file: &[u8],
    records: usize,
    span: &Span,
    codes: &mut [u64],
    sums: &mut [u64],
) -> usize
    requires counted_book { CountedBook file.now records }
    requires records_in_bounds { records ≤ length codes.old }
    requires sums_len { length sums.old ≡ length span.now.days.now }
    requires at_most { AtMost 0 sums.old }
    ensures upper_bound { result ≤ length codes.old }
    ensures codes_after { take result codes.new ≡ map code (keep (kept_in (marked span.now.choice span.now.days.now) (length span.now.days.now)) (numbered file.now)) }
    ensures codes_unchanged { drop result codes.new ≡ drop result codes.old }
    ensures weighed { Weighed file.now (marked span.now.choice span.now.days.now) span.now.days.now sums.new }
{
    let mut at: usize = FIRST_RECORD;
    let mut count: usize = 0;
    for number in 0..records {
        let here = RecordRef { file, at };
        at = here.next_place();
        let r = rule_at(file, here.at);
        let start = on_to(r.first, span.first, span.days);
        let from = next_from(span.choice, r, span.days, start);
        if from < span.days.len() {
            codes[count] = take_in(file, here.at, number, span, r, from, sums);
            count += 1;
        }
    }
    count
}
