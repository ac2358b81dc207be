// An appointment put on each day of a span on which its record's rule shows.
ghost use Rattle.std.specs.Prelude.{◌≡◌, length, get_or};
ghost use Rattle.occurrences.specs.Rules.{rule_shows};
ghost use Rattle.calendar_writer.specs.Scatter.{Added, Roomy, scatter};

use crate::spans::Span;
use occurrences::hits::{next_after, next_from, on_to};
use occurrences::types::Rule;
use prelude::slices::copy_in;

// Kept: `places_len`, as in filling: places are lent on to others that take the slice; j is the length where there is no day left (`Next`).
// Puts a piece at the place of each day on which a rule shows, in a span, and moves these places behind it.
pub fn put_hits(span: &Span, r: Rule, piece: &[u8], places: &mut [usize], out: &mut [u8])
    requires places_len { length places.old ≡ length span.now.days.now }
    requires roomy { Roomy (λ k. rule_shows span.now.choice r (get_or span.now.days.now k 0)) (length span.now.days.now) (length piece.now) places.old (length out.old) }
    ensures added { Added (λ k. rule_shows span.now.choice r (get_or span.now.days.now k 0)) (length piece.now) (length span.now.days.now) places.old places.new }
    ensures out_after { out.new ≡ scatter (length span.now.days.now) (λ k. rule_shows span.now.choice r (get_or span.now.days.now k 0)) piece.now places.old 0 out.old }
{
    let start = on_to(r.first, span.first, span.days);
    let mut j = next_from(span.choice, r, span.days, start);
    while j < span.days.len() {
        let at = places[j];
        places[j] = copy_in(out, at, piece);
        j = next_after(span.choice, r, span.days, j);
    }
}
