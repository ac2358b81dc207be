// What stands at a record's place: the three head bytes (4), 5, the body (4), then 6, 7, 8.
ghost use Rattle.std.specs.Prelude.{◌≡◌, ◌+◌, ◌≤◌, length, MatchResult, Ok, Err};
ghost use Rattle.prelude.specs.Refusals.{refusal_at, number_of};
ghost use Rattle.book.specs.Walk.{judge_head, step_at};

use crate::entries::HEAD;
use prelude::refusals::{Fault, Refusal};
use prelude::slices::word_in;
use records::bodies::judge_body;

// The type of the end record.
const END: u8 = 50;

// A head whose three bytes are there.
fn judge_head(size: usize, at: usize, t: u8, l: usize) -> Result<(), Fault>
    requires { at + 3 ≤ size }
    ensures { result ≡ judge_head size at t l }
{
    match t {
        1..=6 if l <= size - at - HEAD => Ok(()),
        1..=6 => Err(Fault::CutShort),
        END if l == 0 => Ok(()),
        _ => Err(Fault::UnknownType),
    }
}

// The step from a place, or what is refused there.
// Kept: a place within the file in clauses, here and in fillers: one walk uses them, and a struct of both would be built at each step.
fn step_or_fault(file: &[u8], at: usize) -> Result<Option<usize>, Fault>
    requires { at ≤ length file.now }
    ensures { MatchResult result (λ step. step_at file.now at ≡ Ok step) (λ e. step_at file.now at ≡ Err (refusal_at (number_of e) at)) }
{
    let size = file.len();
    if size - at < HEAD {
        return Err(Fault::CutShort);
    }
    let t = file[at];
    let l = usize::from(word_in(file, at + 1));
    judge_head(size, at, t, l)?;
    if t == END {
        return Ok(None);
    }
    let from = at + HEAD;
    let next = from + l;
    judge_body(t, &file[from..next])?;
    Ok(Some(next))
}

// The place after the record at a place, or none at the end record.
pub fn step_at(file: &[u8], at: usize) -> Result<Option<usize>, Refusal>
    requires { at ≤ length file.now }
    ensures { result ≡ step_at file.now at }
{
    step_or_fault(file, at).map_err(|fault| fault.at(at))
}
