// The rules of text and note in code.
ghost use Rattle.std.specs.Prelude.{◌+◌, ◌<◌, ◌≤◌, ◌≡◌, MatchOption, leb, length};
ghost use Rattle.prelude.specs.Bytes.{part};
ghost use Rattle.texts.specs.Notes.{no_zero, lines_of, short_lines, note_ok, most_note, most_line, most_lines};
ghost use Rattle.texts.specs.Invariants.{PastZero};

pub const MOST_TEXT: usize = 27;

const MOST_NOTE: usize = 440;

// A text of fewer bytes is looked at in place.
const SHORT_TEXT: usize = 4;

const MOST_LINES: usize = 11;

const MOST_LINE: usize = 39;

// Whether a text that is not short has no zero byte. It is marked cold, so that a short one has the registers.
#[cold]
fn no_zero_in_long(s: &[u8]) -> bool
    ensures { result ≡ no_zero s.now }
{
    !s.contains(&0)
}

// Whether a text has no zero byte.
// Kept: a short one byte by byte, and inlined: by a call adding a record and reading one took 5 to 20 instructions more.
#[inline(always)]
pub fn no_zero(s: &[u8]) -> bool
    ensures { result ≡ no_zero s.now }
{
    if s.len() < SHORT_TEXT {
        !s.iter().any(|b| *b == 0)
    } else {
        no_zero_in_long(s)
    }
}

// Kept: the bound of a note in three clauses: its zeros are counted in 16 bits, and a type for it would be built for these three alone.
// Whether a note has at most 11 lines: each zero before its last byte begins one more.
fn few_lines(s: &[u8]) -> bool
    requires s_nonzero { 0 < length s.now }
    requires s_len_bound { length s.now ≤ most_note }
    ensures { result ≡ leb (length (lines_of s.now)) most_lines }
{
    let mut zeros: u16 = 0;
    let front = &s[..s.len() - 1];
    for b in front {
        if *b == 0 {
            zeros += 1;
        }
    }
    zeros <= 10
}

// The place behind the last zero of the 40 bytes from `start` on.
fn past_zero(s: &[u8], start: usize) -> Option<usize>
    requires { start + most_line < length s.now }
    ensures { MatchOption result (PastZero s.now start start) (λ p. (start < p) × PastZero s.now start p) }
{
    for k in (0..40).rev() {
        if s[start + k] == 0 {
            return Some(start + k + 1);
        }
    }
    None
}

// Whether each line has at most 39 bytes: from a line's start on, every 40 bytes have a zero.
fn short_lines(s: &[u8]) -> bool
    requires { length s.now ≤ most_note }
    ensures { result ≡ short_lines (lines_of s.now) }
{
    let mut start = 0;
    while start + MOST_LINE < s.len() {
        let Some(next) = past_zero(s, start) else {
            return false;
        };
        start = next;
    }
    true
}

// Whether the lines of a note are by its rule. It stays a call, so that its callers have the test of short notes inlined.
#[inline(never)]
fn lines_ok(s: &[u8]) -> bool
    requires s_nonzero { 0 < length s.now }
    requires s_len_bound { length s.now ≤ most_note }
    ensures { result ≡ note_ok s.now }
{
    few_lines(s) && short_lines(s)
}

// Whether a note is by its rule. Up to 11 bytes have no line too many and none too long.
pub fn note_ok(s: &[u8]) -> bool
    ensures { result ≡ note_ok s.now }
{
    s.len() <= MOST_LINES || (s.len() <= MOST_NOTE && lines_ok(s))
}

// The same of a note that is n bytes of a body, from a place on.
// Kept: a length beside the place: records reads both of a body and has no slice of the note.
pub fn note_ok_at(p: &[u8], at: usize, n: usize) -> bool
    requires { at + n ≤ length p.now }
    ensures { result ≡ note_ok (part p.now at n) }
{
    note_ok(&p[at..at + n])
}
