// The lines of a note: how many there are, and where each lies. A zero ends a line.
ghost use Rattle.std.specs.Prelude.{◌≡◌, ◌<◌, IfSome, length, unwrap_or};
ghost use Rattle.texts.specs.Notes.{lines_of};
ghost use Rattle.texts.specs.Lines.{to_zero, line_start, line_at};

use prelude::slices::Stretch;

// The place of the first zero.
fn first_zero(s: &[u8]) -> Option<usize>
    ensures value { unwrap_or result (length s.now) ≡ to_zero s.now }
    ensures within { IfSome result (λ k. k < length s.now) }
{
    s.iter().position(|b| *b == 0)
}

// How many bytes there are before the first zero, or before the end.
// Kept: four in a round, since by `position` over all the lines of a full note are counted in 2,296 instructions, not 1,372.
fn to_zero(s: &[u8]) -> usize
    ensures { result ≡ to_zero s.now }
{
    let mut end = 0;
    while end + 3 < s.len() {
        if let Some(k) = first_zero(&s[end..end + 4]) {
            return end + k;
        }
        end += 4;
    }
    end + first_zero(&s[end..]).unwrap_or(s.len() - end)
}

// The number of lines of a note.
pub fn line_count(s: &[u8]) -> usize
    ensures { result ≡ length (lines_of s.now) }
{
    let mut lines = 0;
    let mut start = 0;
    while start < s.len() {
        lines += 1;
        start += to_zero(&s[start..]) + 1;
    }
    lines
}

// The place where line k of a note begins; its end where there is no line k.
fn line_start(s: &[u8], k: usize) -> usize
    ensures { result ≡ line_start s.now k }
{
    let mut left = k;
    for (i, b) in s.iter().enumerate() {
        if left == 0 {
            return i;
        }
        if *b == 0 {
            left -= 1;
        }
    }
    s.len()
}

// Line k of a note as a stretch of it; an empty one at its end where there is no line k.
pub fn line_at(s: &[u8], k: usize) -> Stretch
    ensures { result ≡ line_at s.now k }
{
    let place = line_start(s, k);
    Stretch {
        place,
        length: to_zero(&s[place..]),
    }
}
