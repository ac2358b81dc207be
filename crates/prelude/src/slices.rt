// The project's vocabulary in code: reading bytes at any place, parts of a slice, and copying into a buffer.
ghost use Rattle.std.specs.Prelude.{◌≡◌, [], ◌∷◌, ◌+◌, ◌<◌, ◌≤◌, length};
ghost use Rattle.prelude.specs.Bytes.{byte, word, word_high, part, stretch_bytes};
ghost use Rattle.prelude.specs.Splice.{splice};

// A stretch of bytes: where it begins, and how many they are.
#[derive(Clone, Copy)]
pub struct Stretch {
    pub place: usize,
    pub length: usize,
}

impl Stretch {
    // Its bytes in a file, as many of them as there are.
    pub fn of(self, file: &[u8]) -> &[u8]
        ensures { result.now ≡ stretch_bytes file.now self }
    {
        part(file, self.place, self.length)
    }
}

// The byte at i, 0 past the end.
pub fn byte(s: &[u8], i: usize) -> u8
    ensures { result ≡ byte s.now i }
{
    s.get(i).copied().unwrap_or(0)
}

// The bytes at i and behind it, 0 past the end.
fn two(s: &[u8], i: usize) -> [u8; 2]
    ensures { result ≡ byte s.now i ∷ (byte s.now (i + 1) ∷ []) }
{
    if i < s.len() {
        [s[i], byte(s, i + 1)]
    } else {
        [0, 0]
    }
}

// The number of the two bytes at i, low byte first.
pub fn word(s: &[u8], i: usize) -> u16
    ensures { result ≡ word s.now i }
{
    u16::from_le_bytes(two(s, i))
}

// The same where both bytes are there, without looking.
pub fn word_in(s: &[u8], i: usize) -> u16
    requires { i + 1 < length s.now }
    ensures { result ≡ word s.now i }
{
    u16::from_le_bytes([s[i], s[i + 1]])
}

// The number of the two bytes at i, high byte first.
pub fn word_high(s: &[u8], i: usize) -> u16
    ensures { result ≡ word_high s.now i }
{
    u16::from_be_bytes(two(s, i))
}

// The n bytes from a, as many of them as there are.
// Kept: a place and a length beside `Stretch`: `body_from` would build one only to lend it.
pub fn part(s: &[u8], a: usize, n: usize) -> &[u8]
    ensures { result.now ≡ part s.now a n }
{
    let rest = s.get(a..).unwrap_or(&[]);
    &rest[..n.min(rest.len())]
}

// Writes src over dst from at on, and returns the place after it.
// Kept: a loop, since `copy_from_slice` calls `memmove`, a name that the archive would need from outside, and adding a small record took a fifth more instructions (docs/SPEED.md).
// Kept: buffer, place and room apart: the clauses `put` and `next` are of one call (`splice`), and a struct around the `&mut` would be built at each.
pub fn copy_in(dst: &mut [u8], at: usize, src: &[u8]) -> usize
    requires { at + length src.now ≤ length dst.old }
    ensures next { result ≡ at + length src.now }
    ensures put { dst.new ≡ splice dst.old at src.now }
{
    for (j, byte) in src.iter().enumerate() {
        dst[at + j] = *byte;
    }
    at + src.len()
}
