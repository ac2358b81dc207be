// Numbers and single bytes as printed text, put into a lent buffer. Each put returns the place after what it wrote.
ghost use Rattle.std.specs.Prelude.{◌≡◌, [], ◌∷◌, ◌+◌, ◌≤◌, length};
ghost use Rattle.prelude.specs.Splice.{splice};
ghost use Rattle.digits.specs.Digits.{two, four, decimal};

// One byte as it is.
// Kept: buffer, place and room apart here and below, and no `Display`, since the clauses `put` and `next` say the lent buffer's bytes by `splice`.
pub fn put_byte(out: &mut [u8], at: usize, b: u8) -> usize
    requires { at + length (b ∷ []) ≤ length out.old }
    ensures next { result ≡ at + length (b ∷ []) }
    ensures put { out.new ≡ splice out.old at (b ∷ []) }
{
    out[at] = b;
    at + 1
}

// The last two digits of n.
pub fn put_two(out: &mut [u8], at: usize, n: u16) -> usize
    requires { at + length (two n) ≤ length out.old }
    ensures next { result ≡ at + length (two n) }
    ensures put { out.new ≡ splice out.old at (two n) }
{
    out[at] = b'0' + (n / 10 % 10) as u8;
    out[at + 1] = b'0' + (n % 10) as u8;
    at + 2
}

// The last four digits of n.
pub fn put_four(out: &mut [u8], at: usize, n: u16) -> usize
    requires { at + length (four n) ≤ length out.old }
    ensures next { result ≡ at + length (four n) }
    ensures put { out.new ≡ splice out.old at (four n) }
{
    let middle = put_two(out, at, n / 100);
    put_two(out, middle, n)
}

// How many digits n has: one, and one more for each power of ten up to n. The powers are held against n / 10, so that none overflows.
pub fn decimal_length(n: usize) -> usize
    ensures { result ≡ length (decimal n) }
{
    let tenth = n / 10;
    let mut power = 1;
    let mut more = 0;
    while power <= tenth {
        power *= 10;
        more += 1;
    }
    more + 1
}

// All digits of n, from the last one back.
pub fn put_decimal(out: &mut [u8], at: usize, n: usize) -> usize
    requires { at + length (decimal n) ≤ length out.old }
    ensures next { result ≡ at + length (decimal n) }
    ensures put { out.new ≡ splice out.old at (decimal n) }
{
    let end = at + decimal_length(n);
    let mut left = n;
    for i in (at + 1..end).rev() {
        out[i] = b'0' + (left % 10) as u8;
        left /= 10;
    }
    out[at] = b'0' + left as u8;
    end
}
