// Numbers among the words of a command line: a word is tested first, and then read.
ghost use Rattle.std.specs.Prelude.{◌≡◌, ◌-◌};
ghost use Rattle.digits.specs.Digits.{value, is_number, capped};

// Whether a word is a number: one or more of the digits 0 to 9 and nothing else.
pub fn is_number(w: &[u8]) -> bool
    ensures { result ≡ is_number w.now }
{
    !w.is_empty() && w.iter().all(|b| b.is_ascii_digit())
}

// What a byte counts in a number; of any byte what it has above 48.
fn digit_of(b: u8) -> u32
    ensures { result ≡ b - 48 }
{
    u32::from(b.saturating_sub(b'0'))
}

// The value of a word, 65,536 for all that are larger.
// Kept: by hand, no `parse`, and that number for too large ones: a word may have any number of digits, and the clause has `capped`.
pub fn number_of(w: &[u8]) -> u32
    ensures { result ≡ capped (value w.now) }
{
    let mut v: u32 = 0;
    for b in w {
        v = 10 * v + digit_of(*b);
        if 65535 < v {
            return 65536;
        }
    }
    v
}
