// A line of a page as one number, for ordering: start minute, record number, place in the file.
ghost use Rattle.std.specs.Prelude.{◌≡◌, ◌<◌};
ghost use Rattle.pages.specs.Codes.{code_with, number_in, place_in};

use days::types::Minute;

// The code of a record.
// Kept: three numbers packed in a u64: `order_codes` takes u64 codes, and the clause names the packing, `code_with`.
pub fn code_of(start: Minute, number: usize, place: usize) -> u64
    requires number_bound { number < 65536 }
    requires place_bound { place < 65536 }
    ensures { result ≡ code_with start.0 number place }
{
    u64::from(start.0) * 4294967296 + number as u64 * 65536 + place as u64
}

// The number in a code.
pub fn number_in(code: u64) -> usize
    ensures { result ≡ number_in code }
{
    (code / 65536 % 65536) as usize
}

// The place in a code.
pub fn place_in(code: u64) -> usize
    ensures { result ≡ place_in code }
{
    (code % 65536) as usize
}
