// What a page is measured as and printed from.
ghost use Rattle.std.specs.Prelude.{◌≤◌, length};
ghost use Rattle.printing.specs.Coded.{coded_text, CodesOf};

use days::types::DayFacts;

// No page has more bytes.
pub const MOST_PAGE_BYTES: usize = 65535;

// How large a page is: its lines, and the bytes of all of them.
#[derive(Clone, Copy)]
pub struct Size {
    pub lines: usize,
    pub bytes: usize,
}

// A page by the codes of its lines, in their order: of which book, and of which day.
#[derive(Clone, Copy)]
pub struct Coded<'a> {
    pub file: &'a [u8],
    pub facts: DayFacts,
    pub codes: &'a [u64],
    ghost of: { CodesOf file.now codes.now },
    ghost short: { length (coded_text file.now facts codes.now) ≤ 65535 },
}
