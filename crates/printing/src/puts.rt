// The pieces of a printed page, put into a lent buffer. Each put returns the place after what it wrote.
// Kept: puts with buffer, place and room, no `Display`: the clauses `put` and `next` say the lent buffer's bytes by `splice`, and a text is bytes in any code page, no `str`. A weekday is the paper's number.
ghost use Rattle.std.specs.Prelude.{◌≡◌, ◌+◌, ◌≤◌, length};
ghost use Rattle.prelude.specs.Splice.{splice};
ghost use Rattle.printing.specs.Printed.{date_text, weekday_name, head_line, clock, moved_mark, page_line, page_lines};
ghost use Rattle.printing.specs.Coded.{coded_lines};

use days::types::{Date, DayFacts};
use digits::puts::{put_byte, put_decimal, put_four, put_two};
use pages::ordering::line_of;
use pages::types::Line;
use prelude::slices::copy_in;

#[tactic(auto, using(crate::proofs::Laws::Puts::puts), unfolding(crate::specs::Printed::date_text))]
fn put_date(out: &mut [u8], at: usize, d: Date) -> usize
    requires { at + length (date_text d) ≤ length out.old }
    ensures next { result ≡ at + length (date_text d) }
    ensures put { out.new ≡ splice out.old at (date_text d) }
{
    let a = put_four(out, at, d.year);
    let b = put_byte(out, a, b'-');
    let c = put_two(out, b, d.month);
    let e = put_byte(out, c, b'-');
    put_two(out, e, d.day)
}

#[tactic(auto, using(falls::proofs::Laws::Tests::choices), unfolding(crate::specs::Printed::weekday_name))]
fn weekday_name(w: u16) -> [u8; 3]
    ensures { result ≡ weekday_name w }
{
    match w {
        1 => *b"Sun",
        2 => *b"Mon",
        3 => *b"Tue",
        4 => *b"Wed",
        5 => *b"Thu",
        6 => *b"Fri",
        _ => *b"Sat",
    }
}

fn put_weekday(out: &mut [u8], at: usize, w: u16) -> usize
    requires { at + length (weekday_name w) ≤ length out.old }
    ensures next { result ≡ at + length (weekday_name w) }
    ensures put { out.new ≡ splice out.old at (weekday_name w) }
{
    let name = weekday_name(w);
    copy_in(out, at, &name)
}

// The head of a page of n lines.
#[tactic(auto, using(crate::proofs::Laws::Puts::puts), unfolding(crate::specs::Printed::head_line))]
pub fn put_head(out: &mut [u8], at: usize, d: DayFacts, n: usize) -> usize
    requires { at + length (head_line d n) ≤ length out.old }
    ensures next { result ≡ at + length (head_line d n) }
    ensures put { out.new ≡ splice out.old at (head_line d n) }
{
    let date = d.date;
    let a = put_date(out, at, date);
    let b = put_byte(out, a, b' ');
    let c = put_weekday(out, b, d.weekday);
    let e = put_byte(out, c, b' ');
    let g = put_decimal(out, e, n);
    put_byte(out, g, b'\n')
}

#[tactic(auto, using(crate::proofs::Laws::Puts::puts), unfolding(crate::specs::Printed::clock))]
fn put_clock(out: &mut [u8], at: usize, m: u16) -> usize
    requires { at + length (clock m) ≤ length out.old }
    ensures next { result ≡ at + length (clock m) }
    ensures put { out.new ≡ splice out.old at (clock m) }
{
    let a = put_two(out, at, m / 60);
    let b = put_byte(out, a, b':');
    put_two(out, b, m % 60)
}

#[tactic(auto, using(crate::proofs::Laws::Puts::puts, falls::proofs::Laws::Tests::choices), unfolding(crate::specs::Printed::moved_mark))]
fn put_mark(out: &mut [u8], at: usize, moved: bool) -> usize
    requires { at + length (moved_mark moved) ≤ length out.old }
    ensures next { result ≡ at + length (moved_mark moved) }
    ensures put { out.new ≡ splice out.old at (moved_mark moved) }
{
    if moved { put_byte(out, at, b'*') } else { at }
}

#[tactic(auto, using(crate::proofs::Laws::Puts::puts), unfolding(crate::specs::Printed::page_line))]
fn put_line(file: &[u8], l: Line, out: &mut [u8], at: usize) -> usize
    requires { at + length (page_line file.now l) ≤ length out.old }
    ensures next { result ≡ at + length (page_line file.now l) }
    ensures put { out.new ≡ splice out.old at (page_line file.now l) }
{
    let a = put_clock(out, at, l.start.0);
    let b = put_byte(out, a, b'-');
    let c = put_clock(out, b, l.end.0);
    let d = put_mark(out, c, l.moved);
    let e = put_byte(out, d, b' ');
    let g = copy_in(out, e, l.text.of(file));
    put_byte(out, g, b'\n')
}

// The lines of codes on the page of a day, one behind the other.
pub fn put_lines(file: &[u8], f: DayFacts, codes: &[u64], out: &mut [u8], at: usize) -> usize
    requires { at + length (page_lines file.now (coded_lines file.now f codes.now)) ≤ length out.old }
    ensures next { result ≡ at + length (page_lines file.now (coded_lines file.now f codes.now)) }
    ensures put { out.new ≡ splice out.old at (page_lines file.now (coded_lines file.now f codes.now)) }
{
    let mut pos = at;
    for &code in codes {
        pos = put_line(file, line_of(file, f, code), out, pos);
    }
    pos
}
