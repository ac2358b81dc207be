// What the program writes, put at the start of a lent buffer.
ghost use Rattle.std.specs.Prelude.{◌≡◌, ◌≤◌, length};
ghost use Rattle.prelude.specs.Splice.{splice};
ghost use Rattle.book.specs.Books.{book_of};
ghost use Rattle.pages.specs.Answers.{validated};
ghost use Rattle.commands.specs.Responses.{refusal_text, page_response, export_response, other_response, program_room, response};

use crate::types::Command;
use book::reading::read_book;
use days::types::CalendarDay;
use digits::puts::{put_byte, put_decimal};
use export::calls::export;
use falls::types::ShortMonth;
use prelude::refusals::Refusal;
use prelude::refused::OUT_OF_RANGE;
use printing::calls::print_page;

// Kept: here and below the buffer's room in each contract, and its count as the answer: the clauses `put` and `next` say the lent bytes by `splice`, and `print_page` and `export` take the slice.
// A refusal's text: ten digits, a space, twenty digits and 0Ah at most.
fn put_refusal(out: &mut [u8], e: Refusal) -> usize
    requires { 32 ≤ length out.old }
    ensures next { result ≡ length (refusal_text e) }
    ensures put { out.new ≡ splice out.old 0 (refusal_text e) }
    ensures within { result ≤ length out.old }
{
    let a = put_decimal(out, 0, e.number as usize);
    let b = put_byte(out, a, b' ');
    let c = put_decimal(out, b, e.place);
    put_byte(out, c, b'\n')
}

fn other_response(file: &[u8], out: &mut [u8]) -> usize
    requires { 32 ≤ length out.old }
    ensures next { result ≡ length (other_response (book_of file.now)) }
    ensures put { out.new ≡ splice out.old 0 (other_response (book_of file.now)) }
    ensures within { result ≤ length out.old }
{
    match read_book(file) {
        Ok(_) => put_refusal(out, OUT_OF_RANGE),
        Err(own) => put_refusal(out, own),
    }
}

fn page_response(file: &[u8], d: u32, c: ShortMonth, out: &mut [u8]) -> usize
    requires { 32 ≤ length out.old }
    ensures next { result ≡ length (page_response file.now c (length out.old) (validated file.now (record { 0 = d }))) }
    ensures put { out.new ≡ splice out.old 0 (page_response file.now c (length out.old) (validated file.now (record { 0 = d }))) }
    ensures within { result ≤ length out.old }
{
    let Ok(day) = u16::try_from(d) else {
        return other_response(file, out);
    };
    match print_page(file, CalendarDay(day), c, out) {
        Ok(n) => n,
        Err(e) => put_refusal(out, e),
    }
}

fn export_response(file: &[u8], first: u32, count: u32, c: ShortMonth, out: &mut [u8]) -> usize
    requires { 32 ≤ length out.old }
    ensures next { result ≡ length (export_response file.now c (length out.old) first count) }
    ensures put { out.new ≡ splice out.old 0 (export_response file.now c (length out.old) first count) }
    ensures within { result ≤ length out.old }
{
    let Ok(day) = u16::try_from(first) else {
        return other_response(file, out);
    };
    let Ok(days) = u16::try_from(count) else {
        return other_response(file, out);
    };
    match export(file, CalendarDay(day), days, c, out) {
        Ok(n) => n,
        Err(e) => put_refusal(out, e),
    }
}

// The bytes that the program writes for a command on a book, and how many they are. The room is the program's, neither less nor more.
pub fn respond(file: &[u8], command: Command, out: &mut [u8]) -> usize
    requires { length out.old ≡ program_room }
    ensures next { result ≡ length (response file.now command) }
    ensures put { out.new ≡ splice out.old 0 (response file.now command) }
    ensures within { result ≤ length out.old }
{
    match command {
        Command::Page(d, c) => page_response(file, d, c, out),
        Command::Export(first, count, c) => export_response(file, first, count, c, out),
        Command::Unknown => other_response(file, out),
    }
}
