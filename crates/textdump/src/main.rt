// A test program: it writes what the calls that give a stretch of the caller's own file give, which no caller in C can have. A book on standard input, a Calendar day as first word; the short-month choice is that of a caller who names none.
#![tactic(auto)]

ghost use Rattle.std.specs.Prelude.{◌≡◌, ◌≤◌, ◌-◌, length};

use book::entries::note_at;
use book::reading::read_book;
use calendar::shown::appointment_count;
use days::types::CalendarDay;
use digits::words::{is_number, number_of};
use export::calls::export;
use falls::choice::default_choice;
use input::{READ_MOST, read_full};
use pages::lines::{line_text, page_lines};
use std::env::Env;
use std::io::{Input, Print};

// The bytes that one word may have at most.
const WORD_MOST: usize = 4096;

// The day that a word names; one that is no Calendar day for any other word.
// Kept: no Option, since each call refuses such a day itself, which the program is to show.
fn day_of(w: &[u8]) -> CalendarDay {
    let number = if is_number(w) { number_of(w) } else { u32::MAX };
    CalendarDay(u16::try_from(number).unwrap_or(u16::MAX))
}

// What cannot be written is lost.
fn put<R: Print>(rt: &R, text: &[u8]) {
    let _written = rt.write_all(text).is_ok();
}

fn put_line<R: Print>(rt: &R, text: &[u8]) {
    put(rt, text);
    put(rt, b"\n");
}

// Each record's text and note. There is no record behind the last, so that nothing is to be written for it.
fn put_records<R: Print>(rt: &R, file: &[u8]) {
    let records = read_book(file).map_or(0, |book| book.records);
    for i in 0..records {
        put_line(rt, book::entries::text_at(file, i));
        put_line(rt, note_at(file, i));
    }
    put(rt, book::entries::text_at(file, records));
    put(rt, note_at(file, records));
}

// The text of each line of a day's page, and in the same way nothing behind them.
fn put_page<R: Print>(rt: &R, file: &[u8], day: CalendarDay) {
    let choice = default_choice();
    let lines = page_lines(file, day, choice).unwrap_or(0);
    for i in 0..lines {
        put_line(rt, line_text(file, day, choice, i));
    }
    put(rt, line_text(file, day, choice, lines));
}

// The text of each appointment of a day of a Calendar file, in the same way.
fn put_appointments<R: Print>(rt: &R, file: &[u8], day: CalendarDay) {
    let appointments = appointment_count(file, day).unwrap_or(0);
    for i in 0..appointments {
        put_line(rt, calendar::shown::text_at(file, day, i));
    }
    put(rt, calendar::shown::text_at(file, day, appointments));
}

// The export of one day, for which 65,536 bytes are always room; an empty file where it is refused.
fn export_day(file: &[u8], day: CalendarDay, out: &mut [u8]) -> usize
    ensures { result ≤ length out.old }
{
    export(file, day, 1, default_choice(), out).unwrap_or(0)
}

// Kept: arrays on the stack with a length beside, since the program allocates nothing.
fn main(rt: HostRuntime) {
    let mut book = [0u8; READ_MOST];
    let mut input = rt.reader();
    let size = read_full(&mut input, &mut book);
    let mut word = [0u8; WORD_MOST];
    let n = rt.arg(1, &mut word).unwrap_or(0);
    let day = day_of(&word[..n]);
    put_records(&rt, &book[..size]);
    put_page(&rt, &book[..size], day);
    let mut calendar = [0u8; READ_MOST];
    let length = export_day(&book[..size], day, &mut calendar);
    put_appointments(&rt, &calendar[..length], day);
}
