// The program: a book on standard input, a command in its arguments, the answer on standard output.
#![tactic(auto)]

ghost use Rattle.std.specs.Prelude.{◌≡◌, ◌-◌};

use commands::parsing::{command_of, word_of};
use commands::responding::respond;
use commands::types::{PROGRAM_ROOM, Word};
use input::{READ_MOST, read_full};
use std::env::{Env, FillError};
use std::io::{Input, Print};

// The bytes that one word may have at most.
const WORD_MOST: usize = 131072;

// The word at a place of the command line; one that cannot be had whole is no number and no choice.
fn word_at<R: Env>(rt: &R, i: usize, space: &mut [u8]) -> Word {
    match rt.arg(i, space) {
        Ok(n) => word_of(&space[..n]),
        Err(_) => Word::Other,
    }
}

// The words of the command line, with the program's own name.
fn word_count<R: Env>(rt: &R) -> usize {
    let mut space = [0u8; 1];
    for i in 0..usize::MAX {
        if let Err(FillError::NotPresent) = rt.arg(i, &mut space) {
            return i;
        }
    }
    usize::MAX
}

// The words after the program's own name.
fn words_of(count: usize) -> usize
    ensures { result ≡ count - 1 }
{
    count.saturating_sub(1)
}

// Kept: arrays on the stack with a length beside, since the program allocates nothing.
fn main(rt: HostRuntime) {
    let mut book = [0u8; READ_MOST];
    let mut input = rt.reader();
    let size = read_full(&mut input, &mut book);
    let mut space = [0u8; WORD_MOST];
    let a = word_at(&rt, 1, &mut space);
    let b = word_at(&rt, 2, &mut space);
    let c = word_at(&rt, 3, &mut space);
    let command = command_of(words_of(word_count(&rt)), a, b, c);
    let mut out = [0u8; PROGRAM_ROOM];
    let n = respond(&book[..size], command, &mut out);
    // an answer that cannot be written is lost, as the process has no other way to say it
    let _written = rt.write_all(&out[..n]).is_ok();
}
