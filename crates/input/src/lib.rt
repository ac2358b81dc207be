// Standard input for the programs: a lent buffer, filled as far as the input goes.
#![tactic(auto)]

ghost use Rattle.std.specs.Prelude.{◌≡◌, ◌≤◌, ◌-◌, length};

use std::io::Read;

// What a program reads at most: one byte more than a book may have.
pub const READ_MOST: usize = 65536;

// Kept: a count beside the lent buffer: nothing here has a heap.
// Fills the buffer from its start on, until it is full, the input ends or a read fails, and says how far.
pub fn read_full<R: Read>(input: &mut R, buf: &mut [u8]) -> usize
    ensures { result ≤ length buf.new }
{
    let mut done = 0;
    // Kept: each read gives as many bytes as it has, and the library's `read_exact` does not say how many came.
    while done < buf.len() {
        match input.read(&mut buf[done..]) {
            Ok(0) | Err(_) => return done,
            Ok(n) => done += n,
        }
    }
    done
}
