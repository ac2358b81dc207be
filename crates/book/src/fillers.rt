// What comes after the end record: at most 127 bytes, all 1Ah.
ghost use Rattle.std.specs.Prelude.{◌≡◌, ◌-◌, ◌≤◌, length};
ghost use Rattle.book.specs.Fillers.{fillers_from, after_end_record};

use prelude::refusals::{Fault, Refusal};

const FILLER: u8 = 0x1A;

const MOST_FILLERS: usize = 127;

// The bytes from a place on, all of them fillers.
fn fillers_from(file: &[u8], from: usize) -> Result<(), Refusal>
    requires { from ≤ length file.now }
    ensures { result ≡ fillers_from (length file.now - from) file.now from }
{
    for (i, b) in file[from..].iter().enumerate() {
        if *b != FILLER {
            return Err(Fault::AfterEnd.at(from + i));
        }
    }
    Ok(())
}

// The bytes after the end record, which ends at e.
pub fn after_end_record(file: &[u8], e: usize) -> Result<(), Refusal>
    requires { e ≤ length file.now }
    ensures { result ≡ after_end_record file.now e }
{
    if file.len() == e {
        return Ok(());
    }
    if file.len() - e > MOST_FILLERS {
        return Err(Fault::AfterEnd.at(e));
    }
    fillers_from(file, e)
}
