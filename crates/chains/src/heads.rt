// The heads of the chains: 32 at the first entry whose head is bad or an earlier entry's. Heads met are marked, so that
// each entry is looked at once.
ghost use Rattle.std.specs.Prelude.{◌≡◌, ◌≤◌, length};
ghost use Rattle.prelude.specs.Verdicts.{in_turn};
ghost use Rattle.chains.specs.Chains.{most_chain_records, head_verdict};

use crate::records::{MOST_RECORDS, NO_RECORD};
use crate::table::Table;
use prelude::refusals::{Fault, Refusal};

// With so many records a shorter list of marks will do, which is cleared sooner.
const FEW: usize = 256;

const HALF: usize = 2048;

// 32 at the first bad head, with a mark for each of up to N records.
fn mark_heads<const N: usize>(table: &Table, previous: &[u16]) -> Result<(), Refusal>
    requires { length previous.now ≤ N }
    ensures { result ≡ in_turn (head_verdict table.now.bytes.now previous.now) table.now.days 0 }
{
    // Kept: a mark for each record, beside the array that C lends: nothing here has a heap.
    let mut met = [false; N];
    for i in 0..table.days {
        let head = usize::from(table.head_at(i));
        if head >= previous.len() || previous[head] != NO_RECORD || met[head] {
            return Err(Fault::BadChain.at(i));
        }
        met[head] = true;
    }
    Ok(())
}

// The same with as few marks as will do.
pub fn judge_heads(table: &Table, previous: &[u16]) -> Result<(), Refusal>
    requires { length previous.now ≤ most_chain_records }
    ensures { result ≡ in_turn (head_verdict table.now.bytes.now previous.now) table.now.days 0 }
{
    let count = previous.len();
    if count <= FEW {
        mark_heads::<FEW>(table, previous)
    } else if count <= HALF {
        mark_heads::<HALF>(table, previous)
    } else {
        mark_heads::<MOST_RECORDS>(table, previous)
    }
}
