// Checking day chains: sizes, table, heads, links, order. Linear in table and records.
ghost use Rattle.std.specs.Prelude.{◌≡◌, ℕ, ◌<◌};
ghost use Rattle.prelude.specs.Verdicts.{Verdict, in_turn};
ghost use Rattle.chains.specs.Chains.{chains_judged, chains_answer};
ghost use Rattle.chains.specs.Shown.{Promised};

use crate::heads::judge_heads;
use crate::records::Records;
use crate::table::Table;
use prelude::refusals::Refusal;

// Judges the numbers below a count, one after the other, up to the first that is refused.
fn judge_in_turn<F: Fn(usize) -> Result<(), Refusal>>(count: usize, judge: F) -> Result<(), Refusal>
    requires { (i : ℕ) → i < count → F.pre judge i }
    ensures { (judged : ℕ → Verdict) → ((i : ℕ) (v : Verdict) → i < count → F.post judge i v → v ≡ judged i) → result ≡ in_turn judged count 0 }
{
    for i in 0..count {
        judge(i)?;
    }
    Ok(())
}

// 31, 32 of the heads, 32 of the links, 33.
fn judge(table: &Table, records: &Records) -> Result<(), Refusal>
    ensures { result ≡ chains_judged table.now.bytes.now records.now.previous.now records.now.next.now records.now.kinds.now records.now.minutes.now }
{
    table.judge()?;
    judge_heads(table, records.previous)?;
    judge_in_turn(table.days, |i| records.judge_links(table.head_at(i)))?;
    judge_in_turn(table.days, |i| records.judge_order(table.head_at(i)))
}

// The number of days, or the refusal.
// Kept: four arrays side by side, as `apptbook_check_chains` of the C interface is handed them.
pub fn check_chains(
    table: &[u8],
    previous: &[u16],
    next: &[u16],
    kinds: &[u16],
    minutes: &[u16],
) -> Result<usize, Refusal>
    ensures answer { result ≡ chains_answer table.now previous.now next.now kinds.now minutes.now }
    ensures shown { Promised table.now next.now result }
{
    let records = Records::new(previous, next, kinds, minutes)?;
    let table = Table::new(table)?;
    judge(&table, &records)?;
    Ok(table.days)
}
