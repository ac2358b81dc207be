// HP 200LX day chains: the Single Occurrence Table beside the arrays of the data records.
ghost use Rattle.std.specs.Prelude.{◌≡◌};
ghost use Rattle.chains.specs.Chains.{chains_answer};
ghost use Rattle.marshal.specs.ChainAnswers.{PromisedOut};
ghost use Rattle.marshal.specs.CountAnswers.{count_out};

use chains::checking::check_chains;
use marshal::count_answers::CountOut;

#[unsafe(no_mangle)]
pub extern "C" fn apptbook_check_chains(
    table: &[u8],
    previous: &[u16],
    next: &[u16],
    kinds: &[u16],
    minutes: &[u16],
) -> CountOut
    ensures gives { result ≡ count_out (chains_answer table.now previous.now next.now kinds.now minutes.now) }
    ensures shown { PromisedOut table.now next.now result }
{
    CountOut::from(check_chains(table, previous, next, kinds, minutes))
}
