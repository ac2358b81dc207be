// The order along the chains: 33 at the first record without a rank, or of a rank below that of the record before it.
ghost use Rattle.std.specs.Prelude.{◌≡◌, ◌<◌, length, MatchOption};
ghost use Rattle.chains.specs.Chains.{walk, ordered};
ghost use Rattle.chains.specs.Ranks.{rank};
ghost use Rattle.chains.specs.Stages.{EndsIn};

use crate::records::Records;
use prelude::refusals::{Fault, Refusal};

const LAST_MINUTE: u16 = 1439;

// The rank of an event, the least that there is.
const EVENT_RANK: u16 = 1;

// The rank of a to-do, above all appointments.
const TO_DO_RANK: u16 = 1442;

// A record's rank in its day: events, then appointments by time, then to-dos; none where its kind or minute is bad.
// Kept: the kind is a number, no enum: `apptbook_check_chains` of the C interface is handed an array of them; so is the rank, as the definitions `rank` and `ordered` have it.
fn rank_of(kind: u16, minute: u16) -> Option<u16>
    ensures { MatchOption result (rank kind minute ≡ 0) (λ r. (r ≡ rank kind minute) × (0 < r)) }
{
    match kind {
        0 => Some(EVENT_RANK),
        1 if minute <= LAST_MINUTE => Some(minute + 2),
        2 => Some(TO_DO_RANK),
        _ => None,
    }
}

impl Records<'_> {
    // Along the chain from a head on, which is known to end.
    pub fn judge_order(&self, head: u16) -> Result<(), Refusal>
        requires { EndsIn self.now.next.now head (length self.now.next.now) }
        ensures { result ≡ ordered self.now.kinds.now self.now.minutes.now (walk (length self.now.next.now) self.now.next.now head) }
    {
        let mut here = usize::from(head);
        let mut low = EVENT_RANK;
        while here < self.next.len() {
            match rank_of(self.kinds[here], self.minutes[here]) {
                Some(rank) if low <= rank => low = rank,
                _ => return Err(Fault::BadChainOrder.at(here)),
            }
            here = usize::from(self.next[here]);
        }
        Ok(())
    }
}
