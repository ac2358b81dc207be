// The links along the chains: 32 at the first record whose next is out of range or does not name it back. No walk is
// longer than the number of records, so that a cycle ends.
ghost use Rattle.std.specs.Prelude.{◌≡◌, ◌<◌, length};
ghost use Rattle.chains.specs.Chains.{walk, linked};

use crate::records::{NO_RECORD, Records};
use prelude::refusals::{Fault, Refusal};

impl Records<'_> {
    // Along the chain from a head on.
    pub fn judge_links(&self, head: u16) -> Result<(), Refusal>
        requires { head < length self.now.next.now }
        ensures { result ≡ linked self.now.previous.now self.now.next.now (walk (length self.now.next.now) self.now.next.now head) }
    {
        let mut here = usize::from(head);
        for _ in 0..self.next.len() {
            let after = usize::from(self.next[here]);
            match self.previous.get(after) {
                Some(&back) if usize::from(back) == here => here = after,
                None if after == usize::from(NO_RECORD) => return Ok(()),
                _ => return Err(Fault::BadChain.at(here)),
            }
        }
        Ok(())
    }
}
