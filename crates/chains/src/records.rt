// The records: for each its previous and its next, its kind and its start minute, in arrays of one length.
ghost use Rattle.std.specs.Prelude.{◌≡◌, false, length, IfOk};
ghost use Rattle.std.specs.Result.{IfErr};
ghost use Rattle.prelude.specs.Refusals.{refusal_at, bad_arrays};
ghost use Rattle.chains.specs.Chains.{sizes_ok};
ghost use Rattle.chains.specs.Stages.{EqualLengths};

use prelude::refusals::Refusal;
use prelude::refused::BAD_ARRAYS;

// The number of no record.
// Kept: a number, no Option: the arrays of links that `apptbook_check_chains` of the C interface is handed hold it.
pub const NO_RECORD: u16 = 65535;

pub const MOST_RECORDS: usize = 4096;

// Kept: four arrays side by side, with indices as links: `apptbook_check_chains` of the C interface is handed them so.
#[derive(Clone, Copy)]
pub struct Records<'a> {
    pub previous: &'a [u16],
    pub next: &'a [u16],
    pub kinds: &'a [u16],
    pub minutes: &'a [u16],
    ghost sizes: { EqualLengths previous.now next.now kinds.now minutes.now },
}

impl<'a> Records<'a> {
    // Arrays that are equally long, at most 4,096; 30 for others.
    pub fn new(
        previous: &'a [u16],
        next: &'a [u16],
        kinds: &'a [u16],
        minutes: &'a [u16],
    ) -> Result<Records<'a>, Refusal>
        ensures these { IfOk result (λ r. (r.previous.now ≡ previous.now) × (r.next.now ≡ next.now) × (r.kinds.now ≡ kinds.now) × (r.minutes.now ≡ minutes.now)) }
        ensures unequal { IfErr result (λ e. (e ≡ refusal_at bad_arrays 0) × (sizes_ok (length previous.now) (length next.now) (length kinds.now) (length minutes.now) ≡ false)) }
    {
        let count = previous.len();
        if next.len() != count
            || kinds.len() != count
            || minutes.len() != count
            || count > MOST_RECORDS
        {
            return Err(BAD_ARRAYS);
        }
        Ok(Records {
            previous,
            next,
            kinds,
            minutes,
        })
    }
}
