// What prepare and update ask of their arguments and of the transfer.
ghost use Rattle.std.specs.Prelude.{◌≡◌, eqb};
ghost use Rattle.refusal.specs.Refusals.{number_of};
ghost use Rattle.refusal.specs.Rules.{◌when◌else◌};
ghost use Rattle.slot_state.specs.Rules.{prepare_rule, update_rule};

use crate::{BUFFER_LEN, SHORTEST, Transfer, outside};
use refusal::Refusal;

// Whether a manifest may have so many bytes.
#[tactic(auto, unfolding(crate::specs::Rules::prepare_rule))]
pub fn total_verdict(total: u64) -> Result<(), Refusal>
    ensures { number_of result ≡ prepare_rule total }
{
    if outside(SHORTEST, BUFFER_LEN, total as usize) {
        return Err(Refusal::OutOfRange);
    }
    Ok(())
}

// Whether a payload may have n bytes at all.
pub fn length_verdict(n: usize) -> Result<(), Refusal>
    ensures { number_of result ≡ (2 when eqb n 0 else 0) }
{
    if n == 0 {
        return Err(Refusal::BadLength);
    }
    Ok(())
}

impl Transfer {
    // Whether n bytes may be the next.
    #[tactic(auto, unfolding(crate::specs::Rules::update_rule))]
    pub fn payload_verdict(self, n: usize) -> Result<(), Refusal>
        ensures { number_of result ≡ update_rule self n }
    {
        if self.too_long(n) {
            return Err(Refusal::OutOfRange);
        }
        if self.is_idle() {
            return Err(Refusal::OutOfStep);
        }
        Ok(())
    }
}
