// A transfer begins.
ghost use Rattle.std.specs.Prelude.{◌≡◌, ℕ, List};
ghost use Rattle.manifest_slot.specs.Slot.{held};
ghost use Rattle.manifest_slot.specs.Calls.{prepare_lent, prepare_step, answered, slot_outcome};

use crate::{Answer, Slot, Transfer};
use refusal::Refusal;
use slot_state::total_verdict;

impl Slot {
    // A manifest of total bytes is to arrive; a transfer under way is dropped.
    pub fn prepare(self, total: u64, pending: &[u8], active: &[u8]) -> Answer
        ensures { answered result pending.now active.now ≡ prepare_step total (held self pending.now active.now) }
    {
        self.answer(self.prepare_judged(total, pending, active))
    }

    #[tactic(auto, unfolding(crate::specs::Calls::prepare_step, crate::specs::Calls::prepare_number, crate::specs::Calls::prepare_lent))]
    fn prepare_judged(self, total: u64, pending: &[u8], active: &[u8]) -> Result<Slot, Refusal>
        ensures { slot_outcome result self pending.now active.now ≡ prepare_step total (held self pending.now active.now) }
    {
        self.lent_verdict(pending, active)?;
        self.prepare_lent(total)
    }

    // Prepare's own rule, for a caller that has judged buffers and state.
    #[tactic(auto, unfolding(crate::specs::Calls::prepare_lent))]
    pub fn prepare_lent(self, total: u64) -> Result<Slot, Refusal>
        ensures { (pending active : List ℕ) → slot_outcome result self pending active ≡ prepare_lent total (held self pending active) }
    {
        total_verdict(total)?;
        let transfer = Transfer::Receiving {
            total: total as usize,
            received: 0,
        };
        Ok(Slot { transfer, ..self })
    }
}
