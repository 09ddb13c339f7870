// What every call asks first: the lengths of the lent buffers, and whether the state is one that the rules permit.
ghost use Rattle.std.specs.Prelude.{◌≡◌};
ghost use Rattle.refusal.specs.Refusals.{number_of};
ghost use Rattle.refusal.specs.Rules.{◌when◌else◌};
ghost use Rattle.manifest_slot.specs.Slot.{unsound, held};
ghost use Rattle.manifest_slot.specs.Calls.{lent_number};

use crate::Slot;
use refusal::Refusal;
use slot_state::buffers_verdict;

impl Slot {
    // The length of each of the two buffers.
    pub const BUFFER_LEN: usize = slot_state::BUFFER_LEN;

    // A header and a signature of one byte.
    pub const SHORTEST: usize = slot_state::SHORTEST;

    #[tactic(auto, unfolding(crate::specs::Slot::unsound))]
    fn state_verdict(self) -> Result<(), Refusal>
        ensures { number_of result ≡ (4 when unsound self else 0) }
    {
        if self.active.unsound() || self.transfer.unsound() {
            return Err(Refusal::UnsoundState);
        }
        Ok(())
    }

    // Refusal 3 for the buffers, then 4 for the state.
    #[tactic(auto, unfolding(slot_state::specs::Rules::open_number, crate::specs::Calls::lent_number))]
    pub fn lent_verdict(self, pending: &[u8], active: &[u8]) -> Result<(), Refusal>
        ensures { number_of result ≡ lent_number (held self pending.now active.now) }
    {
        buffers_verdict(pending, active)?;
        self.state_verdict()
    }
}
