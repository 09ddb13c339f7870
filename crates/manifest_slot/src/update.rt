// The next bytes of a transfer.
ghost use Rattle.std.specs.Prelude.{◌≡◌, ℕ, List, false};
ghost use Rattle.slot_state.specs.State.{too_long};
ghost use Rattle.manifest_slot.specs.Slot.{advanced, held};
ghost use Rattle.manifest_slot.specs.Calls.{update_lent, update_step, answered, slot_outcome};

use crate::{Answer, Slot, Transfer};
use refusal::Refusal;
use slot_state::length_verdict;

// The transfer with n bytes more.
fn advanced(transfer: Transfer, n: usize) -> Transfer
    requires { too_long transfer n ≡ false }
    ensures { result ≡ advanced transfer n }
{
    match transfer {
        Transfer::Idle => transfer,
        Transfer::Receiving { total, received } => Transfer::Receiving {
            total,
            received: received + n,
        },
    }
}

impl Slot {
    // The payload goes after the bytes received.
    pub fn update(self, payload: &[u8], pending: &mut [u8], active: &[u8]) -> Answer
        ensures { answered result pending.new active.now ≡ update_step payload.now (held self pending.old active.now) }
    {
        self.answer(self.update_judged(payload, pending, active))
    }

    #[tactic(auto, unfolding(crate::specs::Calls::update_step, crate::specs::Calls::update_number, crate::specs::Calls::update_lent))]
    fn update_judged(
        self,
        payload: &[u8],
        pending: &mut [u8],
        active: &[u8],
    ) -> Result<Slot, Refusal>
        ensures { slot_outcome result self pending.new active.now ≡ update_step payload.now (held self pending.old active.now) }
    {
        self.lent_verdict(pending, active)?;
        length_verdict(payload.len())?;
        self.update_lent(payload, pending)
    }

    // Update's own rules, for a caller that has judged buffers, state and the payload's length.
    #[tactic(auto, using(slot_state::proofs::Accepted::payload_accepted), unfolding(crate::specs::Calls::update_lent))]
    pub fn update_lent(self, payload: &[u8], pending: &mut [u8]) -> Result<Slot, Refusal>
        ensures { (active : List ℕ) → slot_outcome result self pending.new active ≡ update_lent payload.now (held self pending.old active) }
    {
        self.transfer.payload_verdict(payload.len())?;
        octets::put(pending, self.transfer.received(), payload);
        Ok(Slot {
            transfer: advanced(self.transfer, payload.len()),
            ..self
        })
    }
}
