// The reader of a slot's manifests, and its companion.
ghost use Rattle.std.specs.Prelude.{◌≡◌};
ghost use Rattle.refusal.specs.Refusals.{number_of};
ghost use Rattle.manifest_slot.specs.Slot.{held};
ghost use Rattle.manifest_slot.specs.Calls.{read_step};

use crate::{Role, Slot};
use refusal::Refusal;

impl Slot {
    // The part of its buffer that holds the manifest of that role. No `Result`: a part of a lent buffer is empty where manifest_verdict refuses.
    #[tactic(auto, using(crate::proofs::Parts::active_part, crate::proofs::Parts::pending_part), unfolding(crate::specs::Calls::read_step))]
    pub fn manifest<'a>(self, role: Role, pending: &'a [u8], active: &'a [u8]) -> &'a [u8]
        ensures { result.now ≡ (read_step role (held self pending.now active.now)).after }
    {
        let Ok(()) = self.lent_verdict(pending, active) else {
            return &[];
        };
        match role {
            Role::Active => &active[..self.active.length],
            Role::Pending => &pending[..self.transfer.received()],
        }
    }

    // The refusal of the same call of manifest.
    #[tactic(auto, unfolding(crate::specs::Calls::read_step))]
    pub fn manifest_verdict(self, role: Role, pending: &[u8], active: &[u8]) -> Result<(), Refusal>
        ensures { number_of result ≡ (read_step role (held self pending.now active.now)).number }
    {
        self.lent_verdict(pending, active)
    }
}
