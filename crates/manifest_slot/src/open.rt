// A slot is opened for manifests of one magic number.
ghost use Rattle.std.specs.Prelude.{◌≡◌};
ghost use Rattle.manifest_slot.specs.declared.Slot.{Slot};
ghost use Rattle.manifest_slot.specs.Slot.{fresh, held};
ghost use Rattle.manifest_slot.specs.Calls.{open_step, slot_outcome};

use crate::{Active, Slot, Transfer};
use manifest_header::VersionId;
use refusal::Refusal;
use slot_state::buffers_verdict;

impl Slot {
    // A slot with no active manifest.
    fn fresh(magic: u16) -> Slot
        ensures { result ≡ fresh magic }
    {
        Slot {
            magic,
            active: Active {
                length: 0,
                id: VersionId(0),
            },
            transfer: Transfer::Idle,
        }
    }

    // Both buffers become zero. Refused, an opening hands no slot back, and whatever slot the caller has stands.
    #[tactic(auto, using(crate::proofs::Parts::open_done))]
    pub fn open(magic: u16, pending: &mut [u8], active: &mut [u8]) -> Result<Slot, Refusal>
        ensures { (before : Slot) → slot_outcome result before pending.new active.new ≡ open_step magic (held before pending.old active.old) }
    {
        buffers_verdict(pending, active)?;
        pending.fill(0);
        active.fill(0);
        Ok(Slot::fresh(magic))
    }
}
