// The manifest that has arrived becomes the active one.
ghost use Rattle.std.specs.Prelude.{◌≡◌};
ghost use Rattle.refusal.specs.Refusals.{number_of};
ghost use Rattle.manifest_slot.specs.Slot.{held};
ghost use Rattle.manifest_slot.specs.Calls.{bad_header, stale, pending_rule, signature_rule, activate_rule, activated_slot};
ghost use Rattle.manifest_slot.specs.Calls.{activate_lent, activate_step, answered, slot_outcome};

use crate::{Active, Answer, Slot, Transfer};
use manifest_header::{header_unfit, magic_number, version_id};
use refusal::Refusal;

impl Slot {
    // A header that doesn't fit the total, or another magic number.
    fn bad_header(self, manifest: &[u8]) -> bool
        ensures { result ≡ bad_header self manifest.now }
    {
        header_unfit(manifest, self.transfer.total()) || magic_number(manifest) != self.magic
    }

    // With an active manifest, an id that isn't above its id.
    fn stale(self, manifest: &[u8]) -> bool
        ensures { result ≡ stale self manifest.now }
    {
        self.active.length != 0 && version_id(manifest) <= self.active.id
    }

    // What activate asks of the manifest that arrived.
    #[tactic(auto, unfolding(crate::specs::Calls::pending_rule))]
    fn pending_verdict(self, manifest: &[u8]) -> Result<(), Refusal>
        ensures { number_of result ≡ pending_rule self manifest.now }
    {
        if self.transfer.incomplete() {
            return Err(Refusal::OutOfStep);
        }
        if self.bad_header(manifest) {
            return Err(Refusal::BadManifestHeader);
        }
        if self.stale(manifest) {
            return Err(Refusal::StaleVersion);
        }
        Ok(())
    }

    #[tactic(auto, unfolding(crate::specs::Calls::activate_rule))]
    fn activate_verdict(self, signature_good: bool, manifest: &[u8]) -> Result<(), Refusal>
        ensures { number_of result ≡ activate_rule signature_good self manifest.now }
    {
        self.pending_verdict(manifest)?;
        signature_verdict(signature_good)
    }

    // The slot whose active manifest is the pending one.
    fn activated(self, pending: &[u8]) -> Slot
        ensures { result ≡ activated_slot self pending.now }
    {
        Slot {
            magic: self.magic,
            active: Active {
                length: self.transfer.total(),
                id: version_id(pending),
            },
            transfer: Transfer::Idle,
        }
    }

    // Whether the signature is good is judged elsewhere, and believed.
    pub fn activate(self, signature_good: bool, pending: &[u8], active: &mut [u8]) -> Answer
        ensures { answered result pending.now active.new ≡ activate_step signature_good (held self pending.now active.old) }
    {
        self.answer(self.activate_judged(signature_good, pending, active))
    }

    #[tactic(auto, unfolding(crate::specs::Calls::activate_step, crate::specs::Calls::activate_number, crate::specs::Calls::activate_lent))]
    fn activate_judged(
        self,
        signature_good: bool,
        pending: &[u8],
        active: &mut [u8],
    ) -> Result<Slot, Refusal>
        ensures { slot_outcome result self pending.now active.new ≡ activate_step signature_good (held self pending.now active.old) }
    {
        self.lent_verdict(pending, active)?;
        self.activate_lent(signature_good, pending, active)
    }

    // Activate's own rules, for a caller that has judged buffers and state.
    #[tactic(auto, unfolding(crate::specs::Calls::activate_lent))]
    pub fn activate_lent(
        self,
        signature_good: bool,
        pending: &[u8],
        active: &mut [u8],
    ) -> Result<Slot, Refusal>
        ensures { slot_outcome result self pending.now active.new ≡ activate_lent signature_good (held self pending.now active.old) }
    {
        self.activate_verdict(signature_good, pending)?;
        octets::replace(active, octets::front(pending, self.transfer.total()));
        Ok(self.activated(pending))
    }
}

fn signature_verdict(good: bool) -> Result<(), Refusal>
    ensures { number_of result ≡ signature_rule good }
{
    if !good {
        return Err(Refusal::BadSignature);
    }
    Ok(())
}
