// The manifest slot: its state is six integers behind a pointer.
ghost use Rattle.std.specs.Prelude.{◌≡◌, eqb};
ghost use Rattle.refusal.specs.Refusals.{number_of};
ghost use Rattle.refusal.specs.Steps.{outcome, decided};
ghost use Rattle.manifest_slot.specs.Calls.{open_step, prepare_step, update_step, activate_step};
ghost use Rattle.c_encoding.specs.Answers.{length_shown};
ghost use Rattle.c_encoding.specs.Slots.{numbers_of, c_slot, held_in, slot_step};
ghost use Rattle.cerberus.specs.Calls.{manifest_step};

use crate::told::keep;
use c_encoding::flags::yes;
use c_encoding::roles::{role_asked, role_of};
use c_encoding::slot_numbers::{numbers_of, slot_of};
use manifest_slot::{Answer, Slot};

#[unsafe(no_mangle)]
pub extern "C" fn cerberus_slot_open(
    slot: &mut [u64; 6],
    magic: u16,
    pending: &mut [u8],
    active: &mut [u8],
) -> u8
    ensures { outcome result (c_slot slot.new pending.new active.new) ≡ slot_step (open_step magic) (c_slot slot.old pending.old active.old) }
{
    keep(Slot::open(magic, pending, active).map(numbers_of), slot)
}

// Keeps the next slot of an accepted call, and answers the call's number.
#[tactic(auto, using(crate::proofs::Kept::told_kept))]
fn store(answer: Answer, slot: &mut [u64; 6]) -> u8
    ensures { outcome result slot.new ≡ decided (number_of answer.verdict) slot.old (numbers_of answer.slot) }
{
    keep(answer.verdict.and(Ok(numbers_of(answer.slot))), slot)
}

#[unsafe(no_mangle)]
pub extern "C" fn cerberus_slot_prepare(
    slot: &mut [u64; 6],
    total: u32,
    pending: &[u8],
    active: &[u8],
) -> u8
    ensures { outcome result (c_slot slot.new pending.now active.now) ≡ slot_step (prepare_step total) (c_slot slot.old pending.now active.now) }
{
    let answer = slot_of(slot).prepare(u64::from(total), pending, active);
    store(answer, slot)
}

#[unsafe(no_mangle)]
pub extern "C" fn cerberus_slot_update(
    slot: &mut [u64; 6],
    payload: &[u8],
    pending: &mut [u8],
    active: &[u8],
) -> u8
    ensures { outcome result (c_slot slot.new pending.new active.now)
        ≡ slot_step (update_step payload.now) (c_slot slot.old pending.old active.now) }
{
    let answer = slot_of(slot).update(payload, pending, active);
    store(answer, slot)
}

#[unsafe(no_mangle)]
pub extern "C" fn cerberus_slot_activate(
    slot: &mut [u64; 6],
    signature_good: u8,
    pending: &[u8],
    active: &mut [u8],
) -> u8
    ensures { outcome result (c_slot slot.new pending.now active.new)
        ≡ slot_step (activate_step (eqb signature_good 1)) (c_slot slot.old pending.now active.old) }
{
    let answer = slot_of(slot).activate(yes(signature_good), pending, active);
    store(answer, slot)
}

#[tactic(auto, unfolding(crate::specs::Calls::manifest_step, crate::specs::Calls::manifest_number, c_encoding::specs::Roles::role_reply, manifest_slot::specs::Calls::read_step))]
#[unsafe(no_mangle)]
pub extern "C" fn cerberus_slot_manifest<'a>(
    slot: &[u64; 6],
    role: u8,
    pending: &'a [u8],
    active: &'a [u8],
    length: &mut usize,
) -> u8
    ensures { outcome result length.new ≡ length_shown (manifest_step role (held_in (c_slot slot.now pending.now active.now))) length.old }
{
    let held = slot_of(slot);
    let lent = held.manifest_verdict(role_of(role), pending, active);
    // The slot's own refusals come before that of a role that there isn't.
    match lent.and(role_asked(role)) {
        Ok(role) => {
            *length = held.manifest(role, pending, active).len();
            0
        }
        Err(why) => why.number(),
    }
}
