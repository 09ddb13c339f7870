// The six integers in which C keeps a slot: magic, active length, active id, receiving, total, received.
ghost use Rattle.std.specs.Prelude.{◌≡◌};
ghost use Rattle.c_encoding.specs.Slots.{no_slot, transfer_of, slot_of, numbers_of};

use manifest_slot::{Active, Slot, Transfer, VersionId};

fn no_slot(n: &[u64; 6]) -> bool
    ensures { result ≡ no_slot n.now }
{
    let [magic, _, id, receiving, total, received] = *n;
    0xffff < magic
        || 0xffff_ffff < id
        || 1 < receiving
        || (receiving == 0 && (total != 0 || received != 0))
}

fn transfer_of(n: &[u64; 6]) -> Transfer
    ensures { result ≡ transfer_of n.now }
{
    let [_, _, _, receiving, total, received] = *n;
    if receiving == 0 {
        return Transfer::Idle;
    }
    Transfer::Receiving {
        total: total as usize,
        received: received as usize,
    }
}

// The slot that the integers stand for; one outside the rules, which every call refuses, where they stand for none. No `Option`:
// a call judges its buffers before its slot.
#[tactic(auto, unfolding(crate::specs::Slots::slot_of))]
pub fn slot_of(n: &[u64; 6]) -> Slot
    ensures { result ≡ slot_of n.now }
{
    if no_slot(n) {
        return Slot {
            magic: 0,
            active: Active {
                length: 0,
                id: VersionId(1),
            },
            transfer: Transfer::Idle,
        };
    }
    let [magic, length, id, _, _, _] = *n;
    Slot {
        magic: magic as u16,
        active: Active {
            length: length as usize,
            id: VersionId(id as u32),
        },
        transfer: transfer_of(n),
    }
}

#[tactic(auto, unfolding(crate::specs::Slots::numbers_of))]
pub fn numbers_of(slot: Slot) -> [u64; 6]
    ensures { result ≡ numbers_of slot }
{
    let magic = u64::from(slot.magic);
    let length = slot.active.length as u64;
    let id = u64::from(slot.active.id.0);
    match slot.transfer {
        Transfer::Idle => [magic, length, id, 0, 0, 0],
        Transfer::Receiving { total, received } => {
            [magic, length, id, 1, total as u64, received as u64]
        }
    }
}
