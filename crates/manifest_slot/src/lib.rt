// A manifest slot over two lent buffers: a manifest arrives in pieces and becomes active whole, signed and newer, or not at all.
#![tactic(auto)]

mod activate;
mod open;
mod prepare;
mod read;
mod sound;
mod update;

ghost use Rattle.std.specs.Prelude.{◌≡◌, ℕ, List};
ghost use Rattle.manifest_slot.specs.Calls.{answered, slot_outcome};

pub use manifest_header::VersionId;
use refusal::Refusal;
pub use slot_state::{Active, Transfer};

// The state of a slot. Its buffers are no part of it: each call is lent both, and which of them it may write differs.
#[derive(Clone, Copy, Debug, PartialEq, Eq, Hash)]
pub struct Slot {
    // The magic number that its manifests have.
    pub magic: u16,
    pub active: Active,
    pub transfer: Transfer,
}

// A call's verdict, and the next slot: the one handed in where the call refuses. The slot's calls take it by value and answer this, and no `Result` of
// the next slot, so that a caller has a state to go on with whatever the verdict: document 01 names this form.
#[derive(Clone, Copy, Debug, PartialEq, Eq, Hash)]
pub struct Answer {
    pub verdict: Result<(), Refusal>,
    pub slot: Slot,
}

// Which of a slot's manifests is asked for.
#[derive(Clone, Copy, Debug, PartialEq, Eq, Hash)]
pub enum Role {
    Active,
    Pending,
}

impl Slot {
    // A refusal changes nothing.
    fn answer(self, next: Result<Slot, Refusal>) -> Answer
        ensures { (pending active : List ℕ) → answered result pending active ≡ slot_outcome next self pending active }
    {
        match next {
            Ok(slot) => Answer {
                verdict: Ok(()),
                slot,
            },
            Err(why) => Answer {
                verdict: Err(why),
                slot: self,
            },
        }
    }
}
