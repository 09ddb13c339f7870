// The parts of a manifest slot's state, and what is asked of each by itself: limits, buffers, the active manifest, the transfer. Each function is total.
#![tactic(auto)]

mod progress;
mod rules;
mod sound;

ghost use Rattle.std.specs.Prelude.{◌≡◌};
ghost use Rattle.refusal.specs.Refusals.{number_of};
ghost use Rattle.slot_state.specs.State.{outside};
ghost use Rattle.slot_state.specs.Rules.{open_number};

use manifest_header::VersionId;
use refusal::Refusal;
pub use rules::{length_verdict, total_verdict};

// The length of each of a slot's two buffers.
pub const BUFFER_LEN: usize = 4096;

// A header and a signature of one byte.
pub const SHORTEST: usize = 13;

// The active manifest: length 0 and id 0 where there is none. No `Option`: a state that neither is may be handed in, and is refused.
#[derive(Clone, Copy, Debug, PartialEq, Eq, Hash)]
pub struct Active {
    pub length: usize,
    pub id: VersionId,
}

// The manifest that is arriving.
#[derive(Clone, Copy, Debug, PartialEq, Eq, Hash)]
pub enum Transfer {
    Idle,
    Receiving { total: usize, received: usize },
}

// Below low or above high.
pub fn outside(low: usize, high: usize, n: usize) -> bool
    ensures { result ≡ outside low high n }
{
    !(low..=high).contains(&n)
}

// Refusal 3 where a buffer has another length. The pair is no struct: which of the two may be written differs from call to call.
#[tactic(auto, unfolding(crate::specs::Rules::open_number))]
pub fn buffers_verdict(pending: &[u8], active: &[u8]) -> Result<(), Refusal>
    ensures { number_of result ≡ open_number pending.now active.now }
{
    if pending.len() != BUFFER_LEN || active.len() != BUFFER_LEN {
        return Err(Refusal::WrongBuffer);
    }
    Ok(())
}
