// The manifest that is arriving: how much of it there is to be, and how much there is.
ghost use Rattle.std.specs.Prelude.{◌≡◌};
ghost use Rattle.slot_state.specs.State.{total_of, received_of, is_idle, incomplete, too_long};

use crate::Transfer;

impl Transfer {
    // How many bytes it is to bring; none while idle.
    pub fn total(self) -> usize
        ensures { result ≡ total_of self }
    {
        match self {
            Transfer::Idle => 0,
            Transfer::Receiving { total, .. } => total,
        }
    }

    // How many bytes it has brought; none while idle.
    pub fn received(self) -> usize
        ensures { result ≡ received_of self }
    {
        match self {
            Transfer::Idle => 0,
            Transfer::Receiving { received, .. } => received,
        }
    }

    pub fn is_idle(self) -> bool
        ensures { result ≡ is_idle self }
    {
        matches!(self, Transfer::Idle)
    }

    // Idle, or bytes are still to come.
    pub fn incomplete(self) -> bool
        ensures { result ≡ incomplete self }
    {
        match self {
            Transfer::Idle => true,
            Transfer::Receiving { total, received } => received < total,
        }
    }

    // Receiving, and n bytes are more than what is still to come.
    pub fn too_long(self, n: usize) -> bool
        ensures { result ≡ too_long self n }
    {
        match self {
            Transfer::Idle => false,
            Transfer::Receiving { total, received } => total.saturating_sub(received) < n,
        }
    }
}
