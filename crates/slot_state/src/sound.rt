// The states that the rules permit.
ghost use Rattle.std.specs.Prelude.{◌≡◌};
ghost use Rattle.slot_state.specs.State.{active_unsound, transfer_unsound};

use crate::{Active, BUFFER_LEN, SHORTEST, Transfer, outside};

impl Active {
    // No manifest but an id, or a length that no manifest has.
    pub fn unsound(self) -> bool
        ensures { result ≡ active_unsound self }
    {
        if self.length == 0 {
            return self.id.0 != 0;
        }
        outside(SHORTEST, BUFFER_LEN, self.length)
    }
}

impl Transfer {
    // A total that no manifest has, or more received than that.
    pub fn unsound(self) -> bool
        ensures { result ≡ transfer_unsound self }
    {
        match self {
            Transfer::Idle => false,
            Transfer::Receiving { total, received } => {
                outside(SHORTEST, BUFFER_LEN, total) || total < received
            }
        }
    }
}
