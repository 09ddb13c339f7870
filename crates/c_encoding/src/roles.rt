// The number by which C names the role of a manifest.
ghost use Rattle.std.specs.Prelude.{◌≡◌};
ghost use Rattle.refusal.specs.Steps.{reply_of};
ghost use Rattle.c_encoding.specs.Roles.{role_of, role_reply};

use manifest_slot::Role;
use refusal::Refusal;

// 0 is active. Every other number is read as pending, so that each has a role: those above 1 are `role_asked`'s to refuse.
pub fn role_of(role: u8) -> Role
    ensures { result ≡ role_of role }
{
    if role == 0 {
        return Role::Active;
    }
    Role::Pending
}

// The role with this number. `TryFrom` would have to stand with the role, which knows no C.
#[tactic(auto, unfolding(crate::specs::Roles::role_reply))]
pub fn role_asked(role: u8) -> Result<Role, Refusal>
    ensures { reply_of result ≡ role_reply role }
{
    if 1 < role {
        return Err(Refusal::OutOfRange);
    }
    Ok(role_of(role))
}
