//! The kind of use of memory that a role stands for.

ghost use Rattle.std.specs.Prelude.{◌≡◌};
ghost use Rattle.net_model.specs.Accesses.{kind_of};

use flow_net::Role;
use mips_decode::AccessKind;

/// The kind of the accesses of a role.
pub fn kind_of(role: Role) -> AccessKind
    ensures { result ≡ kind_of role }
{
    match role {
        Role::Fetch => AccessKind::Fetch,
        Role::Slot => AccessKind::Slot,
        Role::Load => AccessKind::Load,
        Role::Store => AccessKind::Store,
    }
}
