//! The state behind an access that may take place.

ghost use Rattle.std.specs.Prelude.{◌≡◌, IfOk};
ghost use Rattle.domain_laws.specs.Shapes.{HaveShape};

use crate::lattice::Lattice;
use std::alloc::AllocError;

/// What is known after an access that may not take place: the join of the state before it and of the state after it.
pub fn maybe<D: Lattice>(old: &D, moved: &D) -> Result<D, AllocError>
    requires { HaveShape D.has old.now moved.now }
    ensures { IfOk result (λ either. either ≡ D.joined old.now moved.now) }
{
    let mut either = old.copy()?;
    either.join(moved)?;
    Ok(either)
}
