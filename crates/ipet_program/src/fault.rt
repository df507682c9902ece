//! Why a net has no program.

ghost use Rattle.std.specs.Prelude.{◌≡◌};

use std::alloc::{AllocError, AllocFailed};

/// The crude bound is too large, or memory was missing.
#[derive(Clone, Copy, Debug, PartialEq, Eq)]
pub enum BuildFault {
    /// The crude bound, in cycles, or 2^128 - 1 where it is greater. It is above 2^63 - 1.
    TooLarge { crude: u128 },
    /// No memory was left.
    Memory,
}

impl From<AllocError> for BuildFault {
    ghost use Rattle.ipet_program.specs.declared.fault.BuildFault.{BuildFault};

    ghost from_gives = { λ _ e. e ≡ BuildFault.Memory };

    fn from(_error: AllocError) -> BuildFault {
        BuildFault::Memory
    }
}

impl<T: Drop> From<AllocFailed<T>> for BuildFault {
    ghost use Rattle.ipet_program.specs.declared.fault.BuildFault.{BuildFault};

    ghost from_gives = { λ _ e. e ≡ BuildFault.Memory };

    fn from(_error: AllocFailed<T>) -> BuildFault {
        BuildFault::Memory
    }
}
