//! Why a program has no net.

ghost use Rattle.std.specs.Prelude.{◌≡◌};

use std::alloc::{AllocError, AllocFailed};

/// Why a program has no net, or want of memory.
#[derive(Clone, Copy, Debug, PartialEq, Eq)]
pub enum NetFault {
    /// The entry function has no reached return unit.
    NeverReturns,
    /// There are more than 16,384 contexts or 65,536 places: how many there are, each at most 2^63.
    TooMany { contexts: u64, places: u64 },
    /// No memory was left.
    Memory,
}

impl From<AllocError> for NetFault {
    ghost use Rattle.call_contexts.specs.declared.fault.NetFault.{NetFault};

    ghost from_gives = { λ _ e. e ≡ NetFault.Memory };

    fn from(_error: AllocError) -> NetFault {
        NetFault::Memory
    }
}

impl<T: Drop> From<AllocFailed<T>> for NetFault {
    ghost use Rattle.call_contexts.specs.declared.fault.NetFault.{NetFault};

    ghost from_gives = { λ _ e. e ≡ NetFault.Memory };

    fn from(_error: AllocFailed<T>) -> NetFault {
        NetFault::Memory
    }
}
