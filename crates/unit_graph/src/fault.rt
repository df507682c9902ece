//! Why a program's code has no graph.

ghost use Rattle.std.specs.Prelude.{◌≡◌};

use net_model::CodeKind;
use std::alloc::{AllocError, AllocFailed};

/// A fault of the code with its place, or want of memory.
#[derive(Clone, Copy, Debug, PartialEq, Eq)]
pub enum CodeFault {
    /// The first fault: its kind and its address.
    Bad { kind: CodeKind, address: u32 },
    /// No memory was left.
    Memory,
}

impl From<AllocError> for CodeFault {
    ghost use Rattle.unit_graph.specs.declared.fault.CodeFault.{CodeFault};

    ghost from_gives = { λ _ e. e ≡ CodeFault.Memory };

    fn from(_error: AllocError) -> CodeFault {
        CodeFault::Memory
    }
}

impl<T: Drop> From<AllocFailed<T>> for CodeFault {
    ghost use Rattle.unit_graph.specs.declared.fault.CodeFault.{CodeFault};

    ghost from_gives = { λ _ e. e ≡ CodeFault.Memory };

    fn from(_error: AllocFailed<T>) -> CodeFault {
        CodeFault::Memory
    }
}
