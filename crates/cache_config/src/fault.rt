//! What is wrong with a profile's text, and at which key.

ghost use Rattle.std.specs.Prelude.{◌≡◌, ◌∷◌};
ghost use Rattle.std.specs.Ordering.{is_lt, nat_cmp};
ghost use Rattle.std.specs.Cmp.Lexicographic.{slice_cmp};
ghost use Rattle.cache_config.specs.Faults.{is_before};
ghost use Rattle.cache_config.specs.Firsts.{earlier};

use std::alloc::{AllocError, AllocFailed};
use wcet_io::List;

/// Why a text gives no profile.
///
/// A path is printed: `memory`, `cycles.alu`, `region[2].start`, counted from 0, with a question mark
/// for each byte of a key outside 21 to 7E (hexadecimal).
#[derive(Debug, Drop)]
pub enum ConfigFault {
    /// The text isn't UTF-8, or isn't TOML.
    Text,
    /// The key of this path is unknown, or isn't there though it has to be.
    Key { path: List<u8> },
    /// The value at the key of this path is of another kind, or out of its limits.
    Range { path: List<u8> },
    /// No memory was left.
    Memory,
}

impl From<AllocError> for ConfigFault {
    ghost use Rattle.cache_config.specs.declared.fault.ConfigFault.{ConfigFault};

    ghost from_gives = { λ _ e. e ≡ ConfigFault.Memory };

    fn from(_error: AllocError) -> ConfigFault {
        ConfigFault::Memory
    }
}

/// The kinds of faults at a key, in the order in which they are answered.
#[derive(Clone, Copy)]
pub(crate) enum FaultKind {
    /// The key is unknown, or isn't there though it has to be.
    Key,
    /// The value at the key is of another kind, or out of its limits.
    Range,
}

/// A fault at a key.
#[derive(Drop)]
pub(crate) struct Fault {
    /// What is wrong.
    pub(crate) kind: FaultKind,
    /// The key's printed path.
    pub(crate) path: List<u8>,
}

/// Whether a fault's path is less than the other one's.
fn is_less(fault: &Fault, other: &Fault) -> bool
    ensures { result ≡ is_lt (slice_cmp nat_cmp fault.now.path other.now.path) }
{
    let path = fault.path.as_slice();
    path.cmp(other.path.as_slice()).is_lt()
}

/// Whether a fault is answered before another one.
fn is_before(fault: &Fault, other: &Fault) -> bool
    ensures { result ≡ is_before fault.now other.now }
{
    match (fault.kind, other.kind) {
        (FaultKind::Key, FaultKind::Range) => true,
        (FaultKind::Range, FaultKind::Key) => false,
        (FaultKind::Key, FaultKind::Key) => is_less(fault, other),
        (FaultKind::Range, FaultKind::Range) => is_less(fault, other),
    }
}

/// Notes a fault: the first one is kept.
pub(crate) fn note(first: &mut Option<Fault>, fault: Fault)
    ensures { first.new ≡ earlier first.old fault }
{
    let kept = match first {
        Some(known) => !is_before(&fault, known),
        None => false,
    };
    if !kept {
        *first = Some(fault);
    }
}
