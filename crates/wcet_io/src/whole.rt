//! Reading a whole file from a shelf, up to a limit of bytes.
ghost use Rattle.std.specs.Prelude.{◌≡◌, ℕ, ◌<◌, ◌≤◌, List, length, IfOk, IfSome};
ghost use Rattle.wcet_io.specs.Causes.{Rose};
ghost use Rattle.wcet_io.specs.Gathers.{Came, Decided};
ghost use Rattle.wcet_io.specs.declared.whole.GatherFault.TheVariants.{Memory, Read};

use crate::source::{Failed, Shelf};
use std::alloc::{AllocError, Global};

/// How many bytes the buffer holds into which a file is read.
const BUFFER_BYTES: usize = 65_536;

/// Why a file wasn't gathered.
#[derive(Clone, Copy, Debug, PartialEq, Eq)]
pub enum GatherFault {
    /// The shelf failed.
    Read,
    /// More bytes came than the limit.
    TooLong,
    /// Memory wasn't found.
    Memory,
}

impl From<Failed> for GatherFault {
    ghost from_gives = { λ _ e. e ≡ Read };

    fn from(_: Failed) -> Self {
        GatherFault::Read
    }
}

impl From<AllocError> for GatherFault {
    ghost from_gives = { λ _ e. e ≡ Memory };

    fn from(_: AllocError) -> Self {
        GatherFault::Memory
    }
}

/// All bytes of a file of at most `limit` bytes.
///
/// `Read` comes only where the shelf failed, `TooLong` exactly where more than `limit` bytes came,
/// and `Memory` where memory wasn't found. Each turn takes a byte or more, or ends.
pub fn gather<F: Shelf>(
    alloc: Global,
    shelf: &mut F,
    name: &str,
    limit: u64,
) -> Result<Vec<u8>, GatherFault>
    // The bytes.
    ensures bytes { IfOk result (λ v. IfSome (F.told shelf.old name.now) (λ file. v.items ≡ file)) }
    ensures fits { IfOk result (λ v. length v.items ≤ limit) }
    ensures kept { (other : List ℕ) → F.told shelf.new other ≡ F.told shelf.old other }

    // The limit, by the contents that are told and by the count of the bytes that came.
    ensures decided { IfSome (F.told shelf.old name.now) (Decided result limit) }
    ensures count { Came result limit (F.placed shelf.old) (F.placed shelf.new) }

    // The faults.
    ensures later { F.faults shelf.old ≤ F.faults shelf.new }
    ensures read { result ≡ Err GatherFault.Read → Rose (F.faults shelf.old) (F.faults shelf.new) }
{
    let mut buf = vec![in alloc; 0u8; BUFFER_BYTES]?;
    gather_by(alloc, shelf, name, limit, &mut buf)
}

/// Gathers a file by way of a buffer that isn't empty.
fn gather_by<F: Shelf>(
    alloc: Global,
    shelf: &mut F,
    name: &str,
    limit: u64,
    buf: &mut [u8],
) -> Result<Vec<u8>, GatherFault>
    requires { 0 < length buf.old }
    ensures bytes { IfOk result (λ v. IfSome (F.told shelf.old name.now) (λ file. v.items ≡ file)) }
    ensures fits { IfOk result (λ v. length v.items ≤ limit) }
    ensures kept { (other : List ℕ) → F.told shelf.new other ≡ F.told shelf.old other }
    ensures decided { IfSome (F.told shelf.old name.now) (Decided result limit) }
    ensures count { Came result limit (F.placed shelf.old) (F.placed shelf.new) }
    ensures later { F.faults shelf.old ≤ F.faults shelf.new }
    ensures read { result ≡ Err GatherFault.Read → Rose (F.faults shelf.old) (F.faults shelf.new) }
{
    let mut bytes = Vec::new(alloc);
    loop {
        let count = shelf.piece(name, bytes.len() as u64, buf)?;
        if count == 0 {
            return Ok(bytes);
        }
        if count as u64 > limit - bytes.len() as u64 {
            return Err(GatherFault::TooLong);
        }
        let (front, _) = buf.split_at(count);
        bytes.extend_from_slice(front)?;
    }
}
