//! The contents of the files that the words name.

ghost use Rattle.std.specs.Prelude.{◌≡◌, ◌≤◌, IfOk, IfSome, List, ℕ, length};
ghost use Rattle.wcet_io.specs.Causes.{Rose};

use crate::words::Form;
use std::alloc::Global;
use wcet_io::{GatherFault, Shelf, gather};

/// The most bytes of a file.
pub const FILE_LIMIT: u32 = 16_777_216;

/// The contents of the files of a command.
#[derive(Debug, Drop)]
pub struct Contents {
    /// The bytes of the ELF file.
    pub elf: Vec<u8>,
    /// The text of the profile, where one is named.
    pub config: Option<Vec<u8>>,
}

/// Why there is no answer.
#[derive(Clone, Copy, Debug, PartialEq, Eq)]
pub enum Stopped {
    /// The shelf failed.
    Read,
    /// No memory was left.
    Memory,
}

ghost use Rattle.wcet_engine.specs.Given.{AreRead, Fits, IsFound, file_limit, given_form, given_of, read_by};

/// The contents of a file; `None` where it is longer than the limit.
fn contents_of<F: Shelf>(
    alloc: Global,
    files: &mut F,
    name: &str,
) -> Result<Option<Vec<u8>>, Stopped>
    ensures found { IfOk result (λ found. IfSome (F.told files.old name.now) (IsFound found)) }
    ensures fits { IfOk result (λ found. IfSome found (λ bytes. length bytes.items ≤ file_limit)) }
    ensures kept { (other : List ℕ) → F.told files.new other ≡ F.told files.old other }
    ensures later { F.faults files.old ≤ F.faults files.new }
    ensures read { result ≡ Err Stopped.Read → Rose (F.faults files.old) (F.faults files.new) }
{
    match gather(alloc, files, name, u64::from(FILE_LIMIT)) {
        Ok(bytes) => Ok(Some(bytes)),
        Err(GatherFault::TooLong) => Ok(None),
        Err(GatherFault::Read) => Err(Stopped::Read),
        Err(GatherFault::Memory) => Err(Stopped::Memory),
    }
}

/// Reads the files of a form in the order of the words; `None` where one is longer than the limit.
///
/// Behind a file that fails or is too long no further one is read.
pub fn read_files<F: Shelf>(
    alloc: Global,
    files: &mut F,
    form: &Form,
) -> Result<Option<Contents>, Stopped>
    ensures found { IfOk result (λ found. IfSome (read_by (F.told files.old) (given_form form.now)) (AreRead found)) }
    ensures fits { IfOk result (λ found. IfSome found (λ contents. Fits (given_of contents))) }
    ensures kept { (other : List ℕ) → F.told files.new other ≡ F.told files.old other }
    ensures later { F.faults files.old ≤ F.faults files.new }
    ensures read { result ≡ Err Stopped.Read → Rose (F.faults files.old) (F.faults files.new) }
{
    let Some(elf) = contents_of(alloc, files, form.elf)? else {
        return Ok(None);
    };
    let Some(name) = form.config else {
        return Ok(Some(Contents { elf, config: None }));
    };
    let Some(text) = contents_of(alloc, files, name)? else {
        return Ok(None);
    };
    Ok(Some(Contents {
        elf,
        config: Some(text),
    }))
}
