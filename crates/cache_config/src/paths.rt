//! The printed paths of keys.

ghost use Rattle.std.specs.Prelude.{◌≡◌, IfOk, codes};
ghost use Rattle.std.specs.String.{string_bytes};
ghost use Rattle.cache_config.specs.Faults.{element_path, element_prefix, path_of, printed};

use std::alloc::{AllocError, Global};
use wcet_io::List;

/// A byte of a key as it is printed.
fn printed(byte: u8) -> u8
    ensures { result ≡ printed byte }
{
    if 0x21 <= byte && byte <= 0x7E {
        byte
    } else {
        b'?'
    }
}

/// The path of a key: what stands before it, and the key as it is printed.
pub(crate) fn path_of(alloc: Global, prefix: &str, name: &str) -> Result<List<u8>, AllocError>
    ensures { IfOk result (λ path. path ≡ path_of prefix.now name.now) }
{
    let mut path = Vec::new(alloc);
    path.extend_from_slice(prefix.as_bytes())?;
    for byte in name.as_bytes() {
        path.push(printed(*byte))?;
    }
    Ok(List::from_vec(path))
}

/// The path of an element of an array.
pub(crate) fn element_path(alloc: Global, name: &str, at: usize) -> Result<List<u8>, AllocError>
    ensures { IfOk result (λ path. path ≡ element_path name.now at) }
{
    let path = format!(in alloc; "{name}[{at}]")?;
    Ok(List::from_vec(path.into_bytes()))
}

/// What stands before a key inside an element of an array.
pub(crate) fn element_prefix(alloc: Global, name: &str, at: usize) -> Result<String, AllocError>
    ensures { IfOk result (λ prefix. string_bytes prefix ≡ element_prefix name.now at) }
{
    let prefix = format!(in alloc; "{name}[{at}].")?;
    Ok(prefix)
}
