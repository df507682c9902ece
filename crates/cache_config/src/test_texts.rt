//! What `read_profile` says of a text, as a line.

use crate::{ConfigFault, read_profile};
use std::alloc::Global;
use std::test::Fail;

/// A word and a path, which is printed and so a text.
fn with_path(alloc: Global, word: &str, path: &[u8]) -> Result<String, Fail> {
    let path = std::str::from_utf8(path).unwrap_or("no text");
    Ok(format!(in alloc; "{word} {path}")?)
}

/// `ok`, `text`, `key PATH` or `range PATH`; `memory` where memory wasn't found.
pub(crate) fn said(alloc: Global, text: &[u8]) -> Result<String, Fail> {
    match read_profile(alloc, text) {
        Ok(_) => Ok(String::from_str(alloc, "ok")?),
        Err(ConfigFault::Text) => Ok(String::from_str(alloc, "text")?),
        Err(ConfigFault::Key { path }) => with_path(alloc, "key", path.as_slice()),
        Err(ConfigFault::Range { path }) => with_path(alloc, "range", path.as_slice()),
        Err(ConfigFault::Memory) => Ok(String::from_str(alloc, "memory")?),
    }
}
