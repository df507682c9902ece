//! The analysis of a file's bytes by itself.

use super::{COUNTED, RETURN, file_of, file_with};
use crate::analysis::{Analysis, Refused, analyse_bytes};
use crate::refusal::{RefusalKind, Spot};
use cache_config::Profile;
use std::alloc::Global;
use std::test::Fail;
use unit_graph::CodeKind;

/// What the plain profile says of a file.
fn plainly(alloc: Global, file: &[u8]) -> Result<Result<Analysis, Refused>, Fail> {
    if file.len() > 16_777_216 {
        return Err("a large file".into());
    }
    Ok(analyse_bytes(alloc, file, &Profile::plain(alloc)))
}

#[test]
fn analyses_bytes(rt: HostRuntime) -> Result<(), Fail> {
    let alloc = rt.alloc();
    let file = file_with(alloc, &COUNTED, &[[1, 0x0040_0004, 5, 0]])?;
    let Ok(analysis) = plainly(alloc, &file)? else {
        return Err("refused".into());
    };
    // A start of 11 cycles, five turns of 33, and the return of 22.
    assert_eq!(rt; analysis.certificate.bound, 198);
    assert_eq!(rt; analysis.certificate.reached, 198);
    Ok(())
}

#[test]
fn refuses_bytes(rt: HostRuntime) -> Result<(), Fail> {
    let alloc = rt.alloc();
    let file = file_of(alloc, &[RETURN])?;
    let Err(Refused::Fault(refusal)) = plainly(alloc, &file)? else {
        return Err("not refused".into());
    };
    // The slot of the return isn't in the segment.
    assert_eq!(rt; refusal.kind, RefusalKind::Code(CodeKind::UnknownWord));
    let Spot::Number(place) = refusal.spot else {
        return Err("a key".into());
    };
    assert_eq!(rt; place, 0x0040_0004);
    Ok(())
}
