//! Which files are read for which words, and what a failing shelf or sink leaves.

use super::{RETURN, answer, file_of, texts};
use crate::top::{Status, wcet_main};
use std::alloc::{AllocError, Global};
use std::test::Fail;
use wcet_io::{MemShelf, MemSink};

#[test]
fn other_words_have_no_form(rt: HostRuntime) -> Result<(), Fail> {
    let alloc = rt.alloc();
    let file = file_of(alloc, &[RETURN, 0])?;
    let rows: [&[&str]; 9] = [
        &[],
        &["analyse"],
        &["bound"],
        &["Bound", "f"],
        &["bound ", "f"],
        &["analyse", "f", "f", "f"],
        &["bound", "f", "f", "f"],
        &["check", "f", "f"],
        &["f", "analyse"],
    ];
    for words in rows {
        assert!(rt; answer(alloc, words, &file, &[], &[1])?.ends(Status::Usage));
    }
    Ok(())
}

#[test]
fn reads_the_files_in_the_order_of_the_words(rt: HostRuntime) -> Result<(), Fail> {
    let alloc = rt.alloc();
    let file = file_of(alloc, &[RETURN, 0])?;
    let long = comment(alloc, 16_777_217)?;
    let longest = comment(alloc, 16_777_216)?;
    let too_long = "refused too-long 01000000\n";
    let zed = b"zed = 1".as_slice();
    // A profile that is too long, and one of the greatest length, which is one comment.
    let both = ["analyse", "f", "c"];
    assert!(rt; answer(alloc, &both, &file, &long, &[])?.refuses(too_long));
    assert!(rt; answer(alloc, &both, &file, &longest, &[])?.begins("bound 22\n"));
    // Behind a file that is too long or missing none is read.
    let no_profile = ["analyse", "f", "missing"];
    assert!(rt; answer(alloc, &no_profile, &long, zed, &[])?.refuses(too_long));
    let no_file = ["analyse", "missing", "c"];
    assert!(rt; answer(alloc, &no_file, &file, &long, &[])?.ends(Status::ReadFault));
    // A profile that can't be read: it isn't there, or its first piece fails, behind the two of the ELF file.
    assert!(rt; answer(alloc, &no_profile, &file, zed, &[])?.ends(Status::ReadFault));
    assert!(rt; answer(alloc, &both, &file, zed, &[3])?.ends(Status::ReadFault));
    Ok(())
}

/// A comment of this many bytes.
fn comment(alloc: Global, length: usize) -> Result<Vec<u8>, AllocError> {
    vec![in alloc; b'#'; length]
}

#[test]
fn leaves_a_front_where_the_sink_fails(rt: HostRuntime) -> Result<(), Fail> {
    let alloc = rt.alloc();
    let words = texts(alloc, &["analyse", "f"])?;
    let mut files = MemShelf::new(alloc, 64, Vec::new(alloc));
    files.add("f", &file_of(alloc, &[RETURN, 0])?)?;
    // It takes four bytes at a time, and fails at the second time.
    let mut out = MemSink::new(alloc, 4, 8192, vec![in alloc; 2]?)?;
    let status = wcet_main(alloc, &words, &mut files, &mut out);
    assert_eq!(rt; status, Status::WriteFault);
    assert_eq!(rt; out.taken(), b"boun".as_slice());
    Ok(())
}
