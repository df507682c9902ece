//! What a program's segments allow: flags, the entry, and the stack.

use super::{RETURN, analysed, change, file_of, put_words};
use std::alloc::{AllocError, Global};
use std::test::Fail;

#[test]
fn refuses_by_flags_and_entry(rt: HostRuntime) -> Result<(), Fail> {
    let alloc = rt.alloc();
    let file = file_of(alloc, &[RETURN, 0])?;
    // The flags are the word at 4C, the entry that at 18.
    let rows: [(usize, u8, &str); 3] = [
        (0x4F, 7, "refused writable-code 00400000\n"),
        (0x4F, 4, "refused unknown-word 00400000\n"),
        (0x1B, 2, "refused unknown-word 00400002\n"),
    ];
    for (place, byte, line) in rows {
        let mut changed = file.as_slice().to_vec(alloc)?;
        change(&mut changed, place, &[byte]);
        assert!(rt; analysed(alloc, &changed)?.refuses(line));
    }
    Ok(())
}

/// The program that returns at once, with a second segment, writable and of 32 bytes.
fn with_segment(alloc: Global, address: u32) -> Result<Vec<u8>, AllocError> {
    let mut file = file_of(alloc, &[])?;
    // Two program headers, the first one of 8 bytes from offset 116.
    change(&mut file, 0x2D, &[2]);
    change(&mut file, 0x38, &u32::to_be_bytes(116));
    change(&mut file, 0x44, &[0, 0, 0, 8, 0, 0, 0, 8]);
    // The data: none in the file, 32 bytes of zeros.
    put_words(&mut file, &[1, 124, address, address, 0, 32, 6, 4])?;
    put_words(&mut file, &[RETURN, 0])?;
    Ok(file)
}

#[test]
fn refuses_segments_on_the_stack(rt: HostRuntime) -> Result<(), Fail> {
    let alloc = rt.alloc();
    // The stack and the arguments' area lie from 7FFE0000 to below 7FFF0040.
    let below = analysed(alloc, &with_segment(alloc, 0x7FFD_FFF0)?)?;
    assert!(rt; below.refuses("refused region-clash 7FFE0000\n"));
    let above = analysed(alloc, &with_segment(alloc, 0x7FFF_0030)?)?;
    assert!(rt; above.refuses("refused region-clash 7FFF0030\n"));
    for address in [0x7FFF_0040, 0x7FFD_FFE0] {
        assert!(rt; analysed(alloc, &with_segment(alloc, address)?)?.begins("bound 22\n"));
    }
    // A clash is answered before unknown words.
    let mut both = with_segment(alloc, 0x7FFF_0000)?;
    change(&mut both, 116, &[0xFF; 4]);
    assert!(rt; analysed(alloc, &both)?.refuses("refused region-clash 7FFF0000\n"));
    Ok(())
}
