//! A file with sections, changed and cut: a counted loop of bound 5 with its record.

use super::{COUNTED, RETURN, analysed, change, file_of, file_with};
use std::alloc::{AllocError, Global};
use std::test::Fail;

/// The file: headers, six words from offset 54, the record at 6C, the names at 7C, and three
/// section headers at 8D, B5 and DD. (All offsets in hexadecimal.)
fn loop_file(alloc: Global) -> Result<Vec<u8>, AllocError> {
    file_with(alloc, &COUNTED, &[[1, 0x0040_0004, 5, 0]])
}

#[test]
fn refuses_changed_sections(rt: HostRuntime) -> Result<(), Fail> {
    let alloc = rt.alloc();
    let file = loop_file(alloc)?;
    assert_eq!(rt; file.len(), 261);
    // From where on, to what, and the line.
    let rows: [(usize, &[u8], &str); 7] = [
        // The record is of another kind, or at an address where no unit of the loop stands.
        (
            0x6F,
            &[2, 0, 0x40, 0, 4, 0, 0, 0, 4],
            "refused no-bound 00400004\n",
        ),
        (0x6F, &[9], "refused bad-record 0000006C\n"),
        (0x77, &[0], "refused bad-record 0000006C\n"),
        (0xCC, &[15], "refused bad-section 000000B5\n"),
        (0xBF, &[8], "refused bad-section 000000B5\n"),
        (0xED, &[0xFF; 4], "refused bad-section 000000DD\n"),
        (0x33, &[3], "refused bad-table 00000032\n"),
    ];
    for (place, bytes, line) in rows {
        let mut changed = file.as_slice().to_vec(alloc)?;
        change(&mut changed, place, bytes);
        assert!(rt; analysed(alloc, &changed)?.refuses(line));
    }
    Ok(())
}

#[test]
fn refuses_each_cut(rt: HostRuntime) -> Result<(), Fail> {
    let alloc = rt.alloc();
    let file = loop_file(alloc)?;
    if file.len() < 261 {
        return Err("a file of fewer bytes".into());
    }
    // Below 52 bytes the length itself; then the program headers, and then the section headers, don't fit.
    for length in 0..261usize {
        let line = if length < 52 {
            format!(in alloc; "refused short {length:08X}\n")?
        } else if length < 84 {
            String::from_str(alloc, "refused bad-table 0000001C\n")?
        } else {
            String::from_str(alloc, "refused bad-table 00000020\n")?
        };
        assert!(rt; analysed(alloc, &file[..length])?.refuses(&line));
    }
    // Without sections it is the segment that doesn't fit.
    let plain = file_of(alloc, &[RETURN, 0])?;
    if plain.len() < 92 {
        return Err("a file of fewer bytes".into());
    }
    for length in 84..92usize {
        assert!(rt; analysed(alloc, &plain[..length])?.refuses("refused bad-segment 00000034\n"));
    }
    Ok(())
}
