//! Programs under a profile: what its keys change, and the faults of both files in their order.

ghost use Rattle.std.specs.Prelude.{◌≤◌, length};

use super::{COUNTED, Output, RETURN, answer, change, file_of, file_with, put_words};
use std::alloc::{AllocError, Global};
use std::test::Fail;

/// What `analyse` prints for an ELF file under a profile.
fn with_profile(alloc: Global, elf: &[u8], profile: &str) -> Result<Output, Fail> {
    answer(alloc, &["analyse", "f", "c"], elf, profile.as_bytes(), &[])
}

/// An executable that holds these words, with symbols of the name `main` that have these values.
fn file_named(alloc: Global, words: &[u32], values: &[u32]) -> Result<Vec<u8>, AllocError>
    requires words { length words.now ≤ 64 }
    requires values { length values.now ≤ 64 }
{
    let mut file = file_of(alloc, words)?;
    let symbols = 84 + 4 * words.len() as u32;
    let size = 16 * values.len() as u32;
    let names = symbols + size;
    for value in values {
        // Name 1, the value, size 0; section 1 stands in the last two bytes.
        put_words(&mut file, &[1, *value, 0, 1])?;
    }
    file.extend_from_slice(b"\0main\0".as_slice())?;
    put_words(&mut file, &[0; 10])?;
    put_words(&mut file, &[0, 2, 0, 0, symbols, size, 2, 0, 0, 16])?;
    put_words(&mut file, &[0, 3, 0, 0, names, 6, 0, 0, 0, 0])?;
    // Three section headers behind the names, none of which names a section.
    change(&mut file, 0x20, &u32::to_be_bytes(names + 6));
    change(&mut file, 0x2E, &[0, 40, 0, 3, 0, 0]);
    Ok(file)
}

/// A profile with a cache.
const CACHE: &str = "[[cache]]\nserves = \"load\"\nsets = 1\nways = 1\nline = 4\nlatency = 0\n";

#[test]
fn takes_the_costs_of_the_profile(rt: HostRuntime) -> Result<(), Fail> {
    let alloc = rt.alloc();
    let file = file_of(alloc, &[RETURN, 0])?;
    // A jump and, in its slot, a shift: each is fetched.
    let rows = [
        ("", "bound 22\nreached 22\n"),
        ("# nothing but a comment\n", "bound 22\nreached 22\n"),
        ("memory = 20\n", "bound 42\nreached 42\n"),
        ("memory = 0\ncycles.jump = 5\n", "bound 6\nreached 6\n"),
        (
            "cycles = { shift = 100, div = 9 }\n",
            "bound 121\nreached 121\n",
        ),
        ("store = 1000\n", "bound 22\nreached 22\n"),
    ];
    for (profile, front) in rows {
        assert!(rt; with_profile(alloc, &file, profile)?.begins(front));
    }
    // A store of register 8 at the stack's top: 10 + 1 and the latency, then the return.
    let storing = file_of(alloc, &[0xAFA8_0000, RETURN, 0])?;
    assert!(rt; with_profile(alloc, &storing, "store = 1000\n")?.begins("bound 1033\n"));
    Ok(())
}

#[test]
fn bound_prints_what_analyse_prints(rt: HostRuntime) -> Result<(), Fail> {
    let alloc = rt.alloc();
    let looping = file_with(alloc, &COUNTED, &[[1, 0x0040_0004, 5, 0]])?;
    let profile = b"memory = 3\n".as_slice();
    let plain = answer(alloc, &["bound", "f"], &looping, profile, &[])?;
    assert!(rt; plain.begins("bound 198\nreached 198\n"));
    let analysed = answer(alloc, &["analyse", "f"], &looping, profile, &[])?;
    assert_eq!(rt; plain.text.as_slice(), analysed.text.as_slice());
    // Eighteen instructions at 4 cycles.
    let cheap = answer(alloc, &["bound", "f", "c"], &looping, profile, &[])?;
    assert!(rt; cheap.begins("bound 72\nreached 72\n"));
    Ok(())
}

#[test]
fn enters_at_the_first_symbol_of_the_name(rt: HostRuntime) -> Result<(), Fail> {
    let alloc = rt.alloc();
    // Two functions: one that returns at once, and one of 00400008 that adds before.
    let words = [RETURN, 0, 0x2508_0001, RETURN, 0];
    let main = "entry = \"main\"\n";
    let second = file_named(alloc, &words, &[0x0040_0008, 0x0040_0000])?;
    assert!(rt; with_profile(alloc, &second, main)?.begins("bound 33\nreached 33\n"));
    assert!(rt; with_profile(alloc, &second, "")?.begins("bound 22\nreached 22\n"));
    assert!(rt;
        with_profile(alloc, &second, "entry = \"mai\"\n")?.refuses("refused no-symbol 00000000\n")
    );
    let first = file_named(alloc, &words, &[0x0040_0000, 0x0040_0008])?;
    assert!(rt; with_profile(alloc, &first, main)?.begins("bound 22\nreached 22\n"));
    let between = file_named(alloc, &words, &[0x0040_0006, 0x0040_0000])?;
    assert!(rt; with_profile(alloc, &between, main)?.refuses("refused unknown-word 00400006\n"));
    let none = file_named(alloc, &words, &[])?;
    assert!(rt; with_profile(alloc, &none, main)?.refuses("refused no-symbol 00000000\n"));
    Ok(())
}

#[test]
fn refuses_by_the_profile(rt: HostRuntime) -> Result<(), Fail> {
    let alloc = rt.alloc();
    let file = file_of(alloc, &[RETURN, 0])?;
    let rows = [
        ("memory = ", "refused config-text 00000000\n"),
        ("speed = 1", "refused config-key speed\n"),
        ("memory = -1", "refused config-range memory\n"),
        ("memory = -1\nzed = 1", "refused config-key zed\n"),
        ("zed = 1\nspeed = 1", "refused config-key speed\n"),
        ("\"a b\" = 1", "refused config-key a?b\n"),
        ("cycles.alu = 0", "refused config-range cycles.alu\n"),
        (
            "[[region]]\nstart = 0",
            "refused config-key region[0].size\n",
        ),
        ("entry = \"main\"", "refused no-symbol 00000000\n"),
        (
            "[[region]]\nstart = 0x00400000\nsize = 16",
            "refused region-clash 00400000\n",
        ),
        (
            "[[region]]\nstart = 0x00400004\nsize = 16\n[[region]]\nstart = 0x00400000\nsize = 1",
            "refused region-clash 00400000\n",
        ),
        (
            "[[region]]\nstart = 0x00400005\nsize = 1",
            "refused region-clash 00400005\n",
        ),
        (
            "stack_top = 0x00400008\nstack_size = 64",
            "refused region-clash 00400000\n",
        ),
        ("cache = 1", "refused config-range cache\n"),
        (CACHE, "refused unbuilt 00000000\n"),
        (
            "[[cache]]\nserves = \"fetch\"\nsets = 3\nways = 1\nline = 16\nlatency = 1",
            "refused config-range cache[0].sets\n",
        ),
        (
            "[[cache]]\nserves = \"fetch\"\nsets = 4\nways = 1\nline = 16",
            "refused config-key cache[0].latency\n",
        ),
    ];
    for (profile, line) in rows {
        assert!(rt; with_profile(alloc, &file, profile)?.refuses(line));
    }
    let got = answer(alloc, &["bound", "f", "c"], &file, &[0xFF], &[])?;
    assert!(rt; got.refuses("refused config-text 00000000\n"));
    Ok(())
}

#[test]
fn answers_the_first_fault_of_both_files(rt: HostRuntime) -> Result<(), Fail> {
    let alloc = rt.alloc();
    // Each row has the faults of the rows behind it, and one more.
    let unknown = file_of(alloc, &[0xFFFF_FFFF])?;
    let region =
        "entry = \"main\"\n[[region]]\nstart = 0x00400000\nsize = 4\n[[cache]]\nserves = \"load\"\nsets = 1\nways = 1\nline = 4\nlatency = 0\n";
    let short: [u8; 1] = [0];
    let rows: [(&[u8], &str, &str); 8] = [
        (
            &short,
            "memory = -1\nzed = 1\nmemory = 1\n",
            "refused config-text 00000000\n",
        ),
        (&short, "memory = -1\nzed = 1\n", "refused config-key zed\n"),
        (&short, "memory = -1\n", "refused config-range memory\n"),
        (&short, region, "refused short 00000001\n"),
        (&unknown, region, "refused no-symbol 00000000\n"),
        (
            &unknown,
            "[[region]]\nstart = 0x00400000\nsize = 4\n[[cache]]\nserves = \"load\"\nsets = 1\nways = 1\nline = 4\nlatency = 0\n",
            "refused region-clash 00400000\n",
        ),
        (&unknown, CACHE, "refused unbuilt 00000000\n"),
        (&unknown, "cache = []", "refused unknown-word 00400000\n"),
    ];
    for (bytes, profile, line) in rows {
        assert!(rt; with_profile(alloc, bytes, profile)?.refuses(line));
    }
    Ok(())
}
