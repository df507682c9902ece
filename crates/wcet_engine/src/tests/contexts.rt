//! Programs in which functions call one another by many ways.

ghost use Rattle.std.specs.Prelude.{◌≤◌};

use super::{RETURN, printed};
use std::alloc::{AllocError, Global};
use std::test::Fail;

/// The words of functions each of which calls the next one twice. The last one returns at once.
fn doubling(alloc: Global, functions: u32) -> Result<Vec<u32>, AllocError>
    requires { functions ≤ 20 }
{
    let mut words = Vec::new(alloc);
    for function in 1..functions {
        let call = 0x0C10_0000 + 6 * function;
        for word in [call, 0, call, 0, RETURN, 0] {
            words.push(word)?;
        }
    }
    words.push(RETURN)?;
    words.push(0)?;
    Ok(words)
}

#[test]
fn bounds_as_many_contexts_as_there_may_be(rt: HostRuntime) -> Result<(), Fail> {
    let alloc = rt.alloc();
    // Fourteen functions: 2^14 - 1 contexts, of which 2^13 are of the last function. Each other one takes three times
    // 22 cycles, those take 22: 8,191 times 66 and 8,192 times 22.
    assert!(rt;
        printed(alloc, &doubling(alloc, 14)?, &[])?.begins("bound 720830\nreached 720830\n")
    );
    // Fifteen functions: 32,767 contexts and 65,533 places.
    assert!(rt;
        printed(alloc, &doubling(alloc, 15)?, &[])?.refuses("refused too-many-units 00400000\n")
    );
    Ok(())
}
