//! Which scopes hold the places of a small net, and the letters of all letters and classes.

ghost use Rattle.std.specs.Prelude.{◌≡◌, IfOk, length};
ghost use Rattle.flow_net.specs.Numbers.{IsNumberOf};
ghost use Rattle.flow_net.specs.Scopes.{HasScopes};

use crate::{Class, Letter, LoopInst, Net, Place, letter_after};
use std::alloc::{AllocError, Global};
use std::test::Fail;
use wcet_io::List;

/// A place at this address with this innermost scope.
fn place(address: u32, scope: u32) -> Place
    ensures { result.scope ≡ scope }
{
    Place {
        context: 0,
        address,
        scope,
    }
}

/// A loop with its header at this place and this next loop outward.
fn looping(header: u32, outer: u32) -> LoopInst
    ensures { result.outer ≡ outer }
{
    LoopInst {
        header,
        bound: 8,
        outer,
    }
}

/// Loops 1, 2 and 3 lie in one another, the last one innermost, and 4 beside them. Places 2 to 5 are
/// their headers, place 6 lies in loop 2 behind loop 3, and 1 and 7 in no loop.
fn three_and_one(alloc: Global) -> Result<Net, AllocError>
    ensures { IfOk result (λ net. HasScopes net × (length net.places ≡ 7)) }
{
    let places = vec![in alloc;
        place(0x0040_0000, 0),
        place(0x0040_0004, 1),
        place(0x0040_0008, 2),
        place(0x0040_000C, 3),
        place(0x0040_0010, 4),
        place(0x0040_0014, 2),
        place(0x0040_0018, 0),
    ]?;
    let loops = vec![in alloc; looping(2, 0), looping(3, 1), looping(4, 2), looping(5, 0)]?;
    Ok(Net {
        contexts: List::new(alloc),
        places: List::from_vec(places),
        arcs: List::new(alloc),
        loops: List::from_vec(loops),
        accesses: List::new(alloc),
    })
}

/// Which of the scopes 0 to 4 hold the place.
fn holders(net: &Net, place: u32) -> [bool; 5]
    requires place { IsNumberOf net.now.places place }
    requires scopes { HasScopes net.now }
{
    [
        net.held(place, 0),
        net.held(place, 1),
        net.held(place, 2),
        net.held(place, 3),
        net.held(place, 4),
    ]
}

#[test]
fn loops_hold_what_lies_in_them(rt: HostRuntime) -> Result<(), Fail> {
    let net = three_and_one(rt.alloc())?;
    assert_eq!(rt; holders(&net, 1), [true, false, false, false, false]);
    assert_eq!(rt; holders(&net, 2), [true, true, false, false, false]);
    assert_eq!(rt; holders(&net, 3), [true, true, true, false, false]);
    assert_eq!(rt; holders(&net, 4), [true, true, true, true, false]);
    assert_eq!(rt; holders(&net, 5), [true, false, false, false, true]);
    assert_eq!(rt; holders(&net, 6), [true, true, true, false, false]);
    assert_eq!(rt; holders(&net, 7), [true, false, false, false, false]);
    Ok(())
}

/// The letters behind a hit, a miss, a first miss and no class.
fn letters_from(letter: Letter) -> [Letter; 4] {
    [
        letter_after(letter, Class::Hit),
        letter_after(letter, Class::Miss),
        letter_after(letter, Class::First(0)),
        letter_after(letter, Class::Unclassified),
    ]
}

#[test]
fn letters_follow_the_table(rt: HostRuntime) {
    use Letter::{Always, Never, Uncertain};
    assert_eq!(rt; letters_from(Always), [Never, Always, Uncertain, Uncertain]);
    assert_eq!(rt; letters_from(Never), [Never; 4]);
    assert_eq!(rt;
        letters_from(Uncertain),
        [Never, Uncertain, Uncertain, Uncertain]
    );
}
