//! The solver over a chain, a diamond, a loop that is left from its middle and a nest, and how many steps it takes.

ghost use Rattle.std.specs.Prelude.{◌≡◌, ◌==◌, ◌≤◌, if◌then◌else◌, max};
ghost use Rattle.std.proofs.Common.{arith};
ghost use Rattle.std.proofs.lemmas.Bool.Decides.{nat_tests};
ghost use Rattle.domain_laws.specs.Shapes.Shape.{plain};
ghost use Rattle.std.specs.Prelude.{[]};

use crate::tests::{Most, arc};
use crate::{is_upward, solve};
use domain_laws::Transfer;
use flow_net::{LoopInst, Net, Place};
use std::alloc::{AllocError, Global};
use std::cell::Cell;
use std::test::Fail;
use wcet_io::List;

/// One place leaves at least a given number; an arc changes nothing. It counts its steps.
#[derive(Drop)]
struct LeavesAtLeast {
    place: u32,
    least: u32,
    steps: Cell<u32>,
}

impl Transfer<Most> for LeavesAtLeast {
    ghost serves_place = { λ transfer place. transfer.least ≤ 9 };

    ghost serves_arc = { λ transfer arc. Unit {0} };

    ghost shape = { λ transfer. plain [] };

    ghost stepped = { λ transfer place count. if place == transfer.place then max count transfer.least else count };

    ghost moved = { λ transfer arc count. count };

    fn step(&self, place: u32, before: &Most) -> Result<Most, AllocError> {
        self.steps.set(self.steps.get().wrapping_add(1));
        if place == self.place && before.count < self.least {
            return Ok(Most { count: self.least });
        }
        Ok(Most {
            count: before.count,
        })
    }

    fn along(&self, _arc: u32, after: &Most) -> Result<Most, AllocError> {
        Ok(Most { count: after.count })
    }

    ghost steps = { λ transfer. record {
      kept = λ place x served p. Prim.grind (arith, nat_tests, p, served);
      rises = λ place x y served p q h. Prim.grind (arith, nat_tests, h);
    } };

    ghost moves = { λ transfer. record {
      kept = λ arc x served p. p;
      rises = λ arc x y served p q h. h;
    } };
}

/// A net from the scope of each place, the ends of each arc, and the header and the next scope outward of each loop.
fn net_of(
    alloc: Global,
    scopes: &[u32],
    ends: &[(u32, u32)],
    loops: &[(u32, u32)],
) -> Result<Net, AllocError> {
    let mut net = Net {
        contexts: List::new(alloc),
        places: List::new(alloc),
        arcs: List::new(alloc),
        loops: List::new(alloc),
        accesses: List::new(alloc),
    };
    for scope in scopes {
        net.places.push(Place {
            context: 0,
            address: 0x0040_0000,
            scope: *scope,
        })?;
    }
    for (from, to) in ends {
        net.arcs.push(arc(*from, *to))?;
    }
    for (header, outer) in loops {
        net.loops.push(LoopInst {
            header: *header,
            bound: 3,
            outer: *outer,
        })?;
    }
    Ok(net)
}

/// The numbers before all places, where the start is 1 and one place leaves at least 4, and then how many steps it took.
/// None if the net isn't known to be solvable.
fn settled(alloc: Global, net: &Net, place: u32) -> Result<Option<Vec<u32>>, AllocError> {
    if !is_upward(alloc, net)? {
        return Ok(None);
    }
    let transfer = LeavesAtLeast {
        place,
        least: 4,
        steps: Cell::new(0),
    };
    let table = solve(alloc, net, &Most { count: 1 }, &transfer)?;
    let mut counts = Vec::new(alloc);
    for index in 0..net.places.as_slice().len() {
        counts.push(table.at(index as u32 + 1).count)?;
    }
    counts.push(transfer.steps.get())?;
    Ok(Some(counts))
}

/// Whether these are the numbers before all places, and the steps.
fn settles_to(alloc: Global, net: &Net, place: u32, counts: &[u32]) -> Result<bool, AllocError> {
    match settled(alloc, net, place)? {
        Some(found) => Ok(found.as_slice() == counts),
        None => Ok(false),
    }
}

/// What place 2 leaves comes to place 3 alone, and each place is taken once.
#[test]
fn a_chain_is_gone_through_once(rt: HostRuntime) -> Result<(), Fail> {
    let net = net_of(
        rt.alloc(),
        &[0, 0, 0],
        &[(0, 1), (1, 2), (2, 3), (3, 0)],
        &[],
    )?;
    assert!(rt; settles_to(rt.alloc(), &net, 2, &[1, 1, 4, 3])?);
    Ok(())
}

/// Place 1 goes on to 2 and to 3, and both to 4: the greater number of both comes there, whichever side it is on, and 4 is taken
/// once, after both.
#[test]
fn the_sides_of_a_diamond_join(rt: HostRuntime) -> Result<(), Fail> {
    let ends = [(0, 1), (1, 2), (1, 3), (2, 4), (3, 4), (4, 0)];
    let net = net_of(rt.alloc(), &[0; 4], &ends, &[])?;
    assert!(rt; settles_to(rt.alloc(), &net, 2, &[1, 1, 1, 4, 4])?);
    assert!(rt; settles_to(rt.alloc(), &net, 3, &[1, 1, 1, 4, 4])?);
    assert!(rt; settles_to(rt.alloc(), &net, 4, &[1, 1, 1, 1, 4])?);
    Ok(())
}

/// The loop of the places 1, 2 and 3 is left from 2 to 4. What 3 leaves comes round to 1 and 2, and so to 3 and 4: the places
/// 1, 2, 3, 1, 2, 3 are taken, and then 4, which lies in no loop. What 4 leaves comes to no place.
#[test]
fn a_loop_that_is_left_from_its_middle(rt: HostRuntime) -> Result<(), Fail> {
    let ends = [(0, 1), (1, 2), (2, 3), (3, 1), (2, 4), (4, 0)];
    let net = net_of(rt.alloc(), &[1, 1, 1, 0], &ends, &[(1, 0)])?;
    assert!(rt; settles_to(rt.alloc(), &net, 3, &[4, 4, 4, 4, 7])?);
    assert!(rt; settles_to(rt.alloc(), &net, 4, &[1, 1, 1, 1, 4])?);
    Ok(())
}

/// Two loops that lie in one another: 1 is the header of the outer one, 2 that of the inner one, 3 goes back to 2 and on to 4,
/// which goes back to 1 and on to 5. What 4 leaves comes back to 1, 2 and 3, and on to 5. Taken are 1, 2, 3, 4, then 1 again,
/// whose rise goes through 2 and 3, which goes back to 2 in vain, and 4 again, and 5 at last.
#[test]
fn what_the_outer_loop_leaves_comes_to_the_inner_one(rt: HostRuntime) -> Result<(), Fail> {
    let ends = [
        (0, 1),
        (1, 2),
        (2, 3),
        (3, 2),
        (3, 4),
        (4, 1),
        (4, 5),
        (5, 0),
    ];
    let net = net_of(rt.alloc(), &[1, 2, 2, 1, 0], &ends, &[(1, 0), (2, 1)])?;
    assert!(rt; settles_to(rt.alloc(), &net, 4, &[4, 4, 4, 4, 4, 9])?);
    assert!(rt; settles_to(rt.alloc(), &net, 5, &[1, 1, 1, 1, 1, 5])?);
    Ok(())
}

/// Eight loops in one another: the places 1 to 8 are their headers, inward, and 9 to 16 go on outward, each back to the header
/// of its loop as well. What 9 leaves comes to all. Taken are 1 to 9; then 8 and 9 in the innermost loop; and then in each of
/// the seven other loops, from the inside outward, the place that goes back and the header that it goes back to, whose rise comes
/// to nothing new: 9 + 2 + 7 * 2 = 25 steps, less than 3 * 16. Where 16 leaves the greater number, 1 to 16 are taken, and then
/// all of them again, since it goes back to 1: 2 * 16 = 32 steps, less than 3 * 16.
#[test]
fn a_nest_settles_from_the_inside_outward(rt: HostRuntime) -> Result<(), Fail> {
    let scopes = [1, 2, 3, 4, 5, 6, 7, 8, 8, 7, 6, 5, 4, 3, 2, 1];
    let ends = [
        (0, 1),
        (1, 2),
        (2, 3),
        (3, 4),
        (4, 5),
        (5, 6),
        (6, 7),
        (7, 8),
        (8, 9),
        (9, 8),
        (9, 10),
        (10, 7),
        (10, 11),
        (11, 6),
        (11, 12),
        (12, 5),
        (12, 13),
        (13, 4),
        (13, 14),
        (14, 3),
        (14, 15),
        (15, 2),
        (15, 16),
        (16, 1),
        (16, 0),
    ];
    let loops = [
        (1, 0),
        (2, 1),
        (3, 2),
        (4, 3),
        (5, 4),
        (6, 5),
        (7, 6),
        (8, 7),
    ];
    let net = net_of(rt.alloc(), &scopes, &ends, &loops)?;
    let inner = [4, 4, 4, 4, 4, 4, 4, 4, 4, 4, 4, 4, 4, 4, 4, 4, 25];
    assert!(rt; settles_to(rt.alloc(), &net, 9, &inner)?);
    let outer = [4, 4, 4, 4, 4, 4, 4, 4, 4, 4, 4, 4, 4, 4, 4, 4, 32];
    assert!(rt; settles_to(rt.alloc(), &net, 16, &outer)?);
    Ok(())
}
