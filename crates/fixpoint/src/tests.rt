//! The solver at a small domain, over a loop within a loop.

ghost use Rattle.std.specs.Prelude.{◌≡◌, ℕ, [], ◌==◌, ◌-◌, ◌≤◌, All, IfOk, length, if◌then◌else◌, max, nat_le};
ghost use Rattle.std.proofs.Common.{arith};
ghost use Rattle.std.proofs.lemmas.Bool.Decides.{nat_tests};
ghost use Rattle.domain_laws.specs.Plain.{plain_has, plain_lattice, plain_ranked, plain_widening};
ghost use Rattle.domain_laws.specs.Shapes.Shape.{plain};
ghost use Rattle.flow_net.proofs.OnNested.{two_loops};
ghost use Rattle.flow_net.specs.Nested.{IsNested};
ghost use Rattle.flow_net.specs.Numbers.{IsNumberOf, IsNumberOrZero};
ghost use Rattle.flow_net.specs.Scopes.{HasScopes};
ghost use Rattle.fixpoint.specs.Solved.{IsSolvable};

use crate::solve;
use domain_laws::{Height, Lattice, Transfer, Widen};
use flow_net::{Access, Context, LoopInst, Net, NetArc, Place, Role};
use net_tables::{
    accesses_at, arcs_entering, arcs_into, arcs_out, depths_of, loops_entered, scopes_left,
};
use std::alloc::{AllocError, Global};
use std::marker::Model;
use std::test::Fail;
use wcet_io::List;

/// A number of at most 9. Widening is the join.
#[derive(Debug, Drop, PartialEq, Eq)]
pub struct Most {
    pub count: u32,
}

impl Model for Most {
    ghost Value = { ℕ };

    ghost view = { λ most. most.count };

    ghost invariant = { λ most. most.count ≤ 9 };

    ghost inverse = { λ count. record { count = count } };
}

impl Lattice for Most {
    ghost has = { plain_has (λ count. count ≤ 9) };

    ghost leq = { nat_le };

    ghost joined = { max };

    fn copy(&self) -> Result<Self, AllocError> {
        Ok(Most { count: self.count })
    }

    fn leq(&self, other: &Self) -> bool {
        self.count <= other.count
    }

    fn join(&mut self, other: &Self) -> Result<bool, AllocError> {
        if other.count <= self.count {
            return Ok(false);
        }
        self.count = other.count;
        Ok(true)
    }

    ghost lattice = { plain_lattice (record {
      same = λ x p. Prim.grind (arith, nat_tests);
      chain = λ x y z p q r h k. Prim.grind (arith, nat_tests, h, k);
      both = λ x y p q h k. Prim.grind (arith, nat_tests, h, k);
      kept = λ x y p q. Prim.omega arith;
      left = λ x y p q. Prim.grind (arith, nat_tests);
      right = λ x y p q. Prim.grind (arith, nat_tests);
      least = λ x y z p q r h k. Prim.grind (arith, nat_tests, h, k);
    }) };
}

impl Height for Most {
    ghost rank = { λ count. 9 - count };

    ghost height = { 10 };

    ghost ranked = { plain_ranked (record {
      within = λ x p. Prim.omega arith;
      falls = λ x y p q h k. Prim.grind (arith, nat_tests, h, k);
    }) };
}

impl Widen for Most {
    ghost widened = { max };

    fn widen(&mut self, newer: &Self) -> Result<bool, AllocError> {
        if newer.count <= self.count {
            return Ok(false);
        }
        self.count = newer.count;
        Ok(true)
    }

    ghost widening = { plain_widening (record {
      kept = λ x y p q. Prim.omega arith;
      left = λ x y p q. Prim.grind (arith, nat_tests);
      right = λ x y p q. Prim.grind (arith, nat_tests);
    }) };
}

/// Place 2 leaves at least 4; an arc changes nothing.
#[derive(Drop)]
struct AtLeastFour;

impl Transfer<Most> for AtLeastFour {
    ghost serves_place = { λ transfer place. Unit {0} };

    ghost serves_arc = { λ transfer arc. Unit {0} };

    ghost shape = { λ transfer. plain [] };

    ghost stepped = { λ transfer place count. if place == 2 then max count 4 else count };

    ghost moved = { λ transfer arc count. count };

    fn step(&self, place: u32, before: &Most) -> Result<Most, AllocError> {
        if place == 2 && before.count < 4 {
            return Ok(Most { count: 4 });
        }
        before.copy()
    }

    fn along(&self, _arc: u32, after: &Most) -> Result<Most, AllocError> {
        after.copy()
    }

    ghost steps = { λ transfer. record {
      kept = λ place x served p. Prim.grind (arith, nat_tests, p);
      rises = λ place x y served p q h. Prim.grind (arith, nat_tests, h);
    } };

    ghost moves = { λ transfer. record {
      kept = λ arc x served p. p;
      rises = λ arc x y served p q h. h;
    } };
}

/// An arc between places, or from or to 0.
pub fn arc(from: u32, to: u32) -> NetArc
    ensures { result ≡ record { from = from; to = to } }
{
    NetArc { from, to }
}

/// The nested net that flow_net writes out: place 1 is the header of loop 1, and place 2 that of loop 2, within it.
fn loops(alloc: Global) -> Result<Net, AllocError>
    ensures { IfOk result (λ net. net ≡ two_loops) }
{
    let contexts = vec![in alloc;
        Context {
            parent: 0,
            site: 0,
            target: 0x0040_0000
        },
    ]?;
    let places = vec![in alloc;
        Place {
            context: 0,
            address: 0x0040_0000,
            scope: 1
        },
        Place {
            context: 0,
            address: 0x0040_0004,
            scope: 2
        },
    ]?;
    let arcs = vec![in alloc; arc(0, 1), arc(1, 2), arc(2, 2), arc(2, 1), arc(1, 0)]?;
    let loops = vec![in alloc;
        LoopInst {
            header: 1,
            bound: 3,
            outer: 0
        },
        LoopInst {
            header: 2,
            bound: 4,
            outer: 1
        },
    ]?;
    let accesses = vec![in alloc;
        Access {
            place: 2,
            role: Role::Fetch,
            at: 0x0040_0004
        },
    ]?;
    Ok(Net {
        contexts: List::from_vec(contexts),
        places: List::from_vec(places),
        arcs: List::from_vec(arcs),
        loops: List::from_vec(loops),
        accesses: List::from_vec(accesses),
    })
}

/// The same net, as the solver and the tables ask for it.
fn nested_loops(alloc: Global) -> Result<Net, AllocError>
    ensures accesses { IfOk result (λ net. All (λ access. IsNumberOf net.places access.place) net.accesses) }
    ensures nested { IfOk result IsNested }
    ensures solvable { IfOk result IsSolvable }
    ensures sizes { IfOk result (λ net. (length net.places ≡ 2) × (length net.arcs ≡ 5) × (length net.accesses ≡ 1)) }
    ensures loops { IfOk result (λ net. length net.loops ≡ 2) }
    ensures starts { IfOk result (λ net. All (λ arc. IsNumberOrZero net.places arc.from) net.arcs) }
    ensures ends { IfOk result (λ net. All (λ arc. IsNumberOrZero net.places arc.to) net.arcs) }
    ensures scopes { IfOk result HasScopes }
{
    let net = loops(alloc)?;
    Ok(net)
}

/// The numbers before the places 1 and 2, from this start.
fn settled(alloc: Global, start: u32) -> Result<(u32, u32), AllocError>
    requires { start ≤ 9 }
{
    let net = nested_loops(alloc)?;
    let table = solve(alloc, &net, &Most { count: start }, &AtLeastFour)?;
    Ok((table.at(1).count, table.at(2).count))
}

#[test]
fn what_the_inner_loop_leaves_comes_back_to_the_outer_one(rt: HostRuntime) -> Result<(), Fail> {
    assert_eq!(rt; settled(rt.alloc(), 1)?, (4, 4));
    assert_eq!(rt; settled(rt.alloc(), 6)?, (6, 6));
    Ok(())
}

/// The numbers of a place.
fn of_place(lists: &[List<u32>], place: usize) -> Option<&[u32]> {
    match lists.get(place) {
        Some(numbers) => Some(numbers.as_slice()),
        None => None,
    }
}

#[test]
fn places_have_the_numbers_of_their_arcs_and_accesses(rt: HostRuntime) -> Result<(), Fail> {
    let net = nested_loops(rt.alloc())?;
    let out = arcs_out(rt.alloc(), &net)?;
    assert_eq!(rt; of_place(&out, 0), Some([1].as_slice()));
    assert_eq!(rt; of_place(&out, 1), Some([2, 5].as_slice()));
    assert_eq!(rt; of_place(&out, 2), Some([3, 4].as_slice()));
    assert_eq!(rt; of_place(&out, 3), None);
    let into = arcs_into(rt.alloc(), &net)?;
    assert_eq!(rt; of_place(&into, 0), Some([5].as_slice()));
    assert_eq!(rt; of_place(&into, 1), Some([1, 4].as_slice()));
    assert_eq!(rt; of_place(&into, 2), Some([2, 3].as_slice()));
    let accesses = accesses_at(rt.alloc(), &net)?;
    assert_eq!(rt; of_place(&accesses, 1), Some([].as_slice()));
    assert_eq!(rt; of_place(&accesses, 2), Some([1].as_slice()));
    assert_eq!(rt; depths_of(rt.alloc(), &net)?.as_slice(), [1, 2].as_slice());
    Ok(())
}

/// Whether these are the numbers in a list.
fn is_listed(lists: &[List<u32>], index: usize, numbers: &[u32]) -> bool {
    match lists.get(index) {
        Some(list) => list.as_slice() == numbers,
        None => false,
    }
}

/// Arcs 1 and 2 enter the loops, arc 3 goes from 2 to itself, arc 4 leaves the inner loop, and arc 5 all.
#[test]
fn arcs_have_the_scopes_that_they_enter_and_leave(rt: HostRuntime) -> Result<(), Fail> {
    let net = nested_loops(rt.alloc())?;
    let entered = loops_entered(rt.alloc(), &net)?;
    assert_eq!(rt; entered.as_slice(), [1, 2, 0, 0, 0].as_slice());
    let entering = arcs_entering(rt.alloc(), &net)?;
    assert!(rt; is_listed(&entering, 0, &[1]));
    assert!(rt; is_listed(&entering, 1, &[1]));
    assert!(rt; is_listed(&entering, 2, &[2]));
    let left = scopes_left(rt.alloc(), &net)?;
    assert!(rt; is_listed(&left, 0, &[]));
    assert!(rt; is_listed(&left, 1, &[]));
    assert!(rt; is_listed(&left, 2, &[]));
    assert!(rt; is_listed(&left, 3, &[2]));
    assert!(rt; is_listed(&left, 4, &[1, 0]));
    Ok(())
}
