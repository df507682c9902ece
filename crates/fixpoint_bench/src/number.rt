//! A domain of one number, and a transfer that raises it at some places.

ghost use Rattle.std.specs.Prelude.{◌≡◌, ℕ, ◌+◌, ◌-◌, ◌^◌, ◌<◌, ◌%◌, [], ◌==◌, ◌&&◌, if◌then◌else◌, max, nat_le, nat_lt};
ghost use Rattle.std.proofs.Common.{arith};
ghost use Rattle.std.proofs.lemmas.Bool.Decides.{nat_tests};
ghost use Rattle.domain_laws.specs.Plain.{plain_has, plain_lattice, plain_ranked, plain_widening};
ghost use Rattle.domain_laws.specs.Shapes.Shape.{plain};

use domain_laws::{Height, Lattice, Transfer, Widen};
use std::alloc::AllocError;
use std::cell::Cell;
use std::marker::Model;

/// A number; the greater it is, the less it tells.
#[derive(Debug, Drop)]
pub struct Number {
    pub number: u32,
}

impl Model for Number {
    ghost Value = { ℕ };

    ghost view = { λ number. number.number };

    ghost inverse = { λ number. record { number = number } };
}

impl Lattice for Number {
    ghost has = { plain_has (λ number. number < 2 ^ 32) };

    ghost leq = { nat_le };

    ghost joined = { max };

    fn copy(&self) -> Result<Self, AllocError> {
        Ok(Number {
            number: self.number,
        })
    }

    fn leq(&self, other: &Self) -> bool {
        self.number <= other.number
    }

    fn join(&mut self, other: &Self) -> Result<bool, AllocError> {
        if other.number <= self.number {
            return Ok(false);
        }
        self.number = other.number;
        Ok(true)
    }

    ghost lattice = { plain_lattice (record {
      same = λ x p. Prim.grind (arith, nat_tests);
      chain = λ x y z p q r h k. Prim.grind (arith, nat_tests, h, k);
      both = λ x y p q h k. Prim.grind (arith, nat_tests, h, k);
      kept = λ x y p q. Prim.omega (arith, p, q);
      left = λ x y p q. Prim.grind (arith, nat_tests);
      right = λ x y p q. Prim.grind (arith, nat_tests);
      least = λ x y z p q r h k. Prim.grind (arith, nat_tests, h, k);
    }) };
}

impl Height for Number {
    ghost rank = { λ number. 2 ^ 32 - number };

    ghost height = { 2 ^ 32 + 1 };

    ghost ranked = { plain_ranked (record {
      within = λ x p. Prim.omega arith;
      falls = λ x y p q h k. Prim.grind (arith, nat_tests, h, k, p, q);
    }) };
}

impl Widen for Number {
    ghost widened = { max };

    fn widen(&mut self, newer: &Self) -> Result<bool, AllocError> {
        self.join(newer)
    }

    ghost widening = { plain_widening (record {
      kept = λ x y p q. Prim.omega (arith, p, q);
      left = λ x y p q. Prim.grind (arith, nat_tests);
      right = λ x y p q. Prim.grind (arith, nat_tests);
    }) };
}

/// Each sixteenth place, from 9 on, leaves at least its own number; an arc changes nothing. It counts its steps.
#[derive(Drop)]
pub struct AtLeast {
    steps: Cell<u64>,
}

impl AtLeast {
    /// No step was done.
    pub fn new() -> AtLeast {
        AtLeast {
            steps: Cell::new(0),
        }
    }

    /// How many steps were done.
    pub fn steps(&self) -> u64 {
        self.steps.get()
    }
}

impl Transfer<Number> for AtLeast {
    ghost serves_place = { λ transfer place. place < 2 ^ 32 };

    ghost serves_arc = { λ transfer arc. Unit {0} };

    ghost shape = { λ transfer. plain [] };

    ghost stepped = { λ transfer place number. if place % 16 == 9 then max number place else number };

    ghost moved = { λ transfer arc number. number };

    fn step(&self, place: u32, before: &Number) -> Result<Number, AllocError> {
        self.steps.set(self.steps.get().wrapping_add(1));
        if place % 16 == 9 {
            return Ok(Number {
                number: before.number.max(place),
            });
        }
        before.copy()
    }

    fn along(&self, _arc: u32, after: &Number) -> Result<Number, AllocError> {
        after.copy()
    }

    ghost steps = { λ transfer. record {
      kept = λ place x served p. Prim.grind (arith, nat_tests, p, served);
      rises = λ place x y served p q h. Prim.grind (arith, nat_tests, h);
    } };

    ghost moves = { λ transfer. record {
      kept = λ arc x served p. p;
      rises = λ arc x y served p q h. h;
    } };
}
