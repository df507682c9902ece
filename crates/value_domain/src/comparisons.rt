//! Comparisons: 1 where the first number is less, else 0.

ghost use Rattle.std.specs.Prelude.{◌≡◌};
ghost use Rattle.value_domain.specs.Results.{compared, compared_signed};

use crate::strided::Strided;
use crate::sums::turned;

/// Whether numbers are less as unsigned ones.
#[tactic(auto, unfolding(crate::specs::Results::compared))]
pub fn less(a: &Strided, b: &Strided) -> Strided
    ensures { result ≡ compared a.now b.now }
{
    if a.hi() < b.lo() {
        return Strided::one(1);
    }
    if b.hi() <= a.lo() {
        return Strided::one(0);
    }
    Strided::between(0, 1)
}

/// Whether numbers are less as signed ones.
#[tactic(auto, unfolding(crate::specs::Results::compared_signed))]
pub fn less_signed(a: &Strided, b: &Strided) -> Strided
    ensures { result ≡ compared_signed a.now b.now }
{
    less(&turned(a), &turned(b))
}
