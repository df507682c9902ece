//! Shifts.

ghost use Rattle.mips_decode.specs.declared.instr.ShiftOp.{ShiftOp};
ghost use Rattle.std.specs.Prelude.{◌≡◌, ◌<◌};
ghost use Rattle.value_domain.specs.Results.{shift_span, shifted_left, shifted_right, shifted_signed, varied};

use crate::divisors::divides;
use crate::strided::Strided;
use crate::sums::{sum, turned};
use mips_decode::ShiftOp;

/// The numbers shifted to the left.
#[tactic(auto, unfolding(crate::specs::Results::shifted_left))]
fn left(a: &Strided, by: u32) -> Strided
    requires { by < 32 }
    ensures { result ≡ shifted_left a.now by }
{
    let scale = 1u64 << by;
    Strided::wrapped(
        u64::from(a.lo()) * scale,
        u64::from(a.hi()) * scale,
        u64::from(a.step()) * scale,
    )
}

/// The numbers shifted to the right. The step is kept where it loses no bit.
#[tactic(auto, unfolding(crate::specs::Results::shifted_right))]
fn right(a: &Strided, by: u32) -> Strided
    requires { by < 32 }
    ensures { result ≡ shifted_right a.now by }
{
    if divides(1 << by, a.step()) {
        return a.scaled_down(by);
    }
    Strided::between(a.lo() >> by, a.hi() >> by)
}

/// The numbers shifted to the right with their sign repeated.
#[tactic(auto, unfolding(crate::specs::Results::shifted_signed))]
fn right_signed(a: &Strided, by: u32) -> Strided
    requires { by < 32 }
    ensures { result ≡ shifted_signed a.now by }
{
    let shifted = right(&turned(a), by);
    sum(
        &shifted,
        &Strided::one(0u32.wrapping_sub(0x8000_0000 >> by)),
    )
}

/// The numbers shifted by fewer than 32 bits.
pub fn shifted(op: ShiftOp, a: &Strided, by: u32) -> Strided
    requires { by < 32 }
    ensures { result ≡ shift_span op a.now by }
{
    match op {
        ShiftOp::Sll => left(a, by),
        ShiftOp::Srl => right(a, by),
        ShiftOp::Sra => right_signed(a, by),
    }
}

/// The numbers shifted by the low five bits of another value.
#[tactic(auto, unfolding(crate::specs::Results::varied))]
pub fn varied(op: ShiftOp, a: &Strided, by: &Strided) -> Strided
    ensures { result ≡ varied op a.now by.now }
{
    if by.is_one() {
        return shifted(op, a, by.lo() % 32);
    }
    Strided::all()
}
