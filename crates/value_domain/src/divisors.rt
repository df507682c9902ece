//! Common divisors.

ghost use Rattle.std.specs.Prelude.{◌≡◌, ◌≤◌, ◌%◌};
ghost use Rattle.value_domain.specs.Divisors.{divides, gcd};

/// Whether a step divides a number. Only 0 is a multiple of 0.
pub fn divides(step: u32, n: u32) -> bool
    ensures { result ≡ divides step n }
{
    if step == 0 {
        return n == 0;
    }
    n % step == 0
}

/// The rest of a number by a step; by 0 it is the number.
pub fn rest(n: u64, step: u32) -> u64
    ensures value { result ≡ n % step }
    ensures bound { result ≤ n }
{
    if step == 0 {
        return n;
    }
    n % u64::from(step)
}

/// The greatest common divisor, in at most about fifty steps (Euclid's algorithm: Knuth 1997, volume 2, 4.5.2).
pub fn gcd(a: u32, b: u32) -> u32
    ensures { result ≡ gcd a b }
{
    let mut x = a;
    let mut y = b;
    while y != 0 {
        let left = x % y;
        x = y;
        y = left;
    }
    x
}
