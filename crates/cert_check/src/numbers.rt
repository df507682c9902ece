//! Numbers at the front of bytes. They are decimal, without leading zeros; only signed ones may have a `-`, and `-0`
//! is no number.

ghost use Rattle.std.specs.Prelude.{◌≡◌, ℕ, ◌<◌, ◌*◌, ◌+◌, ◌-◌, ◌^◌, ◌≤◌, ℤ, negsuc, List, ◌∷◌, ◌++◌, IfSome, IfNone, Some, option_map, FitsSigned};
ghost use Rattle.std.specs.Bool.{OnFalse, OnTrue};
ghost use Rattle.std.specs.Fmt.{decimal, signed_decimal};
ghost use Rattle.std.specs.Int.{w128};
ghost use Rattle.cert_check.specs.Numbers.{IsDigit, IsNext, IsStop, Stands};

use crate::words::after;

/// Whether a byte is a digit.
fn is_digit(byte: u8) -> bool
    ensures yes { OnTrue result (IsDigit byte) }
    ensures none { OnFalse result (IsStop byte) }
{
    48 <= byte && byte <= 57
}

/// The number with one more digit, if no zero stands alone in front of it and the number stays within 128 bits.
fn with_digit(number: u128, place: usize, byte: u8) -> Option<u128>
    requires { IsDigit byte }
    ensures some { IfSome result (λ next. IsNext number place × (next ≡ number * 10 + (byte - 48))) }
    ensures none { IfNone result (IsNext number place → 2 ^ 128 ≤ number * 10 + (byte - 48)) }
{
    if 0 < place && number == 0 {
        return None;
    }
    number.checked_mul(10)?.checked_add(u128::from(byte - 48))
}

/// The number of up to 128 bits at the front of bytes, up to a byte that is no digit, and the bytes from that one on.
pub fn number_at(bytes: &[u8]) -> Option<(u128, &[u8])>
    // What is read stands there.
    ensures takes { IfSome result (λ r. bytes.now ≡ decimal r.0 ++ r.1.now) }
    // What stands there is read.
    ensures again { (n stop : ℕ) (rest : List ℕ) → n < 2 ^ 128 → Stands bytes.now n stop rest →
        option_map {U = ℕ × List ℕ} (λ r. (r.0, r.1.now)) result ≡ Some (n, stop ∷ rest) }
{
    let mut number: u128 = 0;
    for place in 0..bytes.len() {
        let byte = bytes[place];
        if !is_digit(byte) {
            if place == 0 {
                return None;
            }
            let (_, rest) = bytes.split_at(place);
            return Some((number, rest));
        }
        number = with_digit(number, place, byte)?;
    }
    None
}

/// The number of 64 bits at the front of bytes, and what stands behind the byte that ends it.
pub fn field_at(bytes: &[u8], stop: u8) -> Option<(u64, &[u8])>
    requires { IsStop stop }
    ensures takes { IfSome result (λ r. bytes.now ≡ decimal r.0 ++ stop ∷ r.1.now) }
    ensures again { (n : ℕ) (rest : List ℕ) → n < 2 ^ 64 → bytes.now ≡ decimal n ++ stop ∷ rest →
        option_map {U = ℕ × List ℕ} (λ r. (r.0, r.1.now)) result ≡ Some (n, rest) }
{
    let (number, rest) = number_at(bytes)?;
    let number = u64::try_from(number).ok()?;
    let rest = after(rest, &[stop])?;
    Some((number, rest))
}

/// The number below 0 of a size.
fn negative_of(size: u128) -> Option<i128>
    ensures some { IfSome result (λ z. (n : ℕ) × (size ≡ n + 1) × (z ≡ negsuc n)) }
    ensures again { (n : ℕ) → FitsSigned w128 (negsuc n) → size ≡ n + 1 → result ≡ Some (negsuc n) }
{
    Some(-1 - i128::try_from(size.checked_sub(1)?).ok()?)
}

/// The number below 0 whose digits stand at the front of bytes, and the bytes from the one that ends it on.
fn negative_at(digits: &[u8]) -> Option<(i128, &[u8])>
    ensures takes { IfSome result (λ r. 45 ∷ digits.now ≡ signed_decimal r.0 ++ r.1.now) }
    ensures again { (n stop : ℕ) (rest : List ℕ) → FitsSigned w128 (negsuc n) → Stands digits.now (n + 1) stop rest →
        option_map {U = ℤ × List ℕ} (λ r. (r.0, r.1.now)) result ≡ Some (negsuc n, stop ∷ rest) }
{
    let (size, rest) = number_at(digits)?;
    let number = negative_of(size)?;
    Some((number, rest))
}

/// The number of 128 signed bits at the front of bytes, up to a byte that is no digit, and the bytes from that one on.
pub fn signed_at(bytes: &[u8]) -> Option<(i128, &[u8])>
    ensures takes { IfSome result (λ r. bytes.now ≡ signed_decimal r.0 ++ r.1.now) }
    ensures fits { IfSome result (λ r. FitsSigned w128 r.0) }
    ensures again { (z : ℤ) (stop : ℕ) (rest : List ℕ) → FitsSigned w128 z → IsStop stop →
        bytes.now ≡ signed_decimal z ++ stop ∷ rest →
        option_map {U = ℤ × List ℕ} (λ r. (r.0, r.1.now)) result ≡ Some (z, stop ∷ rest) }
{
    if let Some(digits) = after(bytes, b"-") {
        return negative_at(digits);
    }
    let (size, rest) = number_at(bytes)?;
    let number = i128::try_from(size).ok()?;
    Some((number, rest))
}
