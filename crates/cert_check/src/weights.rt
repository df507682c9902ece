//! The multipliers of a leaf's rows at the front of bytes.

ghost use Rattle.std.specs.Prelude.{◌≡◌, ℕ, ◌≤◌, List, ◌∷◌, ◌++◌, flat_map, IfOk, IfSome, Some, option_map, pos};
ghost use Rattle.std.specs.Bool.{OnFalse, OnTrue};
ghost use Rattle.ipet_program.specs.declared.leaf.Weight.{Weight};
ghost use Rattle.cert_check.specs.Lines.{FitsWeight};
ghost use Rattle.cert_check.specs.Numbers.{IsStop};
ghost use Rattle.cert_check.specs.Texts.{weight_text};
ghost use Rattle.cert_check.specs.Weights.{AreWeights};

use crate::numbers::{field_at, signed_at};
use crate::words::{after, begins_with};
use ipet_program::Weight;
use std::alloc::{AllocError, Global};
use wcet_io::List;

/// The multiplier of a row at the front of bytes, up to a byte that is no digit, and the bytes from that one on.
fn weight_at(bytes: &[u8]) -> Option<(Weight, &[u8])>
    ensures takes { IfSome result (λ r. bytes.now ≡ weight_text r.0 ++ r.1.now) }
    ensures fits { IfSome result (λ r. FitsWeight r.0) }
    ensures again { (weight : Weight) (stop : ℕ) (rest : List ℕ) → FitsWeight weight → IsStop stop →
        bytes.now ≡ weight_text weight ++ stop ∷ rest →
        option_map {U = Weight × List ℕ} (λ r. (r.0, r.1.now)) result ≡ Some (weight, stop ∷ rest) }
{
    let rest = after(bytes, b" ")?;
    let (row, rest) = field_at(rest, b':')?;
    let (times, rest) = signed_at(rest)?;
    Some((Weight { row, times }, rest))
}

/// Whether a multiplier may come, where the rows begin with this one: it isn't 0.
fn may_come(low: u128, weight: Weight) -> bool
    ensures yes { OnTrue result ((low ≤ weight.row) × (weight.times ≡ pos 0 → ⊥)) }
    ensures none { OnFalse result (low ≤ weight.row → (weight.times ≡ pos 0 → ⊥) → ⊥) }
{
    low <= u128::from(weight.row) && weight.times != 0
}

/// The multipliers at the front of bytes, and what stands behind the end of their line. Their rows rise, and none of
/// them is 0.
pub fn weights_at(alloc: Global, bytes: &[u8]) -> Result<Option<(List<Weight>, &[u8])>, AllocError>
    ensures takes { IfOk result (λ o. IfSome o (λ r. bytes.now ≡ flat_map weight_text r.0 ++ 10 ∷ r.1.now)) }
    ensures weights { IfOk result (λ o. IfSome o (λ r. AreWeights r.0)) }
    ensures again { IfOk result (λ o. (weights : List Weight) (rest : List ℕ) → AreWeights weights →
        bytes.now ≡ flat_map weight_text weights ++ 10 ∷ rest →
        option_map {U = List Weight × List ℕ} (λ r. (r.0, r.1.now)) o ≡ Some (weights, rest)) }
{
    let mut weights = List::new(alloc);
    let mut low: u128 = 0;
    let mut rest = bytes;
    while !begins_with(rest, b'\n') {
        let Some((weight, behind)) = weight_at(rest) else {
            return Ok(None);
        };
        if !may_come(low, weight) {
            return Ok(None);
        }
        weights.push(weight)?;
        low = u128::from(weight.row) + 1;
        rest = behind;
    }
    let (_, behind) = rest.split_at(1);
    Ok(Some((weights, behind)))
}
