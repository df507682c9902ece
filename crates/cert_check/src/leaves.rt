//! The lines of leaves at the front of bytes.

ghost use Rattle.std.specs.Prelude.{◌≡◌, ℕ, List, IfOk, IfSome, Some, option_map, false, true};
ghost use Rattle.ipet_program.specs.declared.leaf.Leaf.{Leaf};
ghost use Rattle.cert_check.specs.Leaves.{TakesLeaf};

use crate::numbers::signed_at;
use crate::weights::weights_at;
use crate::words::after;
use ipet_program::Leaf;
use std::alloc::{AllocError, Global};

/// The leaf that shows a bound at the front of bytes, and what stands behind its line.
pub fn bound_leaf_at(alloc: Global, bytes: &[u8]) -> Result<Option<(Leaf, &[u8])>, AllocError>
    ensures takes { IfOk result (λ o. IfSome o (λ r. TakesLeaf bytes.now r.0 r.1.now)) }
    ensures again { IfOk result (λ o. (leaf : Leaf) (rest : List ℕ) → leaf.empty ≡ false →
        TakesLeaf bytes.now leaf rest → option_map {U = Leaf × List ℕ} (λ r. (r.0, r.1.now)) o ≡ Some (leaf, rest)) }
{
    let Some(rest) = after(bytes, b"leaf ") else {
        return Ok(None);
    };
    let Some((denom, rest)) = signed_at(rest) else {
        return Ok(None);
    };
    let Some((weights, rest)) = weights_at(alloc, rest)? else {
        return Ok(None);
    };
    let leaf = Leaf {
        denom,
        empty: false,
        weights,
    };
    Ok(Some((leaf, rest)))
}

/// The leaf that shows that there are no counts at the front of bytes, and what stands behind its line.
pub fn empty_leaf_at(alloc: Global, bytes: &[u8]) -> Result<Option<(Leaf, &[u8])>, AllocError>
    ensures takes { IfOk result (λ o. IfSome o (λ r. TakesLeaf bytes.now r.0 r.1.now)) }
    ensures again { IfOk result (λ o. (leaf : Leaf) (rest : List ℕ) → leaf.empty ≡ true →
        TakesLeaf bytes.now leaf rest → option_map {U = Leaf × List ℕ} (λ r. (r.0, r.1.now)) o ≡ Some (leaf, rest)) }
{
    let Some(rest) = after(bytes, b"empty") else {
        return Ok(None);
    };
    let Some((weights, rest)) = weights_at(alloc, rest)? else {
        return Ok(None);
    };
    let leaf = Leaf {
        denom: 1,
        empty: true,
        weights,
    };
    Ok(Some((leaf, rest)))
}
