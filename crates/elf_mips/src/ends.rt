//! Where segments end, by where they begin.

ghost use Rattle.std.specs.Prelude.{◌≡◌, ℕ, ◌<◌, ◌≤◌, Some, None, IfSome, IfNone, IsSome};
ghost use Rattle.std.specs.BTreeMap.{get};
ghost use Rattle.std.specs.Ordering.{nat_cmp};

use std::collections::BTreeMap;

/// The last segment that begins before `end`: where it begins, and where it ends.
pub fn last_before(ends: &BTreeMap<u32, u32>, end: u32) -> Option<(u32, u32)>
    ensures entry { IfSome result (λ p. get nat_cmp ends.now p.0 ≡ Some p.1) }
    ensures before { IfSome result (λ p. p.0 < end) }
    ensures last { IfSome result
        (λ p. (a : ℕ) → a < end → IsSome (get nat_cmp ends.now a) → a ≤ p.0) }
    ensures none { IfNone result ((a : ℕ) → a < end → get nat_cmp ends.now a ≡ None) }
{
    let mut before = ends.range(..end);
    let (address, last_end) = before.next_back()?;
    Some((*address, *last_end))
}
