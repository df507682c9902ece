//! How the bounds of all blocks change in place.

ghost use Rattle.std.specs.Prelude.{◌≡◌, ℕ, Option, Some, max};
ghost use Rattle.domain_laws.specs.Maps.{always, topped_joined, value_at};
ghost use Rattle.must_domain.specs.Changes.{all_changed, grown, touched_entry};

use crate::state::age_in;

/// What becomes of the bound of a block: another one, or none.
pub trait Rule {
    /// The bound of a block after the change, from the block and the bound before it.
    ghost changed: { Self → ℕ × ℕ → Option ℕ };

    /// The bound after the change.
    fn change(&self, entry: (u32, u32)) -> Option<u32>
        ensures { result ≡ changed self.now entry };
}

/// A bound below a limit grows by one, and a block whose bound comes to the ways has none.
#[derive(Drop)]
pub struct Grow {
    /// The limit.
    pub limit: u32,
    /// The number of ways.
    pub ways: u32,
}

impl Rule for Grow {
    ghost changed = { λ grow entry. grown grow.ways grow.limit entry };

    fn change(&self, entry: (u32, u32)) -> Option<u32> {
        let age = if entry.1 < self.limit {
            entry.1 + 1
        } else {
            entry.1
        };
        if age < self.ways { Some(age) } else { None }
    }
}

/// The bounds of all other blocks than the touched one grow.
#[derive(Drop)]
pub struct Touch {
    /// The touched block.
    pub block: u32,
    /// How the other blocks grow.
    pub others: Grow,
}

impl Rule for Touch {
    ghost changed = { λ touch entry. touched_entry touch.others.ways touch.block touch.others.limit entry };

    fn change(&self, entry: (u32, u32)) -> Option<u32> {
        if entry.0 == self.block {
            return Some(0);
        }
        self.others.change(entry)
    }
}

/// The greater bound, for blocks that have one in another state too.
#[derive(Drop)]
pub struct Join<'a> {
    /// The bounds of the other state.
    pub others: &'a [(u32, u32)],
}

impl<'a> Rule for Join<'a> {
    ghost changed = { λ join entry. topped_joined (always max) (Some entry.1) (value_at entry.0 join.others.now) };

    fn change(&self, entry: (u32, u32)) -> Option<u32> {
        let other = age_in(self.others, entry.0)?;
        Some(entry.1.max(other))
    }
}

/// Changes each bound in place. The blocks that keep one move up to the front, each at most once.
pub fn change_all<R: Rule>(rule: &R, ages: &mut Vec<(u32, u32)>)
    ensures { ages.new.items ≡ all_changed (R.changed rule.now) ages.old.items }
{
    let mut kept = 0;
    for place in 0..ages.len() {
        let entry = ages[place];
        let Some(age) = rule.change(entry) else {
            continue;
        };
        ages[kept] = (entry.0, age);
        kept += 1;
    }
    ages.truncate(kept);
}
