//! How the bounds of all named blocks change in place.

ghost use Rattle.std.specs.Prelude.{◌≡◌, ℕ};
ghost use Rattle.age_model.specs.Ages.{grown_up_to};
ghost use Rattle.age_model.specs.Candidates.{AreCandidates, blocks_of};
ghost use Rattle.may_domain.specs.Changes.{all_changed, joined_entry};
ghost use Rattle.may_domain.specs.Touches.{doubted_entry, touched_entry};

use crate::state::age_in;
use age_model::Candidates;

/// What becomes of the bound of a named block.
pub trait Rule {
    /// The bound of a block after the change, from the block and the bound before it.
    ghost changed: { Self → ℕ × ℕ → ℕ };

    /// The bound after the change.
    fn change(&self, entry: (u32, u32)) -> u32
        ensures { result ≡ changed self.now entry };
}

/// A bound that is at most another one grows by one, up to the ways.
pub fn grown_up_to(ways: u32, age: u32, other: u32) -> u32
    ensures { result ≡ grown_up_to ways age other }
{
    if age > other {
        return age;
    }
    if age < ways { age + 1 } else { ways }
}

/// The bounds of all other blocks than the touched one grow.
#[derive(Drop)]
pub struct Touch {
    /// The touched block.
    pub block: u32,
    /// The bounds up to this one grow.
    pub limit: u32,
    /// The number of ways.
    pub ways: u32,
}

impl Rule for Touch {
    ghost changed = { λ touch entry. touched_entry touch.ways touch.block touch.limit entry };

    fn change(&self, entry: (u32, u32)) -> u32 {
        if entry.0 == self.block {
            return 0;
        }
        grown_up_to(self.ways, entry.1, self.limit)
    }
}

/// The bounds of the candidates become 0.
#[derive(Drop)]
pub struct Doubt {
    /// The candidates.
    pub candidates: Candidates,
    ghost are: { AreCandidates candidates },
}

impl Rule for Doubt {
    ghost changed = { λ doubt entry. doubted_entry (blocks_of doubt.candidates) entry };

    fn change(&self, entry: (u32, u32)) -> u32 {
        if self.candidates.holds(entry.0) {
            return 0;
        }
        entry.1
    }
}

/// The lesser bound, for blocks that are named in another state too.
#[derive(Drop)]
pub struct Join<'a> {
    /// The named blocks of the other state.
    pub others: &'a [(u32, u32)],
}

impl<'a> Rule for Join<'a> {
    ghost changed = { λ join entry. joined_entry join.others.now entry };

    fn change(&self, entry: (u32, u32)) -> u32 {
        match age_in(self.others, entry.0) {
            Some(other) => entry.1.min(other),
            None => entry.1,
        }
    }
}

/// Changes each bound in place.
pub fn change_all<R: Rule>(rule: &R, ages: &mut Vec<(u32, u32)>)
    ensures { ages.new.items ≡ all_changed (R.changed rule.now) ages.old.items }
{
    for place in 0..ages.len() {
        let entry = ages[place];
        ages[place] = (entry.0, rule.change(entry));
    }
}
