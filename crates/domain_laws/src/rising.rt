//! How the entries of a map rise by those of another one: by joins, or by widening.

ghost use Rattle.std.specs.Prelude.{◌≡◌, ℕ, ◌≤◌, length, take, not, Some, None, IfOk, OnOk, MatchOption};
ghost use Rattle.domain_laws.specs.Keys.{keyed_has};
ghost use Rattle.domain_laws.specs.Maps.{Rises, always, map_joined, map_leq, value_at};
ghost use Rattle.domain_laws.specs.Shapes.{HaveShape};

use crate::entries::value_in;
use crate::lattice::{Lattice, Widen};
use std::alloc::AllocError;

/// One of the two ways in which a value rises.
pub trait Rise<D: Lattice> {
    /// What a value rises to.
    ghost risen: { D → D → D };

    /// Raises a value by another one, and tells whether it grew.
    fn rise(&self, value: &mut D, newer: &D) -> Result<bool, AllocError>
        requires { HaveShape D.has value.old newer.now }
        ensures value { OnOk result (value.new ≡ risen value.old newer.now) }
        ensures grew { IfOk result (λ grew. grew ≡ not (D.leq value.new value.old)) };
}

/// The rise to the join.
pub struct ByJoin;

impl<D: Lattice> Rise<D> for ByJoin {
    ghost risen = { D.joined };

    fn rise(&self, value: &mut D, newer: &D) -> Result<bool, AllocError> {
        value.join(newer)
    }
}

/// The rise to the widened value.
pub struct ByWidening;

impl<D: Widen> Rise<D> for ByWidening {
    ghost risen = { D.widened };

    fn rise(&self, value: &mut D, newer: &D) -> Result<bool, AllocError> {
        value.widen(newer)
    }
}

/// Raises an entry by the value that its key has in another map, and tells whether it grew. Where the key isn't
/// there, it tells nothing.
fn rise_entry<D: Lattice, R: Rise<D>>(
    by: &R,
    entry: &mut (u32, D),
    newer: &[(u32, D)],
) -> Result<Option<bool>, AllocError>
    requires rising { Rises 0 newer.now }
    requires shaped { (y : D) → value_at entry.old.0 newer.now ≡ Some y → HaveShape D.has entry.old.1 y }
    ensures { IfOk result (λ met. MatchOption (value_at entry.old.0 newer.now) (met ≡ None)
        (λ y. (entry.new ≡ (entry.old.0, R.risen entry.old.1 y))
        × (met ≡ Some (not (D.leq entry.new.1 entry.old.1))))) }
{
    match value_in(newer, entry.0) {
        Some(value) => Ok(Some(by.rise(&mut entry.1, value)?)),
        None => Ok(None),
    }
}

/// Raises the entries by those of another map. It tells how many keys stay, and whether the map grew; their
/// entries then stand in front, and the others behind them.
fn rise_entries<D: Lattice, R: Rise<D>>(
    by: &R,
    entries: &mut [(u32, D)],
    newer: &[(u32, D)],
) -> Result<(usize, bool), AllocError>
    requires rising { Rises 0 newer.now }
    requires shaped { HaveShape (keyed_has D.has) entries.old newer.now }
    ensures kept { IfOk result (λ r. r.0 ≤ length entries.new) }
    ensures value { IfOk result (λ r. take r.0 entries.new ≡ map_joined (always R.risen) entries.old newer.now) }
    ensures rises { IfOk result (λ r. Rises 0 (take r.0 entries.new)) }
    ensures grew { IfOk result (λ r. r.1 ≡ not (map_leq D.leq (take r.0 entries.new) entries.old)) }
{
    let mut kept = 0;
    let mut grew = false;
    for place in 0..entries.len() {
        let Some(more) = rise_entry(by, &mut entries[place], newer)? else {
            grew = true;
            continue;
        };
        grew |= more;
        entries.swap(kept, place);
        kept += 1;
    }
    Ok((kept, grew))
}

/// Raises the entries of a map by those of another one, and tells whether the map grew. It takes a search in the other
/// map for each entry, and moves each entry at most once.
pub fn raised<D: Lattice, R: Rise<D>>(
    by: &R,
    mut entries: Vec<(u32, D)>,
    newer: &[(u32, D)],
) -> Result<(Vec<(u32, D)>, bool), AllocError>
    requires rising { Rises 0 newer.now }
    requires shaped { HaveShape (keyed_has D.has) entries.items newer.now }
    ensures value { IfOk result (λ r. r.0.items ≡ map_joined (always R.risen) entries.items newer.now) }
    ensures rises { IfOk result (λ r. Rises 0 r.0.items) }
    ensures grew { IfOk result (λ r. r.1 ≡ not (map_leq D.leq r.0.items entries.items)) }
{
    let (kept, grew) = rise_entries(by, &mut entries, newer)?;
    entries.truncate(kept);
    Ok((entries, grew))
}
