//! The class table of a net.

ghost use Rattle.std.specs.Prelude.{◌≡◌, ℕ, IfOk, length, map};
ghost use Rattle.address_analysis.specs.Ranges.{in_range};
ghost use Rattle.age_model.specs.Classes.{HasLetters, HasRows, HoldsOfWalks};
ghost use Rattle.flow_net.specs.Nested.{IsNested};
ghost use Rattle.level_filter.specs.Unknown.{unknown_rows};

use crate::rows::{chain_length, unknown_row};
use address_analysis::Ranges;
use cache_config::Profile;
use flow_net::{ClassTable, Level2, Net};
use lru_concrete::Level;
use std::alloc::{AllocError, Global};
use wcet_io::List;

/// A row for each access, of which no more is known than that it goes to the first cache of its chain.
fn unknown_rows(
    alloc: Global,
    net: &Net,
    levels: &[Level],
) -> Result<List<List<Level2>>, AllocError>
    ensures { IfOk result (λ rows. rows ≡ unknown_rows levels.now net.now.accesses) }
{
    let mut rows = List::new(alloc);
    for access in net.accesses.as_slice() {
        rows.push(unknown_row(alloc, chain_length(levels, access.role))?)?;
    }
    Ok(rows)
}

/// The letters and classes of the accesses of a nested net, whose addresses lie in these ranges, at the caches of a
/// profile: a row for each access, with an entry for each cache of its chain in order. They hold of every run of the net,
/// from any lawful contents of the caches on, and of each front of it. As yet each class is `Unclassified`. It fails only
/// for want of memory.
pub fn classify(
    alloc: Global,
    net: &Net,
    ranges: &Ranges,
    profile: &Profile,
) -> Result<ClassTable, AllocError>
    requires nested { IsNested net.now }
    requires ranges { length ranges.now.rows ≡ length net.now.accesses }
    ensures rows { IfOk result (HasRows net.now profile.now.levels) }
    ensures letters { IfOk result HasLetters }
    ensures hold { IfOk result (HoldsOfWalks net.now profile.now.levels (in_range ranges.now)) }
{
    let rows = unknown_rows(alloc, net, profile.levels.as_slice())?;
    Ok(ClassTable { rows })
}
