//! The row of an access at whose caches only the letters are known.

ghost use Rattle.std.specs.Prelude.{◌≡◌, IfOk, length};
ghost use Rattle.cache_config.specs.Chains.{side_of};
ghost use Rattle.age_model.specs.Classes.{chain_length};
ghost use Rattle.flow_net.specs.declared.letter.Letter.TheVariants.{Always};
ghost use Rattle.level_filter.specs.Unknown.{unknown_from};
ghost use Rattle.lru_concrete.specs.Chains.{chain};
ghost use Rattle.net_model.specs.Accesses.{kind_of};

use flow_net::{Class, Letter, Level2, Role, letter_after};
use lru_concrete::{Level, Side};
use std::alloc::{AllocError, Global};
use wcet_io::List;

/// How many of the caches serve a side.
fn serving(levels: &[Level], side: Side) -> usize
    ensures { result ≡ length (chain side levels.now) }
{
    let mut count = 0;
    for level in levels {
        if level.serves.serves(side) {
            count += 1;
        }
    }
    count
}

/// How many caches an access of a role goes through.
pub fn chain_length(levels: &[Level], role: Role) -> usize
    ensures { result ≡ chain_length levels.now (side_of (kind_of role)) }
{
    match role {
        Role::Fetch | Role::Slot => serving(levels, Side::Fetch),
        Role::Load => serving(levels, Side::Load),
        Role::Store => 0,
    }
}

/// The row of an access that goes through so many caches, of which no more is known than that it goes to the first one.
pub fn unknown_row(alloc: Global, caches: usize) -> Result<List<Level2>, AllocError>
    ensures { IfOk result (λ row. row ≡ unknown_from Always caches) }
{
    let mut row = List::new(alloc);
    let mut letter = Letter::Always;
    for _ in 0..caches {
        row.push(Level2 {
            letter,
            class: Class::Unclassified,
        })?;
        letter = letter_after(letter, Class::Unclassified);
    }
    Ok(row)
}
