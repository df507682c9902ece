//! Lists of the numbers of the items with one key.

ghost use Rattle.std.specs.Prelude.{◌≡◌, ℕ, ◌+◌, ◌<◌, ◌≤◌, ◌^◌, [], ◌∷◌, ◌++◌, All, length, replicate, slice_get, Some, IfOk, OnOk, List, slice_set};
ghost use Rattle.net_tables.specs.Numbers.{AreNumbers};

use std::alloc::{AllocError, Global};
use wcet_io::List;

/// As many empty lists as asked for.
fn empty_lists(alloc: Global, count: usize) -> Result<Vec<List<u32>>, AllocError>
    ensures { IfOk result (λ lists. lists.items ≡ replicate count []) }
{
    let mut lists = Vec::with_capacity(alloc, count)?;
    for _index in 0..count {
        lists.push(List::new(alloc))?;
    }
    Ok(lists)
}

/// Adds a number to the list of a key.
fn add_number(lists: &mut Vec<List<u32>>, key: u32, number: u32) -> Result<(), AllocError>
    requires { key < length lists.old.items }
    ensures { OnOk result ((list : List ℕ) → slice_get lists.old.items key ≡ Some list →
        lists.new.items ≡ slice_set lists.old.items key (list ++ number ∷ [])) }
{
    lists[key as usize].push(number)?;
    Ok(())
}

/// For each key up to the greatest one, the numbers of the items with this key, rising. The numbers begin with 1.
///
/// One pass over the keys; a list grows by doubling its room.
pub fn number_lists(alloc: Global, most: u32, keys: &[u32]) -> Result<Vec<List<u32>>, AllocError>
    requires keys { All (λ key. key ≤ most) keys.now }
    requires few { length keys.now < 2 ^ 32 }
    ensures { IfOk result (λ lists. AreNumbers most keys.now lists.items) }
{
    let mut lists = empty_lists(alloc, most as usize + 1)?;
    for (index, key) in keys.iter().enumerate() {
        add_number(&mut lists, *key, index as u32 + 1)?;
    }
    Ok(lists)
}
