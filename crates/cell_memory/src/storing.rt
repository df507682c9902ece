//! Which words a store may change.

ghost use Rattle.cell_memory.specs.Stores.{kept_between, may_change, reaches, stays};
ghost use Rattle.std.specs.Prelude.{◌≡◌, ◌++◌, ◌∷◌, [], OnOk, if◌then◌else◌};

use crate::stretch::Stretch;
use std::alloc::AllocError;
use value_domain::Strided;

/// A store of some bytes at one of the held addresses, in stretches of memory that can be written.
#[derive(Clone, Copy)]
pub struct Store<'a> {
    /// The stretches.
    pub writable: &'a [Stretch],
    /// The addresses.
    pub address: Strided,
    /// How many bytes are stored.
    pub size: u32,
}

/// Whether a held address lies in the stretch with all its bytes and overlaps the word.
fn reaches(stretch: &Stretch, address: &Strided, size: u32, word: u32) -> bool
    ensures { result ≡ reaches stretch.now address.now size word }
{
    let (word, size) = (u64::from(word), u64::from(size));
    let from = (word + 1).saturating_sub(size);
    let to = (u64::from(stretch.last) + 2).saturating_sub(size);
    address.meets(u64::from(stretch.first).max(from), to.min(word + 4))
}

/// Whether the store may change the word.
pub fn may_change(store: &Store<'_>, word: u32) -> bool
    ensures { result ≡ may_change store.now.writable.now store.now.address store.now.size word }
{
    store.writable.iter().any(|stretch| reaches(stretch, &store.address, store.size, word))
}

/// Whether a word lies between two addresses and the store doesn't change it.
fn stays(store: &Store<'_>, low: u64, high: u64, word: u32) -> bool
    ensures { result ≡ stays store.now.writable.now store.now.address store.now.size low high word }
{
    let address = u64::from(word);
    low <= address && address < high && !may_change(store, word)
}

/// Puts a word behind a list, if it is to be kept.
fn push_if(
    keep: bool,
    word: (u32, Strided),
    left: &mut Vec<(u32, Strided)>,
) -> Result<(), AllocError>
    ensures { OnOk result (left.new.items ≡ left.old.items ++ (if keep then word ∷ [] else [])) }
{
    if keep {
        left.push(word)?;
    }
    Ok(())
}

/// Puts the words between two addresses that the store doesn't change behind a list.
pub fn push_kept(
    words: &[(u32, Strided)],
    store: &Store<'_>,
    low: u64,
    high: u64,
    left: &mut Vec<(u32, Strided)>,
) -> Result<(), AllocError>
    ensures { OnOk result (left.new.items
        ≡ left.old.items ++ kept_between store.now.writable.now store.now.address store.now.size low high words.now) }
{
    for word in words {
        let keep = stays(store, low, high, word.0);
        push_if(keep, *word, left)?;
    }
    Ok(())
}
