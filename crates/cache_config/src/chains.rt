//! Which accesses go through which cache of a profile.

ghost use Rattle.std.specs.Prelude.{◌≡◌};
ghost use Rattle.cache_config.specs.Chains.{side_of};

use crate::profile::Profile;
use lru_concrete::Side;
use mips_decode::AccessKind;

/// The side of the caches that an access goes through; `None` for a store, which goes through none.
pub(crate) fn side_of(kind: AccessKind) -> Option<Side>
    ensures { result ≡ side_of kind }
{
    match kind {
        AccessKind::Fetch | AccessKind::Slot => Some(Side::Fetch),
        AccessKind::Load => Some(Side::Load),
        AccessKind::Store => None,
    }
}

impl Profile {
    ghost use Rattle.cache_config.specs.Chains.{in_chain};

    /// Whether accesses of a kind go through the cache of this number, in the profile's order from 0.
    ///
    /// `false` where there is no such cache, and for a store.
    pub fn in_chain(&self, cache: u32, kind: AccessKind) -> bool
        ensures { result ≡ in_chain self.now.levels cache kind }
    {
        let levels = self.levels.as_slice();
        match (levels.get(cache as usize), side_of(kind)) {
            (Some(level), Some(side)) => level.serves.serves(side),
            _ => false,
        }
    }
}
