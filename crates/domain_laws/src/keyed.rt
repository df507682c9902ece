//! Maps from numbers to states, of which a state of a whole is made of states of its parts.

ghost use Rattle.std.specs.Prelude.{◌≡◌, ℕ, [], ◌+◌, ◌*◌, ◌^◌, ◌≢◌, Some, OnOk, OnErr};
ghost use Rattle.std.specs.Option.{option_copied};
ghost use Rattle.domain_laws.specs.Keys.{keyed_has, keyed_lattice, keyed_ranked, keyed_widening};
ghost use Rattle.domain_laws.specs.Maps.{always, map_joined, map_leq, map_rank, value_at, with_value};

use crate::entries::{copy_entries, is_under, put_in, value_in};
use crate::lattice::{Height, Lattice, Widen};
use crate::rising::{ByJoin, ByWidening, raised};
use std::alloc::{AllocError, Global};
use std::marker::Model;
use std::mem;

/// An ordered map from numbers to states. A key that isn't there knows nothing, so that it is above every state.
#[derive(Debug, Drop)]
pub struct Keyed<D> {
    /// The keys that are there, by rising key, with their states.
    entries: Vec<(u32, D)>,
}

impl<D> Model for Keyed<D> {
    ghost use Rattle.std.specs.Prelude.{List, ℕ};
    ghost use Rattle.domain_laws.specs.Maps.{Rises};

    ghost Value = { List (ℕ × D) };

    ghost view = { λ map. map.entries.items };

    ghost invariant = { λ map. Rises 0 map.entries.items };
}

impl<D: Lattice> Keyed<D> {
    /// The map without keys, which is above every map. It takes no memory.
    pub fn new(alloc: Global) -> Keyed<D>
        ensures { result ≡ [] }
    {
        Keyed {
            entries: Vec::new(alloc),
        }
    }

    /// The state of a key. It takes no memory.
    pub fn get(&self, key: u32) -> Option<&D>
        ensures { option_copied result ≡ value_at key self.now }
    {
        value_in(&self.entries, key)
    }

    /// Gives the key this state. Every other key stays. Refused for want of memory, it changes nothing.
    pub fn set(&mut self, key: u32, value: D) -> Result<(), AllocError>
        ensures map { OnOk result (self.new ≡ with_value key value self.old) }
        ensures there { OnOk result (value_at key self.new ≡ Some value) }
        ensures others { OnOk result ((other : ℕ) → other ≢ key → value_at other self.new ≡ value_at other self.old) }
        ensures err { OnErr result (self.new ≡ self.old) }
    {
        put_in(&mut self.entries, key, value)
    }
}

impl<D: Lattice> Lattice for Keyed<D> {
    ghost has = { keyed_has D.has };

    ghost leq = { map_leq D.leq };

    ghost joined = { map_joined (always D.joined) };

    fn copy(&self) -> Result<Self, AllocError> {
        let entries = copy_entries(*self.entries.allocator(), &self.entries)?;
        Ok(Keyed { entries })
    }

    fn leq(&self, other: &Self) -> bool {
        is_under(&self.entries, &other.entries)
    }

    fn join(&mut self, other: &Self) -> Result<bool, AllocError> {
        let alloc = *self.entries.allocator();
        let entries = mem::replace(&mut self.entries, Vec::new(alloc));
        let (entries, grew) = raised(&ByJoin, entries, &other.entries)?;
        self.entries = entries;
        Ok(grew)
    }

    ghost lattice = { keyed_lattice D.lattice };
}

impl<D: Height> Height for Keyed<D> {
    ghost rank = { map_rank D.rank };

    ghost height = { D.height * 2 ^ 32 + 1 };

    ghost ranked = { keyed_ranked D.lattice D.ranked };
}

impl<D: Widen> Widen for Keyed<D> {
    ghost widened = { map_joined (always D.widened) };

    fn widen(&mut self, newer: &Self) -> Result<bool, AllocError> {
        let alloc = *self.entries.allocator();
        let entries = mem::replace(&mut self.entries, Vec::new(alloc));
        let (entries, grew) = raised(&ByWidening, entries, &newer.entries)?;
        self.entries = entries;
        Ok(grew)
    }

    ghost widening = { keyed_widening D.widening };
}
