//! A solved table of states.

ghost use Rattle.std.specs.Prelude.{◌≡◌, ℕ, ◌<◌, length, Some, Option};
ghost use Rattle.fixpoint.specs.Values.{value_of, IsFull};

use std::marker::Model;

/// For each place of a net the state before it.
#[derive(Drop)]
pub struct Table<D> {
    /// The states by number of their places; none at 0.
    values: Vec<Option<D>>,
}

impl<D> Model for Table<D> {
    ghost use Rattle.std.specs.Prelude.{List, Option};
    ghost use Rattle.fixpoint.specs.Values.{IsFull};

    ghost Value = { List (Option D) };

    ghost view = { λ table. table.values.items };

    ghost invariant = { λ table. IsFull table.values.items };
}

impl<D> Table<D> {
    /// The table of states for all places.
    pub(crate) fn of(values: Vec<Option<D>>) -> Table<D>
        requires { IsFull values.items }
        ensures { result ≡ values.items }
    {
        Table { values }
    }

    /// The state before a place of the net that was solved. It takes no memory.
    pub fn at(&self, place: u32) -> &D
        requires from_one { 0 < place }
        requires inside { place < length self.now }
        ensures { value_of self.now place ≡ Some result.now }
    {
        match &self.values[place as usize] {
            Some(value) => value,
            None => unreachable!(),
        }
    }
}
