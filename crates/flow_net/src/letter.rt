//! What is known of an access at the caches of its chain.

ghost use Rattle.std.specs.Prelude.{◌≡◌};
ghost use Rattle.flow_net.specs.Letters.{next_letter};

use wcet_io::List;

/// Whether an access arrives at a cache.
#[derive(Clone, Copy, Debug, PartialEq, Eq)]
pub enum Letter {
    /// Each time.
    Always,
    /// At no time.
    Never,
    /// Perhaps.
    Uncertain,
}

/// What the arrivals of an access at a cache find there.
#[derive(Clone, Copy, Debug, PartialEq, Eq)]
pub enum Class {
    /// Each arrival finds its block.
    Hit,
    /// No arrival finds its block.
    Miss,
    /// In each stay in the scope of this number at most one arrival misses.
    First(u32),
    /// Nothing is known.
    Unclassified,
}

/// What is known of an access at one cache.
#[derive(Clone, Copy, Debug, PartialEq, Eq)]
pub struct Level2 {
    pub letter: Letter,
    pub class: Class,
}

/// A row for each access, with an entry for each cache of its chain.
#[derive(Debug, Drop)]
pub struct ClassTable {
    pub rows: List<List<Level2>>,
}

/// The letter of an access at the next cache of its chain, from its letter and class at this one. At
/// the first cache the letter is `Always`. It takes no memory.
pub fn letter_after(letter: Letter, class: Class) -> Letter
    ensures { result ≡ next_letter letter class }
{
    match (letter, class) {
        (Letter::Never, _) | (_, Class::Hit) => Letter::Never,
        (Letter::Always, Class::Miss) => Letter::Always,
        _ => Letter::Uncertain,
    }
}
