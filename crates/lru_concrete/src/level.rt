//! The caches that a machine has: their sizes, what they serve, and what a visit costs.

ghost use Rattle.std.specs.Prelude.{◌≡◌, ◌+◌, ◌*◌, ◌<◌, ◌≤◌, true};
ghost use Rattle.std.specs.Int.{is_power_of_two};
ghost use Rattle.lru_concrete.specs.Limits.{least_line, most_latency, most_line, most_sets, most_ways};

/// The size of a cache.
#[derive(Clone, Copy, Debug)]
pub struct Shape {
    /// The number of sets, at most 1,024 and a power of two.
    pub sets: u32,
    /// How many blocks each set holds, 1 to 16.
    pub ways: u32,
    /// The bytes of a block, 4 to 256 and a power of two.
    pub line: u32,
    pub ghost sets_some: { 1 ≤ sets },
    pub ghost sets_limit: { sets ≤ most_sets },
    pub ghost sets_power: { is_power_of_two sets ≡ true },
    pub ghost ways_some: { 1 ≤ ways },
    pub ghost ways_limit: { ways ≤ most_ways },
    pub ghost line_some: { least_line ≤ line },
    pub ghost line_limit: { line ≤ most_line },
    pub ghost line_power: { is_power_of_two line ≡ true },
}

impl Shape {
    /// The number of ways of all sets: the slots for blocks.
    pub(crate) fn slots(self) -> u32
        ensures count { result ≡ self.sets * self.ways }
        ensures limit { result ≤ most_sets * most_ways }
    {
        self.sets * self.ways
    }

    /// The first slot of a set.
    pub(crate) fn first_slot(self, set: u32) -> u32
        requires { set < self.sets }
        ensures first { result ≡ set * self.ways }
        ensures within { result + self.ways ≤ self.sets * self.ways }
        ensures limit { result + self.ways ≤ most_sets * most_ways }
    {
        set * self.ways
    }
}

/// What an access reads.
#[derive(Clone, Copy, Debug, PartialEq, Eq)]
pub enum Side {
    /// An instruction.
    Fetch,
    /// Data.
    Load,
}

/// Which accesses go through a cache.
#[derive(Clone, Copy, Debug, PartialEq, Eq)]
pub enum Serves {
    /// Those of instructions.
    Fetch,
    /// Those of data.
    Load,
    /// All of them.
    Both,
}

impl Serves {
    ghost use Rattle.lru_concrete.specs.Chains.{serves};

    /// Whether accesses of this side go through the cache.
    pub fn serves(self, side: Side) -> bool
        ensures { result ≡ serves self side }
    {
        match (self, side) {
            (Serves::Both, _) | (Serves::Fetch, Side::Fetch) | (Serves::Load, Side::Load) => true,
            (Serves::Fetch, Side::Load) | (Serves::Load, Side::Fetch) => false,
        }
    }
}

/// A cache of a machine.
#[derive(Clone, Copy, Debug)]
pub struct Level {
    pub shape: Shape,
    pub serves: Serves,
    /// The cycles of a visit, at most 1,000,000.
    pub latency: u64,
    pub ghost latency_limit: { latency ≤ most_latency },
}
