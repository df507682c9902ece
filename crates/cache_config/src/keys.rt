//! The key table: what may stand at each key of a profile's text.

ghost use Rattle.std.specs.Prelude.{◌≡◌, map};
ghost use Rattle.cache_config.specs.Keys.{cache_tables, class_rows, profile_rows, region_tables};
ghost use Rattle.cache_config.specs.Rows.{row_of, tables_of};

use crate::limits::{
    AREA_ABOVE, LEAST_LINE, LEAST_STACK, MEMORY_END, MOST_BYTES, MOST_CACHES, MOST_CYCLES,
    MOST_LATENCY, MOST_LINE, MOST_REGIONS, MOST_SETS, MOST_SPLITS, MOST_STEPS, MOST_WAYS,
};

/// What may stand at a key.
#[derive(Clone, Copy)]
pub(crate) enum Kind {
    /// An integer from `least` to `most`.
    Number { least: u64, most: u64 },
    /// An integer from `least` to `most` that is a multiple of 8.
    Eights { least: u64, most: u64 },
    /// An integer from `least` to `most` that is a power of two.
    Power { least: u64, most: u64 },
    /// A text.
    Text,
    /// One of these words.
    OneOf { words: &'static [&'static str] },
    /// A table.
    Table,
    /// An array of at most this many elements.
    Array { most: usize },
}

/// What holds where a key isn't there.
#[derive(Clone, Copy)]
pub(crate) enum Absent {
    /// This number.
    Default(u64),
    /// This one of the key's words.
    Word(&'static str),
    /// Nothing: the profile has no such value.
    Nothing,
    /// A fault: the key has to be there.
    Required,
}

/// A row of the key table.
#[derive(Clone, Copy)]
pub(crate) struct Key {
    /// The key's name.
    pub(crate) name: &'static str,
    /// What may stand at it.
    pub(crate) kind: Kind,
    /// What holds without it.
    pub(crate) absent: Absent,
}

#[rattlefmt::skip]
pub(crate) const MEMORY: Key = Key {
    name: "memory", kind: Kind::Number { least: 0, most: MOST_CYCLES },
    absent: Absent::Default(10),
};

#[rattlefmt::skip]
pub(crate) const STORE: Key = Key {
    name: "store", kind: Kind::Number { least: 0, most: MOST_CYCLES },
    absent: Absent::Default(10),
};

#[rattlefmt::skip]
pub(crate) const SPLITS: Key = Key {
    name: "splits", kind: Kind::Number { least: 0, most: MOST_SPLITS },
    absent: Absent::Default(256),
};

#[rattlefmt::skip]
pub(crate) const STEPS: Key = Key {
    name: "steps", kind: Kind::Number { least: 1, most: MOST_STEPS },
    absent: Absent::Default(1_000_000),
};

#[rattlefmt::skip]
pub(crate) const STACK_TOP: Key = Key {
    name: "stack_top", kind: Kind::Eights { least: 0, most: MEMORY_END - AREA_ABOVE },
    absent: Absent::Default(0x7FFF_0000),
};

#[rattlefmt::skip]
pub(crate) const STACK_SIZE: Key = Key {
    name: "stack_size", kind: Kind::Eights { least: LEAST_STACK, most: MOST_BYTES },
    absent: Absent::Default(65_536),
};

#[rattlefmt::skip]
pub(crate) const GP: Key = Key {
    name: "gp", kind: Kind::Number { least: 0, most: 0xFFFF_FFFF },
    absent: Absent::Nothing,
};

#[rattlefmt::skip]
pub(crate) const ENTRY: Key = Key { name: "entry", kind: Kind::Text, absent: Absent::Nothing };

#[rattlefmt::skip]
pub(crate) const CYCLES: Key = Key { name: "cycles", kind: Kind::Table, absent: Absent::Nothing };

#[rattlefmt::skip]
pub(crate) const CACHE: Key = Key { name: "cache", kind: Kind::Array { most: MOST_CACHES }, absent: Absent::Nothing };

#[rattlefmt::skip]
pub(crate) const REGION: Key = Key {
    name: "region", kind: Kind::Array { most: MOST_REGIONS },
    absent: Absent::Nothing,
};

/// The keys of a profile, in the order of the rows.
static PROFILE: [Key; 11] = [
    MEMORY, STORE, SPLITS, STEPS, STACK_TOP, STACK_SIZE, GP, ENTRY, CYCLES, CACHE, REGION,
];

/// What may stand at the key of a class of instructions, and what holds without it.
const CLASS: Kind = Kind::Number {
    least: 1,
    most: MOST_CYCLES,
};

const ONE: Absent = Absent::Default(1);

#[rattlefmt::skip]
pub(crate) const ALU: Key = Key { name: "alu", kind: CLASS, absent: ONE };

#[rattlefmt::skip]
pub(crate) const SHIFT: Key = Key { name: "shift", kind: CLASS, absent: ONE };

#[rattlefmt::skip]
pub(crate) const MULT: Key = Key { name: "mult", kind: CLASS, absent: ONE };

#[rattlefmt::skip]
pub(crate) const DIV: Key = Key { name: "div", kind: CLASS, absent: ONE };

#[rattlefmt::skip]
pub(crate) const MOVE: Key = Key { name: "move", kind: CLASS, absent: ONE };

#[rattlefmt::skip]
pub(crate) const LOAD: Key = Key { name: "load", kind: CLASS, absent: ONE };

#[rattlefmt::skip]
pub(crate) const STORES: Key = Key { name: "store", kind: CLASS, absent: ONE };

#[rattlefmt::skip]
pub(crate) const BRANCH: Key = Key { name: "branch", kind: CLASS, absent: ONE };

#[rattlefmt::skip]
pub(crate) const JUMP: Key = Key { name: "jump", kind: CLASS, absent: ONE };

#[rattlefmt::skip]
pub(crate) const STOP: Key = Key { name: "stop", kind: CLASS, absent: ONE };

/// The keys of the table `cycles`.
static COSTS: [Key; 10] = [
    ALU, SHIFT, MULT, DIV, MOVE, LOAD, STORES, BRANCH, JUMP, STOP,
];

#[rattlefmt::skip]
pub(crate) const SERVES: Key = Key {
    name: "serves", kind: Kind::OneOf { words: &["fetch", "load", "both"] },
    absent: Absent::Required,
};

#[rattlefmt::skip]
pub(crate) const SETS: Key = Key {
    name: "sets", kind: Kind::Power { least: 1, most: MOST_SETS },
    absent: Absent::Required,
};

#[rattlefmt::skip]
pub(crate) const WAYS: Key = Key {
    name: "ways", kind: Kind::Number { least: 1, most: MOST_WAYS },
    absent: Absent::Required,
};

#[rattlefmt::skip]
pub(crate) const LINE: Key = Key {
    name: "line", kind: Kind::Power { least: LEAST_LINE, most: MOST_LINE },
    absent: Absent::Required,
};

#[rattlefmt::skip]
pub(crate) const LATENCY: Key = Key {
    name: "latency", kind: Kind::Number { least: 0, most: MOST_LATENCY },
    absent: Absent::Required,
};

/// The keys of each table in the array `cache`.
static CACHES: [Key; 5] = [SERVES, SETS, WAYS, LINE, LATENCY];

#[rattlefmt::skip]
pub(crate) const START: Key = Key {
    name: "start", kind: Kind::Number { least: 0, most: MEMORY_END - 1 },
    absent: Absent::Required,
};

#[rattlefmt::skip]
pub(crate) const SIZE: Key = Key {
    name: "size", kind: Kind::Number { least: 1, most: MOST_BYTES },
    absent: Absent::Required,
};

/// The keys of each table in the array `region`.
static REGIONS: [Key; 2] = [START, SIZE];

/// An array of tables at a key of a profile.
#[derive(Clone, Copy)]
pub(crate) struct Tables {
    /// The key's name.
    pub(crate) name: &'static str,
    /// How many tables it may have.
    pub(crate) most: usize,
    /// The keys of each table.
    pub(crate) keys: &'static [Key],
}

/// The keys of a profile.
pub(crate) fn profile_keys() -> &'static [Key]
    ensures { map row_of result.now ≡ profile_rows }
{
    &PROFILE
}

/// The keys of the table `cycles`.
pub(crate) fn class_keys() -> &'static [Key]
    ensures { map row_of result.now ≡ class_rows }
{
    &COSTS
}

/// The array `cache`.
pub(crate) fn cache_tables() -> Tables
    ensures { tables_of result ≡ cache_tables }
{
    Tables {
        name: CACHE.name,
        most: MOST_CACHES,
        keys: &CACHES,
    }
}

/// The array `region`.
pub(crate) fn region_tables() -> Tables
    ensures { tables_of result ≡ region_tables }
{
    Tables {
        name: REGION.name,
        most: MOST_REGIONS,
        keys: &REGIONS,
    }
}
