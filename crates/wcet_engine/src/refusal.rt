//! Refusals: the kind of the first fault of the files, and where it is.

ghost use Rattle.std.specs.Prelude.{◌≡◌};

use elf_mips::ElfKind;
use unit_graph::CodeKind;
use wcet_io::List;

/// The kinds of faults of a profile's text, in the order in which they are looked for.
#[derive(Clone, Copy, Debug, PartialEq, Eq)]
pub enum ConfigKind {
    /// The text isn't UTF-8, or isn't TOML. The place is 0.
    Text,
    /// A key is unknown, or is missing. The place is the key's path.
    Key,
    /// A value is of another kind, or out of its limits. The place is the key's path.
    Range,
}

/// The kinds of refusals, in the order in which they are looked for.
#[derive(Clone, Copy, Debug, PartialEq, Eq)]
pub enum RefusalKind {
    /// A file has more bytes than its limit, 16,777,216. The place is the limit.
    TooLong,
    /// The profile's text has a fault. The place is 0 or a key's path.
    Config(ConfigKind),
    /// The ELF file can't be read. The place is an offset in the file, or its length.
    Elf(ElfKind),
    /// No symbol has the name of the profile's entry. The place is 0.
    NoSymbol,
    /// The stack or a region of the profile shares an address with a loaded segment. The place is the least such
    /// address.
    RegionClash,
    /// The profile has the key `cache`: caches aren't analysed yet. The place is 0.
    Unbuilt,
    /// The code that the program reaches has a fault. The place is an address.
    Code(CodeKind),
    /// The entry function never returns. The place is its entry.
    NeverReturns,
    /// There are more than 16,384 contexts or 65,536 places. The place is the entry.
    TooManyUnits,
    /// The crude bound is above 2^63 - 1. The place is the entry.
    BoundTooLarge,
}

/// Where a fault is.
#[derive(Debug, Drop)]
pub enum Spot {
    /// An offset in the file, an address or a limit.
    Number(u32),
    /// The printed path of a profile's key.
    Key(List<u8>),
}

/// The kind of a fault, and where it is.
#[derive(Debug, Drop)]
pub struct Refusal {
    pub kind: RefusalKind,
    pub spot: Spot,
}

impl Refusal {
    ghost use Rattle.wcet_engine.specs.Refusals.{at_key, at_number};

    /// A fault at the key of a path.
    pub fn at_key(kind: RefusalKind, path: List<u8>) -> Refusal
        ensures { result ≡ at_key kind path }
    {
        Refusal {
            kind,
            spot: Spot::Key(path),
        }
    }

    /// A fault at a place that is a number.
    pub fn at(kind: RefusalKind, place: u32) -> Refusal
        ensures { result ≡ at_number kind place }
    {
        Refusal {
            kind,
            spot: Spot::Number(place),
        }
    }
}

impl RefusalKind {
    ghost use Rattle.wcet_engine.specs.Refusals.{name_of};

    /// The name that a refusal line has.
    pub fn name(&self) -> &'static str
        ensures { result.now ≡ name_of self.now }
    {
        match self {
            RefusalKind::TooLong => "too-long",
            RefusalKind::Config(ConfigKind::Text) => "config-text",
            RefusalKind::Config(ConfigKind::Key) => "config-key",
            RefusalKind::Config(ConfigKind::Range) => "config-range",
            RefusalKind::Elf(ElfKind::Short) => "short",
            RefusalKind::Elf(ElfKind::NotElf) => "not-elf",
            RefusalKind::Elf(ElfKind::NotThisKind) => "not-this-kind",
            RefusalKind::Elf(ElfKind::BadTable) => "bad-table",
            RefusalKind::Elf(ElfKind::BadSegment) => "bad-segment",
            RefusalKind::Elf(ElfKind::BadSection) => "bad-section",
            RefusalKind::Elf(ElfKind::BadRecord) => "bad-record",
            RefusalKind::NoSymbol => "no-symbol",
            RefusalKind::RegionClash => "region-clash",
            RefusalKind::Unbuilt => "unbuilt",
            RefusalKind::Code(CodeKind::WritableCode) => "writable-code",
            RefusalKind::Code(CodeKind::UnknownWord) => "unknown-word",
            RefusalKind::Code(CodeKind::TransferInSlot) => "transfer-in-slot",
            RefusalKind::Code(CodeKind::UnknownTarget) => "unknown-target",
            RefusalKind::Code(CodeKind::LinkRegister) => "link-register",
            RefusalKind::Code(CodeKind::Recursion) => "recursion",
            RefusalKind::Code(CodeKind::Irreducible) => "irreducible",
            RefusalKind::Code(CodeKind::NoBound) => "no-bound",
            RefusalKind::NeverReturns => "never-returns",
            RefusalKind::TooManyUnits => "too-many-units",
            RefusalKind::BoundTooLarge => "bound-too-large",
        }
    }
}
