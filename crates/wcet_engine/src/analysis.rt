//! The analysis of a file's bytes.

ghost use Rattle.std.specs.Prelude.{◌≡◌, ◌≤◌, length, IfOk, IfErr};
ghost use Rattle.std.specs.Bool.{OnFalse, OnTrue};

use crate::program::analyse_program;
use crate::refusal::{ConfigKind, Refusal, RefusalKind};
use cache_config::{ConfigFault, Profile};
use elf_mips::{ElfFault, Image, read_image};
use flow_net::Net;
use ipet_program::Certificate;
use mips_machine::clash_place;
use std::alloc::{AllocError, Global};
use unit_graph::CodeFault;

/// What the analysis of a file found.
#[derive(Debug, Drop)]
pub struct Analysis {
    /// The net of the program, along whose arcs its runs go.
    pub net: Net,
    /// The certificate of the cycles that the entry function takes at most.
    pub certificate: Certificate,
}

/// Why a file isn't analysed.
#[derive(Debug, Drop)]
pub enum Refused {
    /// The file's first fault.
    Fault(Refusal),
    /// No memory was left.
    Memory,
}

impl Refused {
    ghost use Rattle.wcet_engine.specs.Refusals.{at_number};

    /// A fault of this kind at this place.
    pub fn at(kind: RefusalKind, place: u32) -> Refused
        ensures { result ≡ Refused.Fault (at_number kind place) }
    {
        Refused::Fault(Refusal::at(kind, place))
    }
}

impl From<ElfFault> for Refused {
    ghost use Rattle.wcet_engine.specs.FileFaults.{refused_of};

    ghost from_gives = { λ fault e. e ≡ refused_of fault };

    fn from(fault: ElfFault) -> Refused {
        match fault {
            ElfFault::Bad { kind, offset } => Refused::at(RefusalKind::Elf(kind), offset),
            ElfFault::Memory => Refused::Memory,
        }
    }
}

impl From<ConfigFault> for Refused {
    ghost use Rattle.wcet_engine.specs.Faults.{refused_for};

    ghost from_gives = { λ fault e. e ≡ refused_for fault };

    fn from(fault: ConfigFault) -> Refused {
        match fault {
            ConfigFault::Text => Refused::at(RefusalKind::Config(ConfigKind::Text), 0),
            ConfigFault::Key { path } => {
                Refused::Fault(Refusal::at_key(RefusalKind::Config(ConfigKind::Key), path))
            }
            ConfigFault::Range { path } => {
                Refused::Fault(Refusal::at_key(RefusalKind::Config(ConfigKind::Range), path))
            }
            ConfigFault::Memory => Refused::Memory,
        }
    }
}

impl From<CodeFault> for Refused {
    ghost use Rattle.wcet_engine.specs.ProgramFaults.{refused_by};

    ghost from_gives = { λ fault e. e ≡ refused_by fault };

    fn from(fault: CodeFault) -> Refused {
        match fault {
            CodeFault::Bad { kind, address } => Refused::at(RefusalKind::Code(kind), address),
            CodeFault::Memory => Refused::Memory,
        }
    }
}

impl From<AllocError> for Refused {
    ghost use Rattle.wcet_engine.specs.declared.analysis.Refused.{Refused};

    ghost from_gives = { λ error e. e ≡ Refused.Memory };

    fn from(error: AllocError) -> Refused {
        Refused::Memory
    }
}

ghost use Rattle.wcet_engine.specs.FileFaults.{IsAnalysisFor, IsUnbuilt, TellsFaultOf, entry_of};
ghost use Rattle.wcet_engine.specs.Given.{file_limit};

/// Where a program is entered: at the first symbol of the name that the profile has, or else at the image's
/// own entry. `None` where no symbol has the name.
fn entry_of(image: &Image, profile: &Profile) -> Option<u32>
    ensures { result ≡ entry_of image.now profile.now }
{
    match &profile.entry {
        None => Some(image.entry),
        Some(name) => image.symbol(name.as_slice()),
    }
}

/// Whether the profile asks for what isn't built yet: it has the key `cache`.
fn is_unbuilt(profile: &Profile) -> bool
    ensures unbuilt { OnTrue result (IsUnbuilt profile.now) }
    ensures built { OnFalse result (IsUnbuilt profile.now → ⊥) }
{
    !profile.levels.as_slice().is_empty()
}

/// Analyses the bytes of an ELF file under a profile.
///
/// `Fault` is the file's first fault with its place: a kind from `Short` on.
pub fn analyse_bytes(alloc: Global, elf: &[u8], profile: &Profile) -> Result<Analysis, Refused>
    requires { length elf.now ≤ file_limit }
    ensures analysed { IfOk result (IsAnalysisFor elf.now profile.now) }
    ensures refused { IfErr result (TellsFaultOf elf.now profile.now) }
{
    let image = read_image(alloc, elf)?;
    let Some(entry) = entry_of(&image, profile) else {
        return Err(Refused::at(RefusalKind::NoSymbol, 0));
    };
    if let Some(place) = clash_place(&image, profile) {
        return Err(Refused::at(RefusalKind::RegionClash, place));
    }
    if is_unbuilt(profile) {
        return Err(Refused::at(RefusalKind::Unbuilt, 0));
    }
    analyse_program(alloc, &image, profile, entry)
}
