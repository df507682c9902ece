//! The certificate of a net.

ghost use Rattle.std.specs.Prelude.{◌≡◌, ◌≤◌, [], IfErr, IfOk};
ghost use Rattle.flow_net.specs.Nested.{IsNested};
ghost use Rattle.ipet_program.specs.Certificates.{IsValid};
ghost use Rattle.age_model.specs.Classes.{HasRows};
ghost use Rattle.ipet_program.specs.Programs.{IsCheckable, crude_limit};
ghost use Rattle.nest_solver.specs.Answers.{ShowsGreatest};
ghost use Rattle.nest_solver.specs.Nets.{IsProgramOfNet};
ghost use Rattle.nest_solver.specs.Tables.{IsFew};
ghost use Rattle.wcet_engine.specs.Certificates.{IsOneLeaf};
ghost use Rattle.wcet_engine.specs.FileFaults.{IsUnbuilt};
ghost use Rattle.wcet_engine.specs.Stages.{Certifies, IsNetOf, TellsTooLarge};

use crate::analysis::Refused;
use crate::refusal::RefusalKind;
use cache_config::Profile;
use elf_mips::Image;
use flow_net::{ClassTable, Net};
use ipet_program::{BuildFault, Certificate, Leaf, Node, Program, build, least_bound};
use nest_solver::{nest_bound, nest_counts};
use std::alloc::{AllocError, Global};
use wcet_io::List;

/// The bound that a leaf shows: the least one under which it is valid.
fn bound_of(alloc: Global, program: &Program, leaf: &Leaf) -> Result<u64, AllocError>
    requires checkable { IsCheckable program.now }
    requires shows { (shows : ShowsGreatest program.now leaf.now) × (shows.bound ≤ crude_limit) }
    ensures { IfOk result (λ bound. (shows : ShowsGreatest program.now leaf.now) → bound ≡ shows.bound) }
{
    let mut sums = vec![in alloc; 0i128; program.columns as usize]?;
    let Some(bound) = least_bound(program, &[], leaf, &mut sums) else {
        unreachable!();
    };
    Ok(bound)
}

/// The certificate of one leaf, which shows the greatest value, and of counts that have this value.
fn certificate_of(alloc: Global, program: &Program, net: &Net) -> Result<Certificate, AllocError>
    requires nested { IsNested net.now }
    requires few { IsFew net.now }
    requires program { IsProgramOfNet net.now program.now }
    requires checkable { IsCheckable program.now }
    ensures valid { IfOk result (IsValid program.now) }
    ensures reached { IfOk result (λ certificate. certificate.reached ≡ certificate.bound) }
    ensures tree { IfOk result (λ certificate. IsOneLeaf certificate.tree) }
    ensures line { IfOk result (λ certificate. certificate.reached_line ≡ 2) }
{
    let leaf = nest_bound(alloc, program, net)?;
    let counts = nest_counts(alloc, program, net)?;
    let bound = bound_of(alloc, program, &leaf)?;
    let mut tree = List::new(alloc);
    tree.push(Node::End(leaf))?;
    Ok(Certificate {
        bound,
        reached: bound,
        counts,
        tree,
        reached_line: 2,
    })
}

/// A class table with a row for each access of a net. Without caches each chain is empty, and so is each row.
fn unclassified(alloc: Global, net: &Net) -> Result<ClassTable, AllocError>
    ensures { IfOk result (HasRows net.now []) }
{
    let mut rows = List::new(alloc);
    for _access in net.accesses.as_slice() {
        rows.push(List::new(alloc))?;
    }
    Ok(ClassTable { rows })
}

/// The certificate of the program of a net, under a profile without caches.
///
/// `Fault` says that the crude bound is too large.
pub fn certify(
    alloc: Global,
    image: &Image,
    profile: &Profile,
    entry: u32,
    net: &Net,
) -> Result<Certificate, Refused>
    requires net { IsNetOf image.now entry net.now }
    requires built { IsUnbuilt profile.now → ⊥ }
    ensures certifies { IfOk result (Certifies image.now profile.now net.now) }
    ensures large { IfErr result (TellsTooLarge image.now profile.now entry) }
{
    let classes = unclassified(alloc, net)?;
    match build(alloc, net, &classes, profile, image) {
        Ok(program) => Ok(certificate_of(alloc, &program, net)?),
        Err(BuildFault::TooLarge { .. }) => Err(Refused::at(RefusalKind::BoundTooLarge, entry)),
        Err(BuildFault::Memory) => Err(Refused::Memory),
    }
}
