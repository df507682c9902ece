//! The check of a certificate.

ghost use Rattle.std.specs.Prelude.{◌≡◌, ℕ, ◌+◌, ◌<◌, ◌^◌, ◌≤ℤ◌, IfErr, OnErr, OnOk, length, pos};
ghost use Rattle.ipet_program.specs.Certificates.{IsValid};
ghost use Rattle.ipet_program.specs.Counts.{IsFeasible, value_of};
ghost use Rattle.ipet_program.specs.Programs.{IsCheckable};
ghost use Rattle.cert_check.specs.Rejects.{IsReject, line_of, reason_of};
ghost use Rattle.cert_check.specs.Walks.{HasRoom};

use crate::reject::{Reason, Reject};
use crate::scratch::Scratch;
use crate::walking::first_fault;
use ipet_program::{Certificate, LeafFault, Program, are_counts};

/// The reason of a rule that a node breaks.
fn reason_of(fault: LeafFault) -> Reason
    ensures { result ≡ reason_of fault }
{
    match fault {
        LeafFault::Tree => Reason::Tree,
        LeafFault::Wide => Reason::Wide,
        LeafFault::Dual => Reason::Dual,
    }
}

/// The line of a node.
fn line_of(certificate: &Certificate, place: usize) -> u32
    requires { line_of certificate.now place < 2 ^ 32 }
    ensures { result ≡ line_of certificate.now place }
{
    let counts = certificate.counts.as_slice().len() as u32;
    certificate.reached_line + 1 + counts + place as u32
}

/// Checks a certificate for a program. Else it tells the first reason of counts, tree, wide and dual that holds anywhere,
/// with the least line where it holds. It takes no memory.
pub fn check(
    program: &Program,
    certificate: &Certificate,
    scratch: &mut Scratch,
) -> Result<(), Reject>
    requires checkable { IsCheckable program.now }
    requires lines { line_of certificate.now (length certificate.now.tree) < 2 ^ 32 }
    requires room { HasRoom program.now certificate.now scratch.old }
    ensures valid { OnOk result (IsValid program.now certificate.now) }
    ensures bounds { OnOk result ((counts : ℕ → ℕ) → IsFeasible program.now counts →
        value_of program.now counts ≤ℤ pos certificate.now.bound) }
    ensures invalid { OnErr result (IsValid program.now certificate.now → ⊥) }
    ensures rejected { IfErr result (IsReject program.now certificate.now) }
{
    if !are_counts(program, certificate.counts.as_slice(), certificate.reached) {
        return Err(Reject {
            reason: Reason::Counts,
            line: certificate.reached_line,
        });
    }
    scratch.cuts.clear();
    let tree = certificate.tree.as_slice();
    match first_fault(program, certificate.bound, tree, scratch) {
        None => Ok(()),
        Some((fault, place)) => Err(Reject {
            reason: reason_of(fault),
            line: line_of(certificate, place),
        }),
    }
}
