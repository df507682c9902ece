//! A certificate out of its text.

ghost use Rattle.std.specs.Prelude.{◌≡◌, ◌+◌, ◌<◌, ◌^◌, length, IfOk, IfErr};
ghost use Rattle.ipet_program.specs.declared.certificate.Certificate.{Certificate};
ghost use Rattle.cert_check.specs.Faults.{Gives, Refuses};
ghost use Rattle.cert_check.specs.Lines.{Fits};
ghost use Rattle.cert_check.specs.Texts.{certificate_text};

use crate::draft::Draft;
use crate::fault::CertFault;
use crate::lines::line_at;
use crate::order::{State, is_ended, next};
use ipet_program::Certificate;
use std::alloc::Global;

/// The certificate whose text this is. The number of its first line is `first_line`; `reached_line` is told by it.
pub fn read_certificate(
    alloc: Global,
    text: &[u8],
    first_line: u32,
) -> Result<Certificate, CertFault>
    requires { first_line + length text.now < 2 ^ 32 }
    // What is read has this text.
    ensures text { IfOk result (λ certificate. certificate_text certificate ≡ text.now) }
    ensures line { IfOk result (λ certificate. certificate.reached_line ≡ first_line + 1) }
    // The certificate that has this text is read, unless memory runs out.
    ensures again { (certificate : Certificate) → Fits certificate → text.now ≡ certificate_text certificate →
        Gives result certificate }
    // What is refused is no certificate's text, and the line is the first that none can have.
    ensures refused { IfErr result (Refuses text.now first_line) }
{
    let mut draft = Draft::new(alloc);
    let mut state = State::Begin;
    let mut rest = text;
    let mut number = first_line;
    while !is_ended(state) {
        let Some((line, behind)) = line_at(alloc, rest)? else {
            return Err(CertFault::Text { line: number });
        };
        let Some(later) = next(state, &line) else {
            return Err(CertFault::Text { line: number });
        };
        draft.add(line)?;
        state = later;
        rest = behind;
        number += 1;
    }
    if !rest.is_empty() {
        return Err(CertFault::Text { line: number });
    }
    Ok(Certificate {
        bound: draft.bound,
        reached: draft.reached,
        counts: draft.counts,
        tree: draft.tree,
        reached_line: first_line + 1,
    })
}
