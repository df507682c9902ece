//! What is printed is read back. The two public contracts are enough for that, memory apart.

ghost use Rattle.std.specs.Prelude.{◌≡◌, ◌+◌, ◌<◌, ◌^◌, length, IfErr, IfOk};
ghost use Rattle.cert_check.specs.Faults.{IsSame};
ghost use Rattle.cert_check.specs.Texts.{certificate_text};
ghost use Rattle.cert_check.specs.declared.fault.CertFault.TheVariants.{Memory};

use super::RETURN;
use crate::{CertFault, print_certificate, read_certificate};
use ipet_program::Certificate;
use std::alloc::Global;
use std::test::Fail;

/// A certificate that is printed and read.
fn back(alloc: Global, certificate: &Certificate, first_line: u32) -> Result<Certificate, CertFault>
    requires { first_line + length (certificate_text certificate.now) < 2 ^ 32 }
    ensures same { IfOk result (λ read. IsSame read certificate.now) }
    ensures memory { IfErr result (λ e. e ≡ Memory) }
{
    let text = print_certificate(alloc, certificate)?;
    read_certificate(alloc, &text, first_line)
}

#[test]
fn reads_back(rt: HostRuntime) -> Result<(), Fail> {
    let alloc = rt.alloc();
    let Ok(first) = read_certificate(alloc, RETURN, 8) else {
        return Err("not read".into());
    };
    let Ok(certificate) = back(alloc, &first, 1) else {
        return Err("not read back".into());
    };
    assert_eq!(rt; certificate.bound, 22);
    assert_eq!(rt; certificate.reached, 22);
    assert_eq!(rt; certificate.reached_line, 2);
    for (count, column) in certificate.counts.as_slice().iter().zip([1, 2]) {
        assert_eq!(rt; count.column, column);
        assert_eq!(rt; count.number, 1);
    }
    assert_eq!(rt; certificate.counts.as_slice().len(), 2);
    assert_eq!(rt; certificate.tree.as_slice().len(), 1);
    Ok(())
}
