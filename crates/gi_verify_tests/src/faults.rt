//! Faults are alike where they are one kind and name one thing.

use gi_mir::operand::{Operand, Reg};
use gi_valid::Invalid;

#[test]
fn faults_are_told_apart(rt: HostRuntime) {
    let register = Invalid::NotAvailable(Operand::Use(Reg(3)));
    assert!(rt; register == Invalid::NotAvailable(Operand::Use(Reg(3))));
    assert!(rt; register != Invalid::NotAvailable(Operand::Use(Reg(4))));
    assert!(rt; register != Invalid::NotAvailable(Operand::Phys(3)));
    assert!(rt; register != Invalid::TypeMismatch(Reg(3)));
    assert!(rt; Invalid::PhiEntries != Invalid::Terminator);
}
