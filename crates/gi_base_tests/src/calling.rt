//! The registers of arguments, by LLVM's `llc` for riscv32.

use gi_cc::{CcError, assign};
use gi_llt::{Arg, Ext, Target};

const MACHINE: Target = Target {
    xlen: 32,
    zbb: false,
};

const BYTE: Arg = Arg {
    bits: 8,
    pointer: false,
    ext: Ext::Sign,
};

const LONG: Arg = Arg {
    bits: 64,
    pointer: false,
    ext: Ext::Any,
};

const POINTER: Arg = Arg {
    bits: 0,
    pointer: true,
    ext: Ext::Any,
};

#[test]
fn assigns_registers(rt: HostRuntime) {
    match assign(&[BYTE, LONG, POINTER], MACHINE) {
        Ok(plan) => {
            assert_eq!(rt; plan.count, 3);
            assert_eq!(rt; plan.first, [10, 11, 13, 0, 0, 0, 0, 0]);
            assert_eq!(rt; plan.words, [1, 2, 1, 0, 0, 0, 0, 0]);
        }
        Err(CcError::StackArgument(words)) => panic!(rt; "{words} words"),
    }
    match assign(&[LONG, LONG, LONG, LONG, BYTE], MACHINE) {
        Ok(_) => panic!(rt; "nine words in eight registers"),
        Err(CcError::StackArgument(words)) => assert_eq!(rt; words, 9),
    }
}
