//! Texts that are read and printed, against what is written by hand.

use gi_mir::module::Module;
use gi_mir_print::{print, print_instr};
use gi_mir_read::read_mir;
use std::alloc::Global;
use std::test::Fail;

fn module_of(alloc: Global, text: &str) -> Result<Module, Fail> {
    let bytes = text.as_bytes();
    if bytes.len() > 1000 {
        return Err(Fail::from("too long"));
    }
    match read_mir(alloc, bytes) {
        Ok(module) => Ok(module),
        Err(_) => Err(Fail::from("not read")),
    }
}

#[test]
fn prints_a_module(rt: HostRuntime) -> Result<(), Fail> {
    let text = "---
name: f
legalized: true
stack:
  - { id: 0, size: 8, alignment: 4 }
body: |
  bb.3.entry:
    liveins: $x10, $x11
    %7:_(s32) = COPY $x10
    %3:_(s32) = COPY $x11
    %12:_(s32) = G_SHL %3, %7
    $x10 = COPY %12
    PseudoRET implicit $x10
...
";
    let wanted = b">---
name:            f
legalized:       true
tracksRegLiveness: true
stack:
  - { id: 0, size: 8, alignment: 4 }
body:             |
  bb.0:
    liveins: $x10, $x11

    %0:_(s32) = COPY $x10
    %1:_(s32) = COPY $x11
    %2:_(s32) = G_SHL %1, %0(s32)
    $x10 = COPY %2(s32)
    PseudoRET implicit $x10
...
";
    let module = module_of(rt.alloc(), text)?;
    let mut out = Vec::from_slice(rt.alloc(), b">")?;
    assert!(rt; print(&module, &mut out).is_ok());
    assert!(rt; out.as_slice() == wanted.as_slice());
    Ok(())
}

/// What stands before the line of a case.
const HEAD: &str = "---
name: f
stack:
  - { id: 0, size: 8, alignment: 4 }
body: |
  bb.0:
";

/// Prints the first instruction of a module. Answers whether there was one, and memory for it.
fn print_first(module: &Module, out: &mut Vec<u8>) -> bool {
    match module.functions.as_slice() {
        [function] if function.block_count() != 0 => match function.instrs(0).next() {
            Some(numbered) => print_instr(&numbered.instr, &module.names, out).is_ok(),
            None => false,
        },
        _ => false,
    }
}

#[test]
fn prints_lines(rt: HostRuntime) -> Result<(), Fail> {
    for (line, wanted) in [
        (
            "%4:_(s32) = nuw nsw G_ADD %9(s32), %9",
            "%4:_(s32) = nuw nsw G_ADD %9, %9",
        ),
        (
            "%4:_(s32) = G_CONSTANT i32 4294967291",
            "%4:_(s32) = G_CONSTANT i32 -5",
        ),
        (
            "%4:_(s32) = G_ICMP intpred(ult), %9(s32), %9",
            "%4:_(s32) = G_ICMP intpred(ult), %9, %9",
        ),
        (
            "%4:_(s32) = G_LOAD %9(p0) :: (dereferenceable load (s32) from %ir.p, align 2)",
            "%4:_(s32) = G_LOAD %9 :: (load (s32), align 2)",
        ),
        (
            "PseudoCALL target-flags(riscv-call) @g, csr_ilp32_lp64, implicit-def $x1",
            "PseudoCALL target-flags(riscv-call) @g, csr_ilp32_lp64, implicit-def $x1",
        ),
        (
            "%1:gpr = ADDI %stack.0.slot, -3",
            "%1:gpr = ADDI %stack.0, -3",
        ),
    ] {
        let text = format!(in rt.alloc(); "{HEAD}    {line}\n...\n")?;
        let module = module_of(rt.alloc(), text.as_str())?;
        let mut out = Vec::new(rt.alloc());
        assert!(rt; print_first(&module, &mut out), "{line}");
        assert!(rt; out.as_slice() == wanted.as_bytes(), "{line}");
    }
    Ok(())
}
