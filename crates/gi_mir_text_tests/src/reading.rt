//! Texts and what is read of them, by tables.

use gi_mir::function::Function;
use gi_mir::instr::Instr;
use gi_mir::instrs::Instrs;
use gi_mir::module::Module;
use gi_mir_read::read_mir;
use gi_text::TextError;
use std::alloc::{AllocError, Global};
use std::test::Fail;

/// An instruction, with its line.
fn shown_instr(alloc: Global, instr: &Instr) -> Result<String, AllocError> {
    let line = instr.line;
    let sign = if instr.flags.nsw { "nsw " } else { "" };
    let op = instr.op;
    let operands = instr.operands.as_slice();
    match instr.mem {
        Some(memory) => format!(in alloc; "{line} {sign}{op:?} {operands:?} {memory:?}\n"),
        None => format!(in alloc; "{line} {sign}{op:?} {operands:?}\n"),
    }
}

fn show_instrs(alloc: Global, all: &mut String, instrs: Instrs<'_>) -> Result<(), AllocError> {
    for numbered in instrs {
        let one = shown_instr(alloc, &numbered.instr)?;
        all.push_str(one.as_str())?;
    }
    Ok(())
}

/// The keys and the stack objects of a function, and its blocks: the registers live at the start of each, its
/// successors and its instructions.
fn show_function(alloc: Global, all: &mut String, function: &Function) -> Result<(), AllocError> {
    let keys = function.keys();
    let stack = function.stack();
    let beginning = format!(in alloc; "{keys:?} {stack:?}\n")?;
    all.push_str(beginning.as_str())?;
    for place in 0..function.block_count() {
        let liveins = function.block(place).liveins.as_slice();
        let successors = function.block(place).successors.as_slice();
        let head = format!(in alloc; "block {liveins:?} {successors:?}\n")?;
        all.push_str(head.as_str())?;
        show_instrs(alloc, all, function.instrs(place))?;
    }
    Ok(())
}

fn shown_module(alloc: Global, module: &Module) -> Result<String, AllocError> {
    let mut all = String::new(alloc);
    for function in &module.functions {
        all.push_str(module.names.name(function.name_number()))?;
        all.push_str(" ")?;
        show_function(alloc, &mut all, function)?;
    }
    Ok(all)
}

/// What a text is read as, or why it isn't read.
fn shown(alloc: Global, text: &str) -> Result<String, AllocError> {
    let bytes = text.as_bytes();
    if bytes.len() > 1000 {
        return String::from_str(alloc, "too long");
    }
    match read_mir(alloc, bytes) {
        Ok(module) => shown_module(alloc, &module),
        Err(error) => format!(in alloc; "{error:?}"),
    }
}

#[test]
fn reads_texts(rt: HostRuntime) -> Result<(), Fail> {
    for (text, wanted) in [
        ("", ""),
        (
            "---\nname: f\nbody: |\n  bb.0:\n    liveins: $x10\n\n    %0:_(s32) = COPY $x10\n    %1:_(s32) = G_AD",
            "Unknown { line: 8, start: 89, end: 93 }",
        ),
        (
            "---\nname: f\nbody: |\n  bb.0:\n    liveins: $x10\n\n    %0:_(s32) = COPY $x10\n    %1:_(s32) =",
            "Syntax { line: 8 }",
        ),
        (
            "# RUN: llc -mtriple=riscv32 -run-pass=legalizer %s -o - | FileCheck %s\n\n---\nname:            get\nalignment:       4\ntracksRegLiveness: true\nregisters:\n  - { id: 0, class: _, preferred-register: '', flags: [  ] }\n  - { id: 1, class: _, preferred-register: '' }\nliveins:         []\nframeInfo:\n  maxAlignment:    1\nfixedStack:      []\nstack:           []\nmachineFunctionInfo:\n  varArgsFrameIndex: 0\nbody:             |\n  bb.1.entry (%ir-block.0):\n    liveins: $x10\n\n    ; CHECK-LABEL: name: get\n    %0:_(p0) = COPY $x10\n    %1:_(s32) = G_LOAD %0(p0) :: (dereferenceable load (s32) from %ir.p + 4, align 4, !tbaa !2)\n    $x10 = COPY %1(s32)\n    PseudoRET implicit $x10\n...\n",
            "get (false, false, false) []\nblock [10] []\n22 Copy [Def(Reg(0), Generic(Pointer)), Phys(10)]\n23 GenericLoad [Def(Reg(1), Generic(Scalar(32))), Use(Reg(0))] MemOp { load: true, ty: Scalar(32), align: 4 }\n24 Copy [PhysDef(10), Use(Reg(1))]\n25 PseudoReturn [ImplicitUse(10)]\n",
        ),
        (
            "---\nname: f\nlegalized: true\nregisters:\n  - { id: 0, class: gprb }\nstack:\n  - { id: 0, size: 8,\n      alignment: 4 }\nbody: |\n  bb.3:\n    %0(s32) = G_CONSTANT i32 -1\n    %1:_(p0) = G_FRAME_INDEX %stack.0\n    %2:_(s32) = G_LOAD %1(p0) :: (load (s32), align 1)\n    G_BR %bb.7\n  bb.7:\n    PseudoRET\n...\n",
            "f (true, false, false) [StackObject { size: 8, align: 4 }]\nblock [] [1]\n11 GenericConstant [Def(Reg(0), Banked(Scalar(32))), Constant(32, 4294967295)]\n12 GenericFrameIndex [Def(Reg(1), Generic(Pointer)), Frame(0)]\n13 GenericLoad [Def(Reg(2), Generic(Scalar(32))), Use(Reg(1))] MemOp { load: true, ty: Scalar(32), align: 1 }\n14 GenericBranch [Block(1)]\nblock [] []\n16 PseudoReturn []\n",
        ),
        (
            "---\nname: f\nname: g\nbody: |\n  bb.0:\n    PseudoRET\n...\n",
            "Syntax { line: 3 }",
        ),
        (
            "---\nname: f\nbody: |\n  bb.0:\n    %0:_(s32) = COPY $x10\n    $x10 = COPY %0(s64)\n    PseudoRET\n...\n",
            "Syntax { line: 6 }",
        ),
        ("---\nname: f\n...\n", "Syntax { line: 3 }"),
        (
            "---\nname: f\nselected: maybe\nbody: |\n...\n",
            "Unknown { line: 3, start: 22, end: 27 }",
        ),
    ] {
        let found = shown(rt.alloc(), text)?;
        assert_eq!(rt; found.as_str(), wanted, "{text}");
    }
    Ok(())
}

/// What stands before the line of a case, up to line 14.
const HEAD: &str = "---
name: f
registers:
  - { id: 3, class: gpr }
  - { id: 5, class: _ }
stack:
  - { id: 0, size: 8, alignment: 4 }
body: |
  bb.1:
    liveins: $x10, $x11, $x12

    %0:_(s32) = COPY $x10
    %1:_(s32) = COPY $x11
    %4:_(p0) = COPY $x12
";

/// The last instruction of the first block.
fn shown_last(alloc: Global, module: &Module) -> Result<String, AllocError> {
    match module.functions.as_slice() {
        [function] if function.block_count() != 0 => match function.instrs(0).last() {
            Some(numbered) => shown_instr(alloc, &numbered.instr),
            None => Err(AllocError),
        },
        _ => Err(AllocError),
    }
}

/// What a line behind the head is read as, or what is wrong in it.
fn shown_line(alloc: Global, line: &str) -> Result<String, AllocError> {
    let text = format!(in alloc; "{HEAD}    {line}\n...\n")?;
    let bytes = text.as_bytes();
    if bytes.len() > 1000 {
        return String::from_str(alloc, "too long");
    }
    match read_mir(alloc, bytes) {
        Ok(module) => shown_last(alloc, &module),
        Err(TextError::Unknown { start, end, .. }) => {
            let word = text.as_str().get(start..end).unwrap_or("");
            format!(in alloc; "unknown {word}")
        }
        Err(error) => format!(in alloc; "{error:?}"),
    }
}

#[test]
fn reads_lines(rt: HostRuntime) -> Result<(), Fail> {
    for (line, wanted) in [
        (
            "%2:_(s32) = nsw G_ADD killed %0, %1(s32), debug-location !7 ; sum",
            "15 nsw GenericAdd [Def(Reg(2), Generic(Scalar(32))), Use(Reg(0)), Use(Reg(1))]\n",
        ),
        (
            "%5(s16), %6:_(s16) = G_UNMERGE_VALUES %0(s32)",
            "15 GenericUnmergeValues [Def(Reg(5), Generic(Scalar(16))), Def(Reg(6), Generic(Scalar(16))), Use(Reg(0))]\n",
        ),
        ("%5(p0), %6:gpr, $x10 = COPY $x11", "Syntax { line: 15 }"),
        (
            "%2:gprb(s1) = G_CONSTANT i1 true",
            "15 GenericConstant [Def(Reg(2), Banked(Scalar(1))), Constant(1, 1)]\n",
        ),
        (
            "PseudoCALL target-flags(riscv-call) &__divdi3, csr_ilp32_lp64, implicit-def $x1",
            "15 PseudoCall [Routine(Call, 1), SavedMask, ImplicitDef(1)]\n",
        ),
        ("%5(s32) = G_LOAD %ignored(p0)", "Syntax { line: 15 }"),
        (
            "%5(s32) = G_LOAD %4(p0) :: (volatile load (s32))",
            "unknown volatile",
        ),
        (
            "%3 = LW %4(p0), 0 :: (invariant load (s32) from %ir.p + 4, align 2, !tbaa !0)",
            "15 LoadWord [Def(Reg(3), Class), Use(Reg(4)), Int(0)] MemOp { load: true, ty: Scalar(32), align: 2 }\n",
        ),
        ("G_BR %bb.1(0x40000000)", "15 GenericBranch [Block(0)]\n"),
        (
            "%9:_(s1) = G_ICMP intpred(slt), %1, %0",
            "15 GenericCompare [Def(Reg(9), Generic(Scalar(1))), Predicate(Slt), Use(Reg(1)), Use(Reg(0))]\n",
        ),
        (
            "SW %0, %stack.0.slot, 4 :: (store (s32))",
            "15 StoreWord [Use(Reg(0)), Frame(0), Int(4)] MemOp { load: false, ty: Scalar(32), align: 4 }\n",
        ),
        ("SW %0, %stack.0.slot, @g", "Syntax { line: 15 }"),
        (
            "%3 = ADDI %4, target-flags(riscv-lo) @g",
            "15 AddImmediate [Def(Reg(3), Class), Use(Reg(4)), Global(Lo, 1)]\n",
        ),
        (
            "%5(p0) = G_GLOBAL_VALUE @g",
            "15 GenericGlobalValue [Def(Reg(5), Generic(Pointer)), Global(Plain, 1)]\n",
        ),
        ("SW %0, %stack.3.slot, 0", "Syntax { line: 15 }"),
        (
            "%3 = ADDI $x2, -1",
            "15 AddImmediate [Def(Reg(3), Class), Phys(2), Int(-1)]\n",
        ),
        ("%3 = ADDI $x2, -0", "Syntax { line: 15 }"),
        ("G_FOO %0", "unknown G_FOO"),
        ("%5(q8) = COPY $x10", "unknown q8"),
        ("%5 _(s32) = COPY $x10", "Syntax { line: 15 }"),
        ("%5(s32) = G_CONSTANT j32 5", "unknown j32"),
        ("$x10 = COPY %0,", "Syntax { line: 15 }"),
        (
            "$x10 = DBG_VALUE %0",
            "14 Copy [Def(Reg(4), Generic(Pointer)), Phys(12)]\n",
        ),
        ("$x10 = COPY ~", "Syntax { line: 15 }"),
    ] {
        let found = shown_line(rt.alloc(), line)?;
        assert_eq!(rt; found.as_str(), wanted, "{line}");
    }
    Ok(())
}
