//! Functions as texts, and what is told of each: that it is valid, or its fault.

use gi_llt::Target;
use gi_mir::block::InstrId;
use gi_mir::function::Function;
use gi_mir::stage::Stage;
use gi_mir_read::read_mir;
use gi_verify::verify;
use std::alloc::{AllocError, Global};
use std::test::Fail;

/// What stands before the lines of a case, up to line 7.
const HEAD: &str = "---
name: f
body: |
  bb.0:
    liveins: $x10, $x11

    %0:_(s32) = COPY $x10
";

/// The function of a text, or `None` where it isn't read as one function.
fn function_of(alloc: Global, text: &str) -> Option<Function> {
    let bytes = text.as_bytes();
    if bytes.len() > 1000 {
        return None;
    }
    match read_mir(alloc, bytes) {
        Ok(module) => {
            let mut functions = module.functions;
            functions.pop()
        }
        Err(_) => None,
    }
}

/// What is told of a function.
fn told(alloc: Global, function: &Function) -> Result<String, AllocError> {
    let target = Target {
        xlen: 32,
        zbb: false,
    };
    let verdict = verify(alloc, function, target, Stage::Before);
    format!(in alloc; "{verdict:?}")
}

/// What is told of the function of a text.
fn told_text(alloc: Global, text: &str) -> Result<String, AllocError> {
    match function_of(alloc, text) {
        Some(function) => told(alloc, &function),
        None => String::from_str(alloc, "not read"),
    }
}

#[test]
fn tells_faults(rt: HostRuntime) -> Result<(), Fail> {
    for (lines, wanted) in [
        ("", "Ok(())"),
        (
            "\n    %1:_(s32) = G_ADD %0, %2\n",
            "Err(Invalid { line: 9, what: NotAvailable(Use(Reg(2))) })",
        ),
        (
            "    %0:_(s8) = G_CONSTANT i8 1\n    %1:_(s32) = G_ADD %0, %2\n",
            "Err(Invalid { line: 8, what: DoubleDefinition(Reg(0)) })",
        ),
        ("    %1:_(s8) = G_CONSTANT i8 1\n", "Ok(())"),
        (
            "    %1:_(s8) = G_CONSTANT i8 1\n    %2:_(s32) = G_ADD %0, %1\n",
            "Err(Invalid { line: 9, what: TypeMismatch(Reg(1)) })",
        ),
        (
            "    %1:_(s32) = G_CONSTANT i8 5\n",
            "Err(Invalid { line: 8, what: TypeMismatch(Reg(1)) })",
        ),
        (
            "    %1:_(p0) = G_CONSTANT i64 5\n",
            "Err(Invalid { line: 8, what: TypeMismatch(Reg(1)) })",
        ),
        ("    %1:_(p0) = G_CONSTANT i32 5\n", "Ok(())"),
        ("    %1:gpr = G_CONSTANT i8 5\n", "Ok(())"),
        ("    PseudoRET implicit $x10\n", "Ok(())"),
        (
            "    PseudoRET implicit $x10\n    PseudoRET implicit $x10\n",
            "Err(Invalid { line: 9, what: Terminator })",
        ),
        (
            "    G_BR %bb.4\n",
            "Err(Invalid { line: 8, what: UnknownBlock(65540) })",
        ),
        ("    $x12 = COPY %0\n", "Ok(())"),
        (
            "    $x12 = COPY %0\n    %1:_(s32) = COPY $x13\n",
            "Err(Invalid { line: 9, what: NotAvailable(Phys(13)) })",
        ),
        (
            "    %1:_(s32) = G_SDIV %0, %0\n    %2:_(s32) = COPY $x11\n",
            "Err(Invalid { line: 8, what: PhysicalAcross(11) })",
        ),
        (
            "    G_BR %bb.1\n  bb.1:\n    %2:_(s32) = G_PHI %0, %bb.0, %3, %bb.1\n    %3:_(s32) = G_ADD %2, %0\n    G_BR %bb.1\n",
            "Ok(())",
        ),
        (
            "    G_BR %bb.1\n  bb.1:\n    %2:_(s32) = G_PHI %0, %bb.0, %3, %bb.1\n    %3:_(s32) = G_ADD %2, %3\n    G_BR %bb.1\n",
            "Err(Invalid { line: 11, what: NotAvailable(Use(Reg(3))) })",
        ),
        (
            "    G_BR %bb.1\n  bb.1:\n    %2:_(s32) = G_PHI %0, %bb.0, %3, %bb.0\n    %3:_(s32) = G_ADD %2, %0\n    G_BR %bb.1\n",
            "Err(Invalid { line: 10, what: NotAvailable(Use(Reg(3))) })",
        ),
        (
            "    G_BR %bb.1\n  bb.1:\n    %2:_(s32) = G_PHI %0, %bb.1, %3, %bb.1\n    %3:_(s32) = G_ADD %2, %0\n    G_BR %bb.1\n",
            "Err(Invalid { line: 10, what: PhiEntries })",
        ),
    ] {
        let text = format!(in rt.alloc(); "{HEAD}{lines}...\n")?;
        let found = told_text(rt.alloc(), text.as_str())?;
        assert_eq!(rt; found.as_str(), wanted, "{lines}");
    }
    Ok(())
}

#[test]
fn tells_successors_that_are_not_there(rt: HostRuntime) -> Result<(), Fail> {
    let text = "---
name: f
body: |
  bb.0:
    successors: %bb.1
    liveins: $x10

    %0:_(s32) = COPY $x10
...
";
    let found = told_text(rt.alloc(), text)?;
    assert!(rt; found.as_str() == "Err(Invalid { line: 8, what: UnknownBlock(65537) })");
    Ok(())
}

/// Puts the second instruction last.
fn put_second_last(function: &mut Function) -> Result<(), Fail> {
    if !function.is_live(InstrId(1)) {
        return Err(Fail::from("not live"));
    }
    let second = function.erase(InstrId(1));
    if function.block_count() == 0 {
        return Err(Fail::from("no block"));
    }
    match function.insert_before(0, None, second) {
        Ok(_) => Ok(()),
        Err(_) => Err(Fail::from("memory")),
    }
}

/// Of two faults that of the lower line is told, also where it stands behind the other.
#[test]
fn tells_the_lowest_line(rt: HostRuntime) -> Result<(), Fail> {
    let text = "---
name: f
body: |
  bb.0:
    liveins: $x10

    %0:_(s32) = COPY $x10
    %0:_(s8) = G_CONSTANT i8 1
    %1:_(s32) = G_ADD %0, %2
...
";
    let mut function = function_of(rt.alloc(), text).ok_or("not read")?;
    put_second_last(&mut function)?;
    let found = told(rt.alloc(), &function)?;
    assert!(rt; found.as_str() == "Err(Invalid { line: 8, what: DoubleDefinition(Reg(0)) })");
    Ok(())
}
