//! The target triple of IR blocks, by a table.

use gi_mir::module::Module;
use gi_mir::names::Names;
use gi_mir_read::triple;
use std::test::Fail;

#[test]
fn tells_the_triple(rt: HostRuntime) -> Result<(), Fail> {
    let alloc = rt.alloc();
    for (text, told) in [
        ("", None),
        (
            "; ModuleID = 'f.ll'\n  source_filename = \"f.ll\"\n  target triple = \"riscv32-unknown-elf\"\n  target triple = \"riscv64\"",
            Some((2, 18, 39)),
        ),
        ("target triple = 'riscv64'; here", Some((0, 16, 25))),
        ("target\ttriple=\"\"", Some((0, 14, 16))),
        ("target triple = riscv32", None),
        ("target triple = \"riscv32", None),
        ("target triple = \"riscv32\" x", None),
        ("target triple = \"riscv32\" ~", None),
        ("target datalayout = \"e\"\ntarget triple \"riscv32\"", None),
        ("; target triple = \"riscv32\"", None),
    ] {
        let mut lines = Vec::new(alloc);
        for line in text.split('\n') {
            lines.push(String::from_str(alloc, line)?)?;
        }
        let source = Module {
            ir: Some(lines),
            names: Names::new(alloc),
            functions: Vec::new(alloc),
        };
        let found = match triple(&source) {
            Some((place, token)) => Some((place, token.start, token.end)),
            None => None,
        };
        assert!(rt; found == told);
    }
    Ok(())
}
