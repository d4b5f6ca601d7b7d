//! Sizes of a module of one function.

use gi_ir::function::IrFunction;
use gi_ir::module::IrModule;
use gi_ir::sizes::check_ir_sizes;
use gi_ir::types::{IrType, Layout};
use gi_llt::{Arg, Ext, Target};
use gi_mir::names::Names;
use gi_text::SizeError;
use std::test::Fail;

const NOTHING: Layout = Layout {
    size: 0,
    align: 1,
    widest: 0,
};

#[test]
fn finds_the_first_wide_argument(rt: HostRuntime) -> Result<(), Fail> {
    let alloc = rt.alloc();
    let mut args = Vec::new(alloc);
    for bits in [64u16, 65, 100] {
        args.push(Arg {
            bits,
            pointer: false,
            ext: Ext::Any,
        })?;
    }
    let mut types = Vec::new(alloc);
    types.push(IrType::Void)?;
    let mut layouts = Vec::new(alloc);
    layouts.push([NOTHING; 2])?;
    let mut functions = Vec::new(alloc);
    functions.push(IrFunction {
        name: 0,
        args,
        result: 0,
        result_ext: Ext::Any,
        blocks: Vec::new(alloc),
        line: 7,
    })?;
    let module = IrModule {
        lines: Vec::new(alloc),
        names: Names::new(alloc),
        triple: None,
        types,
        layouts,
        functions,
    };
    for (xlen, wanted) in [
        (32u16, Err(SizeError::Width { line: 7, bits: 65 })),
        (64, Ok(())),
    ] {
        assert!(rt; xlen == 32 || xlen == 64);
        let answer = check_ir_sizes(&module, Target { xlen, zbb: false });
        assert!(rt; answer == wanted);
    }
    Ok(())
}
