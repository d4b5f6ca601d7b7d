//! Words against the table, and small functions built, read and changed.

use gi_llt::Llt;
use gi_mir::block::{Block, InstrId};
use gi_mir::formed::formed;
use gi_mir::function::Function;
use gi_mir::instr::Instr;
use gi_mir::module::Module;
use gi_mir::names::Names;
use gi_mir::opcode::Opcode;
use gi_mir::operand::{Flags, Kind, Operand, Reg};
use smallvec::SmallVec;
use std::alloc::Global;
use std::test::Fail;

fn needs<T: Send + Sync>() {}

#[test]
fn crosses_threads() {
    needs::<Function>();
    needs::<Module>();
}

#[test]
fn finds_words(rt: HostRuntime) {
    for (word, op) in [
        ("COPY", Opcode::Copy),
        ("PHI", Opcode::Phi),
        ("G_PHI", Opcode::GenericPhi),
        ("IMPLICIT_DEF", Opcode::ImplicitDef),
        ("PseudoCALL", Opcode::PseudoCall),
        ("ADJCALLSTACKUP", Opcode::AdjustCallStackUp),
        ("G_PTR_ADD", Opcode::GenericPointerAdd),
        ("G_SEXT_INREG", Opcode::GenericSignExtendInRegister),
        (
            "G_CTLZ_ZERO_UNDEF",
            Opcode::GenericCountLeadingZerosNotOfZero,
        ),
        ("MULHU", Opcode::MultiplyHighUnsigned),
        ("SRAIW", Opcode::ShiftRightArithmeticImmediateWord),
        ("BGEU", Opcode::BranchGreaterEqualUnsigned),
    ] {
        assert!(rt; Opcode::from_word(word) == Some(op));
        assert!(rt; op.word() == word);
    }
    for word in ["G_FADD", "copy"] {
        assert!(rt; Opcode::from_word(word).is_none());
    }
    assert!(rt; Opcode::GenericLoad.is_generic());
    assert!(rt; !Opcode::LoadWord.is_generic());
    assert!(rt; Opcode::PseudoReturn.is_terminator());
}

#[test]
fn numbers_names(rt: HostRuntime) -> Result<(), Fail> {
    let mut names = Names::new(rt.alloc());
    for (name, number) in [
        ("main", 0),
        ("f", 1),
        ("main", 0),
        ("", 2),
        ("f", 1),
        ("g", 3),
    ] {
        assert!(rt; names.count() < 100);
        let given = names.number(name).ok().ok_or("memory")?;
        assert!(rt; given == number);
        assert!(rt; names.name(given) == name);
    }
    assert!(rt; names.count() == 4);
    assert!(rt; names.name(4) == "");
    Ok(())
}

#[test]
fn names_apart(rt: HostRuntime) {
    Names::new(rt.alloc()).are_distinct();
}

/// Appends an instruction to the first block.
fn append(
    alloc: Global,
    function: &mut Function,
    op: Opcode,
    operands: &[Operand],
) -> Result<InstrId, Fail> {
    let instr = Instr {
        op,
        flags: Flags::default(),
        operands: SmallVec::from_slice(alloc, operands)?,
        mem: None,
        line: 1,
    };
    if function.block_count() == 0 || !formed(&instr) {
        return Err(Fail::from("not formed"));
    }
    match function.insert_before(0, None, instr) {
        Ok(id) => Ok(id),
        Err(_) => Err(Fail::from("memory")),
    }
}

/// A function of one block with these instructions, which are numbered from 0.
fn built(alloc: Global, rows: &[(Opcode, &[Operand])]) -> Result<Function, Fail> {
    let mut function = Function::new(alloc, 3);
    let block = Block {
        successors: Vec::new(alloc),
        liveins: [10, 11].to_vec(alloc)?,
    };
    if function.add_block(block).ok() != Some(0) {
        return Err(Fail::from("not the first block"));
    }
    for ((op, operands), number) in rows.iter().zip(0..) {
        let id = append(alloc, &mut function, *op, operands)?;
        if id != InstrId(number) {
            return Err(Fail::from("not numbered in order"));
        }
    }
    Ok(function)
}

const S32: Kind = Kind::Generic(Llt::Scalar(32));

/// `%0` and twice `%1` as constants.
fn constants(alloc: Global) -> Result<Function, Fail> {
    let zero = [Operand::Def(Reg(0), S32), Operand::Constant(32, 7)];
    let one = [Operand::Def(Reg(1), S32), Operand::Constant(32, 7)];
    let rows: [(Opcode, &[Operand]); 3] = [
        (Opcode::GenericConstant, &zero),
        (Opcode::GenericConstant, &one),
        (Opcode::GenericConstant, &one),
    ];
    built(alloc, &rows)
}

#[test]
fn has_instructions_in_order(rt: HostRuntime) -> Result<(), Fail> {
    let function = constants(rt.alloc())?;
    assert!(rt; function.block_count() == 1);
    assert!(rt; function.instrs(0).len() == 3);
    assert!(rt; function.first_in(0) == Some(InstrId(0)));
    assert!(rt; function.last_in(0) == Some(InstrId(2)));
    Ok(())
}

#[test]
fn has_neighbours(rt: HostRuntime) -> Result<(), Fail> {
    let function = constants(rt.alloc())?;
    assert!(rt; function.is_live(InstrId(1)));
    assert!(rt; function.following(InstrId(1)) == Some(InstrId(2)));
    assert!(rt; function.preceding(InstrId(1)) == Some(InstrId(0)));
    assert!(rt; function.block_of(InstrId(1)) == 0);
    Ok(())
}

#[test]
fn has_registers(rt: HostRuntime) -> Result<(), Fail> {
    let function = constants(rt.alloc())?;
    assert!(rt; function.next_reg() == 2);
    assert!(rt; function.def_of(Reg(1)) == Some(InstrId(1)));
    assert!(rt; function.kind_of(Reg(1)) == S32);
    assert!(rt; function.kind_of(Reg(5)) == Kind::Class);
    Ok(())
}

#[test]
fn erases_an_instruction(rt: HostRuntime) -> Result<(), Fail> {
    let mut function = constants(rt.alloc())?;
    assert!(rt; function.is_live(InstrId(1)));
    let erased = function.erase(InstrId(1));
    assert!(rt; erased.op == Opcode::GenericConstant);
    assert!(rt; !function.is_live(InstrId(1)));
    assert!(rt; function.def_of(Reg(1)) == Some(InstrId(2)));
    Ok(())
}

#[test]
fn sets_keys(rt: HostRuntime) {
    let mut function = Function::new(rt.alloc(), 3);
    function.set_keys(true, false, false);
    assert!(rt; function.keys() == (true, false, false));
}

/// `%0` as a constant, and two sums that use it.
fn sums(alloc: Global) -> Result<Function, Fail> {
    let constant = [Operand::Def(Reg(0), S32), Operand::Constant(32, 7)];
    let twice = [
        Operand::Def(Reg(1), S32),
        Operand::Use(Reg(0)),
        Operand::Use(Reg(0)),
    ];
    let last = [
        Operand::Def(Reg(2), S32),
        Operand::Use(Reg(0)),
        Operand::Use(Reg(1)),
    ];
    let rows: [(Opcode, &[Operand]); 3] = [
        (Opcode::GenericConstant, &constant),
        (Opcode::GenericAdd, &twice),
        (Opcode::GenericAdd, &last),
    ];
    built(alloc, &rows)
}

#[test]
fn keeps_uses(rt: HostRuntime) -> Result<(), Fail> {
    let mut function = sums(rt.alloc())?;
    let (first, twice, last) = (InstrId(0), InstrId(1), InstrId(2));
    assert!(rt; function.is_live(first) && function.is_live(last));
    assert!(rt; function.before(first, last));
    assert!(rt; !function.before(last, first));
    function.replace_reg(Reg(1), Reg(7)).ok().ok_or("memory")?;
    for (reg, users) in [
        (0, &[twice, last] as &[InstrId]),
        (1, &[]),
        (2, &[]),
        (7, &[last]),
    ] {
        assert!(rt; function.uses_of(Reg(reg)).eq(users.iter().copied()));
    }
    assert!(rt; function.next_reg() == 8);
    Ok(())
}
