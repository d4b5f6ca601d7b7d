//! Rewrites that are made at an instruction, and what is told of them.

ghost use Rattle.std.specs.Prelude.{◌≡◌, true, IfOk};
ghost use Rattle.gi_rule_use.specs.Making.{makes_formed, new_count};

use crate::built::{Row, S8, S32, Told, built, has_rows, needs, tells};
use gi_llt::Memory;
use gi_mir::block::InstrId;
use gi_mir::function::Function;
use gi_mir::opcode::Opcode;
use gi_mir::operand::Operand::{Constant, Def, Use as Read};
use gi_mir::operand::{Flags, Reg};
use gi_observe::{Editor, Journal, Pass};
use gi_rule_use::{Use, rewrite_at, rows_are_formed};
use gi_rule_values::widening_rows::widen_add;
use std::alloc::Global;
use std::test::Fail;

#[test]
fn crosses_threads() {
    needs::<Use>();
}

/// Two constants, and their sum.
const BEFORE: &[Row<'static>] = &[
    (
        Opcode::GenericConstant,
        &[Def(Reg(0), S8), Constant(8, 200)],
    ),
    (
        Opcode::GenericConstant,
        &[Def(Reg(1), S8), Constant(8, 100)],
    ),
    (
        Opcode::GenericAdd,
        &[Def(Reg(2), S8), Read(Reg(0)), Read(Reg(1))],
    ),
];

/// The sum at 32 bits, in new registers from 3 on.
const AFTER: &[Row<'static>] = &[
    (
        Opcode::GenericConstant,
        &[Def(Reg(0), S8), Constant(8, 200)],
    ),
    (
        Opcode::GenericConstant,
        &[Def(Reg(1), S8), Constant(8, 100)],
    ),
    (Opcode::GenericAnyExtend, &[Def(Reg(3), S32), Read(Reg(0))]),
    (Opcode::GenericAnyExtend, &[Def(Reg(4), S32), Read(Reg(1))]),
    (
        Opcode::GenericAdd,
        &[Def(Reg(5), S32), Read(Reg(3)), Read(Reg(4))],
    ),
    (Opcode::GenericTruncate, &[Def(Reg(2), S8), Read(Reg(5))]),
];

/// The sum is erased, and the others are created in its place.
const TOLD: &[Told<'static>] = &[
    Told::Erased(2, &[Def(Reg(2), S8), Read(Reg(0)), Read(Reg(1))]),
    Told::Created(3, &[Def(Reg(3), S32), Read(Reg(0))]),
    Told::Created(4, &[Def(Reg(4), S32), Read(Reg(1))]),
    Told::Created(5, &[Def(Reg(5), S32), Read(Reg(3)), Read(Reg(4))]),
    Told::Created(6, &[Def(Reg(2), S8), Read(Reg(5))]),
];

fn registers(alloc: Global, registers: &[Reg]) -> Result<Vec<Reg>, Memory>
    ensures { IfOk result (λ copied. copied.items ≡ registers.now) }
{
    Vec::from_slice(alloc, registers).map_err(|_| Memory)
}

/// The sum, widened.
fn widened(alloc: Global) -> Result<Use, Memory>
    ensures count { IfOk result (λ using. new_count using ≡ 3) }
    ensures formed { IfOk result (λ using. makes_formed using.rewrite ≡ true) }
{
    rows_are_formed();
    Ok(Use {
        rewrite: widen_add(alloc, Flags::default(), 8, 32)?,
        inputs: registers(alloc, &[Reg(0), Reg(1)])?,
        results: registers(alloc, &[Reg(2)])?,
    })
}

/// Widens the sum.
fn widen(alloc: Global, function: &mut Function, journal: &mut Journal) -> Result<(), Fail> {
    if !function.is_live(InstrId(2)) || function.next_reg() > 1000 {
        return Err(Fail::from("no sum"));
    }
    let using = match widened(alloc) {
        Ok(using) => using,
        Err(_) => return Err(Fail::from("memory")),
    };
    let mut edit = Editor::new(function, Pass::Legalizer, journal);
    match rewrite_at(&mut edit, InstrId(2), &using) {
        Ok(()) => Ok(()),
        Err(_) => Err(Fail::from("memory")),
    }
}

#[test]
fn sum_is_widened(rt: HostRuntime) -> Result<(), Fail> {
    let alloc = rt.alloc();
    let mut function = built(alloc, BEFORE)?;
    let mut journal = Journal::new(alloc);
    widen(alloc, &mut function, &mut journal)?;
    assert!(rt; has_rows(&function, AFTER));
    assert!(rt; tells(journal.changes.as_slice(), Pass::Legalizer, TOLD));
    Ok(())
}
