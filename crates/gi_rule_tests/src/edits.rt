//! Passes by their words, and what is told of edits.

use crate::built::{S32, Told, empty, instruction, needs, tells};
use gi_mir::block::InstrId;
use gi_mir::formed::formed;
use gi_mir::function::Function;
use gi_mir::opcode::Opcode;
use gi_mir::operand::Operand::{Def, Use};
use gi_mir::operand::{Operand, Reg};
use gi_observe::{Change, ChangeObserver, Editor, Journal, Pass, Silent};
use std::alloc::Global;
use std::test::Fail;

#[test]
fn passes_are_found_by_their_words(rt: HostRuntime) {
    for pass in [
        Pass::IrTranslator,
        Pass::PreCombiner,
        Pass::Legalizer,
        Pass::PostCombiner,
        Pass::RegBankSelect,
        Pass::Select,
    ] {
        assert!(rt; Pass::from_word(pass.word()) == Some(pass));
        assert!(rt; pass.next().place() >= pass.place());
    }
    assert!(rt; Pass::from_word("legaliser") == None);
}

#[test]
fn crosses_threads() {
    needs::<Change>();
    needs::<Journal>();
    needs::<Silent>();
}

const FIRST: &[Operand] = &[Def(Reg(0), S32), Use(Reg(7)), Use(Reg(8))];

const TWICE: &[Operand] = &[Def(Reg(1), S32), Use(Reg(0)), Use(Reg(0))];

const TWICE_AFTER: &[Operand] = &[Def(Reg(1), S32), Use(Reg(9)), Use(Reg(9))];

const LAST: &[Operand] = &[Def(Reg(2), S32), Use(Reg(1)), Use(Reg(0))];

const LAST_AFTER: &[Operand] = &[Def(Reg(2), S32), Use(Reg(1)), Use(Reg(9))];

/// Appends a sum to the first block.
fn create<O: ChangeObserver>(
    alloc: Global,
    edit: &mut Editor<'_, O>,
    operands: &[Operand],
) -> Result<(), Fail> {
    let instr = instruction(alloc, Opcode::GenericAdd, operands)?;
    if edit.function().block_count() == 0 || !formed(&instr) {
        return Err(Fail::from("not formed"));
    }
    match edit.create(0, None, instr) {
        Ok(_) => Ok(()),
        Err(_) => Err(Fail::from("memory")),
    }
}

fn erase<O: ChangeObserver>(edit: &mut Editor<'_, O>, id: InstrId) -> Result<(), Fail> {
    if !edit.function().is_live(id) {
        return Err(Fail::from("not live"));
    }
    match edit.erase(id) {
        Ok(()) => Ok(()),
        Err(_) => Err(Fail::from("memory")),
    }
}

/// Three sums, of which the last two use the first; then `%9` stands in its place, and it is erased.
fn edit_sums<O: ChangeObserver>(alloc: Global, observer: &mut O) -> Result<Function, Fail> {
    let mut function = empty(alloc)?;
    let mut edit = Editor::new(&mut function, Pass::Select, observer);
    for operands in [FIRST, TWICE, LAST] {
        create(alloc, &mut edit, operands)?;
    }
    edit.replace(Reg(0), Reg(9)).ok().ok_or("memory")?;
    erase(&mut edit, InstrId(0))?;
    Ok(function)
}

const TOLD: &[Told<'static>] = &[
    Told::Created(0, FIRST),
    Told::Created(1, TWICE),
    Told::Created(2, LAST),
    Told::Changed(1, TWICE, TWICE_AFTER),
    Told::Changed(2, LAST, LAST_AFTER),
    Told::Erased(0, FIRST),
];

#[test]
fn journals_have_each_change(rt: HostRuntime) -> Result<(), Fail> {
    let mut journal = Journal::new(rt.alloc());
    let function = edit_sums(rt.alloc(), &mut journal)?;
    assert!(rt; tells(journal.changes.as_slice(), Pass::Select, TOLD));
    assert!(rt; !function.is_live(InstrId(0)));
    assert!(rt; function.next_reg() == 10);
    Ok(())
}

#[test]
fn silence_changes_no_edit(rt: HostRuntime) -> Result<(), Fail> {
    let function = edit_sums(rt.alloc(), &mut Silent)?;
    assert!(rt;
        function
            .uses_of(Reg(9))
            .eq([InstrId(1), InstrId(2)].iter().copied())
    );
    Ok(())
}

#[test]
fn editors_give_new_registers(rt: HostRuntime) -> Result<(), Fail> {
    let mut function = edit_sums(rt.alloc(), &mut Silent)?;
    let mut silent = Silent;
    let mut edit = Editor::new(&mut function, Pass::Select, &mut silent);
    assert!(rt; edit.function().next_reg() == 10);
    assert!(rt; edit.new_reg() == Reg(10));
    Ok(())
}
