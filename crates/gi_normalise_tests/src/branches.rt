//! A table of two rows on generic branches.

ghost use Rattle.std.specs.Prelude.{◌≡◌, false, IfOk, IsTrue, None, Some, if◌then◌else◌};
ghost use Rattle.gi_mir.specs.Edit.{IsLive};
ghost use Rattle.gi_normalise.specs.Tables.{TellsAll};
ghost use Rattle.gi_normalise_tests.specs.Branches.{HasOwnIds, IsLike, branch_rows, branch_weight, jump_row, jump_to, next_row, target_at, target_of};
ghost use Rattle.gi_normalise_tests.specs.Sound.{branches-local, branches-sound};

use gi_llt::Memory;
use gi_mir::block::InstrId;
use gi_mir::function::Function;
use gi_mir::instr::Instr;
use gi_mir::opcode::Opcode;
use gi_mir::operand::{Flags, Operand};
use gi_normalise::{LocalTable, RuleTable};
use gi_observe::{ChangeObserver, Editor};
use smallvec::SmallVec;
use std::alloc::Global;

/// The block that a generic branch goes to.
fn target_of(instr: &Instr) -> Option<u32>
    ensures { result ≡ target_of instr.now }
{
    match instr.op {
        Opcode::GenericBranch => match instr.operands.as_slice() {
            [Operand::Block(block)] => Some(*block),
            _ => None,
        },
        _ => None,
    }
}

/// The block that the branch goes to, if a generic one stands here.
fn target_at(function: &Function, at: InstrId) -> Option<u32>
    requires { IsLive function.now at.0 }
    ensures { result ≡ target_at function.now at.0 }
{
    target_of(function.instr(at))
}

/// The machine's branch to a block.
fn jump_to(alloc: Global, block: u32, line: u32) -> Result<Instr, Memory>
    ensures { IfOk result (λ instr. instr ≡ jump_to block line) }
{
    let operands = SmallVec::from_slice(alloc, &[Operand::Block(block)]).map_err(|_| Memory)?;
    Ok(Instr {
        op: Opcode::PseudoBranch,
        flags: Flags::default(),
        operands,
        mem: None,
        line,
    })
}

/// Erases a generic branch to the next block.
fn erase_to_next<O: ChangeObserver>(edit: &mut Editor<'_, O>, at: InstrId) -> Result<bool, Memory>
    requires { IsLive edit.old.function.now at.0 }
    ensures same_function { edit.new.function.ghost_name ≡ edit.old.function.ghost_name }
    ensures same_observer { edit.new.observer.ghost_name ≡ edit.old.observer.ghost_name }
    ensures pass { edit.new.pass ≡ edit.old.pass }
    ensures row { IfOk result (λ fits. next_row edit.old.function.now at.0 ≡ (if fits then Some edit.new.function.now else None)) }
    ensures unchanged { IfOk result (λ fits. fits ≡ false → edit.new.function.now ≡ edit.old.function.now) }
    ensures tells_stays { O.tells edit.new.observer.now ≡ O.tells edit.old.observer.now }
    ensures told { IfOk result (λ fits. TellsAll edit.old.pass (O.tells edit.old.observer.now) (O.seen edit.old.observer.now) (O.seen edit.new.observer.now) edit.old.function.now edit.new.function.now) }
    ensures untold { IfOk result (λ fits. fits ≡ false → IsTrue (O.tells edit.old.observer.now) → O.seen edit.new.observer.now ≡ O.seen edit.old.observer.now) }
{
    let Some(target) = target_at(edit.function(), at) else {
        return Ok(false)
    };
    if u64::from(target) != u64::from(edit.function().block_of(at)) + 1 {
        return Ok(false);
    }
    edit.erase(at)?;
    Ok(true)
}

/// Makes a generic branch one of the machine.
fn make_jump<O: ChangeObserver>(
    alloc: Global,
    edit: &mut Editor<'_, O>,
    at: InstrId,
) -> Result<bool, Memory>
    requires { IsLive edit.old.function.now at.0 }
    ensures same_function { edit.new.function.ghost_name ≡ edit.old.function.ghost_name }
    ensures same_observer { edit.new.observer.ghost_name ≡ edit.old.observer.ghost_name }
    ensures pass { edit.new.pass ≡ edit.old.pass }
    ensures row { IfOk result (λ fits. jump_row edit.old.function.now at.0 ≡ (if fits then Some edit.new.function.now else None)) }
    ensures unchanged { IfOk result (λ fits. fits ≡ false → edit.new.function.now ≡ edit.old.function.now) }
    ensures tells_stays { O.tells edit.new.observer.now ≡ O.tells edit.old.observer.now }
    ensures told { IfOk result (λ fits. TellsAll edit.old.pass (O.tells edit.old.observer.now) (O.seen edit.old.observer.now) (O.seen edit.new.observer.now) edit.old.function.now edit.new.function.now) }
    ensures untold { IfOk result (λ fits. fits ≡ false → IsTrue (O.tells edit.old.observer.now) → O.seen edit.new.observer.now ≡ O.seen edit.old.observer.now) }
{
    let Some(target) = target_at(edit.function(), at) else {
        return Ok(false)
    };
    let jump = jump_to(alloc, target, edit.function().instr(at).line)?;
    let block = edit.function().block_of(at);
    let before = edit.function().following(at);
    edit.erase(at)?;
    edit.create(block, before, jump)?;
    Ok(true)
}

/// The table: a generic branch to the next block goes, and any other becomes a branch of the machine.
#[derive(Drop)]
pub struct Branches {
    pub alloc: Global,
}

impl RuleTable for Branches {
    ghost rows = { λ table. branch_rows };

    ghost is_fit = { λ table f. HasOwnIds f };

    ghost refines = { λ table f g. IsLike f g };

    ghost weight = { λ table f. branch_weight f };

    ghost sound = { λ table. branches-sound };

    fn apply_first<O: ChangeObserver>(
        &self,
        edit: &mut Editor<'_, O>,
        at: InstrId,
    ) -> Result<bool, Memory> {
        if erase_to_next(edit, at)? {
            return Ok(true);
        }
        make_jump(self.alloc, edit, at)
    }
}

impl LocalTable for Branches {
    ghost local = { λ table. branches-local };
}
