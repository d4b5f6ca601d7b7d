//! Functions that are driven to their normal forms.

ghost use Rattle.std.specs.Prelude.{◌≡◌, ◌<◌};

use crate::branches::Branches;
use gi_llt::Memory;
use gi_mir::block::Block;
use gi_mir::formed::formed;
use gi_mir::function::Function;
use gi_mir::instr::Instr;
use gi_mir::opcode::Opcode;
use gi_mir::operand::{Flags, Operand};
use gi_normalise::{Steps, normalise_backwards, normalise_forwards};
use gi_observe::{ChangeKind, Journal, Pass};
use smallvec::SmallVec;
use std::alloc::Global;
use std::marker::Brand;
use std::sync::ledger::{Blank, Ledger};
use std::test::Fail;

/// Appends a block with generic branches to these blocks.
fn append(alloc: Global, function: &mut Function, targets: &[u32]) -> Result<(), Fail> {
    if function.block_count() > 8 {
        return Err(Fail::from("too many blocks"));
    }
    let head = Block {
        successors: Vec::new(alloc),
        liveins: Vec::new(alloc),
    };
    let Ok(block) = function.add_block(head) else {
        return Err(Fail::from("memory"))
    };
    for target in targets {
        branch(alloc, function, block, *target)?;
    }
    Ok(())
}

/// Appends a generic branch to a block.
fn branch(alloc: Global, function: &mut Function, block: u32, target: u32) -> Result<(), Fail> {
    let instr = Instr {
        op: Opcode::GenericBranch,
        flags: Flags::default(),
        operands: SmallVec::from_slice(alloc, &[Operand::Block(target)])?,
        mem: None,
        line: 1,
    };
    if block >= function.block_count() || !formed(&instr) {
        return Err(Fail::from("not formed"));
    }
    match function.insert_before(block, None, instr) {
        Ok(_) => Ok(()),
        Err(_) => Err(Fail::from("memory")),
    }
}

/// Three blocks: two branches, of which one goes to the next block; one branch; none.
fn built(alloc: Global) -> Result<Function, Fail> {
    let mut function = Function::new(alloc, 5);
    append(alloc, &mut function, &[2, 1])?;
    append(alloc, &mut function, &[0])?;
    append(alloc, &mut function, &[])?;
    Ok(function)
}

/// Whether a block has exactly the machine's branches to these blocks.
fn jumps_to(function: &Function, block: u32, targets: &[u32]) -> bool {
    if block >= function.block_count() {
        return false;
    }
    let instrs = function.instrs(block);
    instrs.len() == targets.len()
        && instrs.zip(targets).all(|(n, target)| n.instr.op == Opcode::PseudoBranch
            && n.instr.operands.as_slice() == [Operand::Block(*target)].as_slice())
}

/// The ids of instructions that were erased, in order.
fn erased(alloc: Global, journal: &Journal) -> Result<Vec<usize>, Fail> {
    let mut ids = Vec::new(alloc);
    for change in &journal.changes {
        if let ChangeKind::Erased { id, .. } = &change.kind {
            ids.push(id.0)?;
        }
    }
    Ok(ids)
}

/// Drives a function backwards, or else forwards.
fn drive<L: Ledger>(
    alloc: Global,
    backwards: bool,
    function: &mut Function,
    journal: &mut Journal,
    blank: Blank,
) -> Result<(), Memory>
    requires name { blank.name ≡ L.name }
    requires parts { blank.parts ≡ L.parts }
    requires some { 0 < blank.parts }
{
    let mut steps: Steps<L> = Steps::new(blank);
    function.own_ids();
    if backwards {
        normalise_backwards(
            &Branches { alloc },
            function,
            Pass::Select,
            journal,
            &mut steps,
        )
    } else {
        normalise_forwards(
            &Branches { alloc },
            function,
            Pass::Select,
            journal,
            &mut steps,
        )
    }
}

/// What is left, and what was erased in which order.
fn is_driven(alloc: Global, backwards: bool, order: &[usize]) -> Result<bool, Fail> {
    let mut function = built(alloc)?;
    let mut journal = Journal::new(alloc);
    if drive::<Brand>(alloc, backwards, &mut function, &mut journal, Blank::new(1)).is_err() {
        return Err(Fail::from("memory"));
    }
    let ids = erased(alloc, &journal)?;
    Ok(
        jumps_to(&function, 0, &[2])
            && jumps_to(&function, 1, &[0])
            && jumps_to(&function, 2, &[])
            && journal.changes.len() == 5
            && ids.as_slice() == order,
    )
}

#[test]
fn branches_are_driven(rt: HostRuntime) -> Result<(), Fail> {
    assert!(rt; is_driven(rt.alloc(), true, &[2, 1, 0])?);
    assert!(rt; is_driven(rt.alloc(), false, &[0, 1, 2])?);
    Ok(())
}
