//! The successors of a block.

ghost use Rattle.std.specs.Prelude.{◌≡◌, ◌<◌, not, fold, map, IfOk, OnOk};
ghost use Rattle.gi_mir.specs.Row.{is_branch_op, is_unconditional_op};
ghost use Rattle.gi_spelling.specs.Printed.{with_place};
ghost use Rattle.gi_spelling.specs.Resolved.{block_place};
ghost use Rattle.gi_mir_read.specs.Functions.Implied.{implied_by, runs_past, with_branch, with_target};

use crate::list::push;
use gi_llt::Memory;
use gi_mir::instr::Instr;
use gi_mir::opcode::Opcode;
use gi_mir::operand::Operand;
use gi_resolve::tables::Tables;
use indexmap::IndexSet;
use std::alloc::Global;

/// The places of the blocks of these numbers.
pub(crate) fn stated_successors(
    alloc: Global,
    tables: &Tables,
    numbers: &[u32],
) -> Result<Vec<u32>, Memory>
    ensures { IfOk result (λ places. places.items ≡ map (block_place tables.now.blocks) numbers.now) }
{
    let mut places = Vec::new(alloc);
    for number in numbers {
        push(&mut places, tables.place(*number))?;
    }
    Ok(places)
}

/// Adds a block, unless it is there.
fn add(places: &mut IndexSet<u32>, place: u32) -> Result<(), Memory>
    ensures { OnOk result (places.new.keys ≡ with_place places.old.keys place) }
{
    match places.insert(place) {
        Ok(_) => Ok(()),
        Err(_) => Err(Memory),
    }
}

/// Adds the block that an operand names.
fn add_target(places: &mut IndexSet<u32>, operand: Operand) -> Result<(), Memory>
    ensures { OnOk result (places.new.keys ≡ with_target places.old.keys operand) }
{
    match operand {
        Operand::Block(place) => add(places, place),
        _ => Ok(()),
    }
}

/// Adds the blocks that operands name.
fn add_targets(places: &mut IndexSet<u32>, operands: &[Operand]) -> Result<(), Memory>
    ensures { OnOk result (places.new.keys ≡ fold with_target places.old.keys operands.now) }
{
    for operand in operands {
        add_target(places, *operand)?;
    }
    Ok(())
}

/// Whether an opcode goes to the blocks among its operands.
fn is_branch(op: Opcode) -> bool
    ensures { result ≡ is_branch_op op }
{
    matches!(
        op,
        Opcode::GenericBranch
            | Opcode::GenericBranchConditional
            | Opcode::BranchEqual
            | Opcode::BranchNotEqual
            | Opcode::BranchLess
            | Opcode::BranchGreaterEqual
            | Opcode::BranchLessUnsigned
            | Opcode::BranchGreaterEqualUnsigned
            | Opcode::PseudoBranch
    )
}

/// Adds the blocks that an instruction goes to.
fn add_branch(places: &mut IndexSet<u32>, instr: &Instr) -> Result<(), Memory>
    ensures { OnOk result (places.new.keys ≡ with_branch places.old.keys instr.now) }
{
    if is_branch(instr.op) {
        add_targets(places, instr.operands.as_slice())?;
    }
    Ok(())
}

/// Adds the blocks that instructions go to.
fn add_branches(places: &mut IndexSet<u32>, instrs: &[Instr]) -> Result<(), Memory>
    ensures { OnOk result (places.new.keys ≡ fold with_branch places.old.keys instrs.now) }
{
    for instr in instrs {
        add_branch(places, instr)?;
    }
    Ok(())
}

/// Whether what follows an instruction may run after it.
fn goes_on(instr: &Instr) -> bool
    ensures { result ≡ not (is_unconditional_op (instr.now).op) }
{
    !instr.op.is_unconditional()
}

/// Whether control may go past the end of the instructions.
fn runs_past(instrs: &[Instr]) -> bool
    ensures { result ≡ runs_past instrs.now }
{
    match instrs {
        [] => true,
        [.., last] => goes_on(last),
    }
}

/// The successors that the instructions of the block at a place imply, of so many blocks.
pub(crate) fn implied_successors(
    alloc: Global,
    place: u32,
    count: u32,
    instrs: &[Instr],
) -> Result<Vec<u32>, Memory>
    requires { place < count }
    ensures { IfOk result (λ places. places.items ≡ implied_by place count instrs.now) }
{
    let mut places = IndexSet::new(alloc);
    add_branches(&mut places, instrs)?;
    let next = place + 1;
    if runs_past(instrs) && next != count {
        add(&mut places, next)?;
    }
    let mut found = Vec::new(alloc);
    for place in places.as_slice() {
        push(&mut found, *place)?;
    }
    Ok(found)
}
