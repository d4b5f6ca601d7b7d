//! Instruction selection: the normal form of the table of rows, made in one way from the last instruction to
//! the first.

ghost use Rattle.std.specs.Prelude.{◌≡◌, ◌==◌, ◌||◌, ℕ, ◌∷◌, ◌++◌, [], true, map, length, reverse, None, IfOk, OnOk};
ghost use Rattle.std.specs.BTreeMap.{get};
ghost use Rattle.std.specs.Ordering.{nat_cmp};
ghost use Rattle.std.specs.BTreeSet.{contains};
ghost use Rattle.std.specs.List.{AllZip, list_all, list_any};
ghost use Rattle.gi_mir.specs.Edit.{with_stack, is_use_of};
ghost use Rattle.gi_mir.specs.Formed.{is_formed};
ghost use Rattle.gi_mir.specs.Instrs.{left};
ghost use Rattle.gi_refine.specs.Kept.{without_kind};
ghost use Rattle.gi_refine.specs.Worded.{classed_instr};
ghost use Rattle.gi_answer.specs.Selectable.{IsOneBlock, IsSelectable, AllSelectable};
ghost use Rattle.gi_answer.specs.Selecting.{AreShaped, short_of, constant_root, sum_root, root_of, result_of, with_constant, plain, selected_sum, selected_root, selected_where, selected_list, short_among, with_all, emptied};
ghost use Rattle.gi_answer.specs.Selection.{IsSelected, IsSelectedModule};

use crate::shapes::is_negative_immediate;
use gi_llt::Memory;
use gi_mir::block::{Block, Numbered};
use gi_mir::function::Function;
use gi_mir::instr::Instr;
use gi_mir::instrs::Instrs;
use gi_mir::module::Module;
use gi_mir::opcode::Opcode;
use gi_mir::operand::{Flags, Kind, Operand, Reg, StackObject};
use smallvec::SmallVec;
use std::alloc::Global;
use std::collections::{BTreeMap, BTreeSet};

/// What the rows look at in a generic instruction.
#[derive(Clone, Copy, Debug, PartialEq, Eq)]
pub enum Root {
    /// `%register = G_CONSTANT number`, where the number is from -2048 to 2047
    Constant {
        register: Reg,
        number: i128,
    },
    /// `%register = G_ADD %left, %right`
    Sum {
        register: Reg,
        left: Reg,
        right: Reg,
    },
}

/// The number from -2048 to 2047 that 32 bits stand for.
fn short_number(value: u128) -> Option<i128>
    ensures { result ≡ short_of value }
{
    if value < 2048 {
        Some(value as i128)
    } else if is_negative_immediate(value) {
        Some(-((4_294_967_296 - value) as i128))
    } else {
        None
    }
}

fn constant_root(operands: &[Operand]) -> Option<Root>
    ensures { result ≡ constant_root operands.now }
{
    match operands {
        [Operand::Def(register, _), Operand::Constant(_, value)] => {
            short_number(*value).map(|number| Root::Constant {
                register: *register,
                number,
            })
        }
        _ => None,
    }
}

fn sum_root(operands: &[Operand]) -> Option<Root>
    ensures { result ≡ sum_root operands.now }
{
    match operands {
        [
            Operand::Def(register, _),
            Operand::Use(left),
            Operand::Use(right),
        ] => Some(Root::Sum {
            register: *register,
            left: *left,
            right: *right,
        }),
        _ => None,
    }
}

/// What the rows look at, where the instruction is generic.
fn root_of(instr: &Instr) -> Option<Root>
    ensures { result ≡ root_of instr.now }
{
    match instr.op {
        Opcode::GenericConstant => constant_root(instr.operands.as_slice()),
        Opcode::GenericAdd => sum_root(instr.operands.as_slice()),
        _ => None,
    }
}

impl Root {
    /// The register that is defined.
    fn result(self) -> Reg
        ensures { result.0 ≡ result_of self }
    {
        match self {
            Root::Constant { register, .. } => register,
            Root::Sum { register, .. } => register,
        }
    }
}

/// Keeps the number of a register that is a short constant.
fn keep_constant(constants: &mut BTreeMap<u32, i128>, root: Option<Root>) -> Result<(), Memory>
    ensures { OnOk result ((r : ℕ) → get nat_cmp constants.new r ≡ with_constant root r (get nat_cmp constants.old r)) }
{
    if let Some(Root::Constant { register, number }) = root {
        constants.insert(register.0, number).map_err(|_| Memory)?;
    }
    Ok(())
}

/// The short constants by their registers.
fn short_constants(alloc: Global, instrs: Instrs<'_>) -> Result<BTreeMap<u32, i128>, Memory>
    requires { AreShaped (left instrs) }
    ensures { IfOk result (λ constants. (r : ℕ) → get nat_cmp constants r ≡ short_among (left instrs.entry) r) }
{
    let mut constants = BTreeMap::new(alloc);
    for numbered in instrs {
        keep_constant(&mut constants, root_of(&numbered.instr))?;
    }
    Ok(constants)
}

/// An instruction without flags and memory operand.
fn plain(alloc: Global, op: Opcode, operands: &[Operand], line: u32) -> Result<Instr, Memory>
    ensures { IfOk result (λ instr. instr ≡ plain op operands.now line) }
{
    let operands = SmallVec::from_slice(alloc, operands).map_err(|_| Memory)?;
    Ok(Instr {
        op,
        flags: Flags::default(),
        operands,
        mem: None,
        line,
    })
}

/// `register = ADDI source, number`
fn add_immediate(
    alloc: Global,
    register: Reg,
    source: Operand,
    number: i128,
    line: u32,
) -> Result<Instr, Memory>
    ensures { IfOk result (λ instr. instr ≡ plain Opcode.AddImmediate (Operand.Def register Kind.Class ∷ source ∷ Operand.Int number ∷ []) line) }
{
    plain(
        alloc,
        Opcode::AddImmediate,
        &[
            Operand::Def(register, Kind::Class),
            source,
            Operand::Int(number),
        ],
        line,
    )
}

/// A sum: of a register and a short constant, where one of the two is one, the right one first.
fn selected_sum(
    alloc: Global,
    register: Reg,
    left: Reg,
    right: Reg,
    constants: &BTreeMap<u32, i128>,
    line: u32,
) -> Result<Instr, Memory>
    ensures { IfOk result (λ instr. instr ≡ selected_sum register left right (get nat_cmp constants.now left.0) (get nat_cmp constants.now right.0) line) }
{
    if let Some(number) = constants.get(&right.0) {
        return add_immediate(alloc, register, Operand::Use(left), *number, line);
    }
    if let Some(number) = constants.get(&left.0) {
        return add_immediate(alloc, register, Operand::Use(right), *number, line);
    }
    plain(
        alloc,
        Opcode::Add,
        &[
            Operand::Def(register, Kind::Class),
            Operand::Use(left),
            Operand::Use(right),
        ],
        line,
    )
}

/// What stands for a generic instruction whose result is used.
fn selected_root(
    alloc: Global,
    root: Root,
    constants: &BTreeMap<u32, i128>,
    line: u32,
) -> Result<Instr, Memory>
    ensures { IfOk result (λ instr. instr ≡ selected_root (get nat_cmp constants.now) root line) }
{
    match root {
        Root::Constant { register, number } => {
            add_immediate(alloc, register, Operand::Phys(0), number, line)
        }
        Root::Sum {
            register,
            left,
            right,
        } => selected_sum(alloc, register, left, right, constants, line),
    }
}

/// The operand with class `gpr` where it defines a register.
fn without_kind(operand: Operand) -> Operand
    ensures { result ≡ without_kind operand }
{
    match operand {
        Operand::Def(reg, _) => Operand::Def(reg, Kind::Class),
        _ => operand,
    }
}

fn classed_operands(
    alloc: Global,
    operands: &[Operand],
) -> Result<SmallVec<Operand, 6, Global>, Memory>
    ensures { IfOk result (λ classed. classed.items ≡ map without_kind operands.now) }
{
    let mut classed = SmallVec::new(alloc);
    for operand in operands {
        classed.push(without_kind(*operand)).map_err(|_| Memory)?;
    }
    Ok(classed)
}

/// The instruction with each register that it defines of class `gpr`.
fn classed(alloc: Global, instr: &Instr) -> Result<Instr, Memory>
    ensures { IfOk result (λ classed. classed ≡ classed_instr instr.now) }
{
    let operands = classed_operands(alloc, instr.operands.as_slice())?;
    Ok(Instr {
        op: instr.op,
        flags: instr.flags,
        operands,
        mem: instr.mem,
        line: instr.line,
    })
}

/// What stands in an instruction's place, where these registers are used behind it.
fn selected_instr(
    alloc: Global,
    instr: &Instr,
    used: &BTreeSet<u32>,
    constants: &BTreeMap<u32, i128>,
) -> Result<Option<Instr>, Memory>
    ensures { IfOk result (λ selected. selected ≡ selected_where (contains nat_cmp used.now) (get nat_cmp constants.now) instr.now) }
{
    let Some(root) = root_of(instr) else {
        let kept = classed(alloc, instr)?;
        return Ok(Some(kept));
    };
    if !used.contains(&root.result().0) {
        return Ok(None);
    }
    let selected = selected_root(alloc, root, constants, instr.line)?;
    Ok(Some(selected))
}

/// Marks a register as used.
fn mark(used: &mut BTreeSet<u32>, operand: Operand) -> Result<(), Memory>
    ensures { OnOk result ((r : ℕ) → contains nat_cmp used.new r ≡ (is_use_of r operand || contains nat_cmp used.old r)) }
{
    if let Operand::Use(reg) = operand {
        used.insert(reg.0).map_err(|_| Memory)?;
    }
    Ok(())
}

/// Marks the registers that an instruction uses.
fn mark_uses(used: &mut BTreeSet<u32>, operands: &[Operand]) -> Result<(), Memory>
    ensures { OnOk result ((r : ℕ) → contains nat_cmp used.new r ≡ (list_any (is_use_of r) operands.now || contains nat_cmp used.old r)) }
{
    for operand in operands {
        mark(used, *operand)?;
    }
    Ok(())
}

/// Puts one more instruction last.
fn append(instrs: &mut Vec<Instr>, instr: Instr) -> Result<(), Memory>
    ensures { OnOk result (instrs.new.items ≡ instrs.old.items ++ instr ∷ []) }
{
    instrs.push(instr).map_err(|_| Memory)
}

/// These instructions in a list.
fn listed(alloc: Global, instrs: Instrs<'_>) -> Result<Vec<&Numbered>, Memory>
    ensures { IfOk result (λ listed. map (λ numbered. numbered.now) listed.items ≡ left instrs.entry) }
{
    instrs.collect(alloc).map_err(|_| Memory)
}

/// What instructions become, the last one first.
fn selected_backwards(
    alloc: Global,
    instrs: Instrs<'_>,
    constants: &BTreeMap<u32, i128>,
) -> Result<Vec<Instr>, Memory>
    requires { AreShaped (left instrs) }
    ensures selected { IfOk result (λ selected. selected.items ≡ reverse (selected_list (get nat_cmp constants.now) (left instrs.entry))) }
    ensures formed { IfOk result (λ selected. list_all is_formed selected.items ≡ true) }
{
    let mut used = BTreeSet::new(alloc);
    let mut selected = Vec::new(alloc);
    let mut front = listed(alloc, instrs)?;
    while let Some(numbered) = front.pop() {
        if let Some(instr) = selected_instr(alloc, &numbered.instr, &used, constants)? {
            mark_uses(&mut used, instr.operands.as_slice())?;
            append(&mut selected, instr)?;
        }
    }
    Ok(selected)
}

/// The block's head again.
fn head_copy(alloc: Global, block: &Block) -> Result<Block, Memory>
    ensures { IfOk result (λ head. head ≡ block.now) }
{
    Ok(Block {
        successors: Vec::from_slice(alloc, block.successors.as_slice()).map_err(|_| Memory)?,
        liveins: Vec::from_slice(alloc, block.liveins.as_slice()).map_err(|_| Memory)?,
    })
}

/// Puts instructions, of which the first is last, at the end of the one block.
fn put_backwards(selected: &mut Function, instrs: Vec<Instr>) -> Result<(), Memory>
    requires one { length selected.old.blocks ≡ 1 }
    requires formed { list_all is_formed instrs.items ≡ true }
    ensures { OnOk result (selected.new ≡ with_all selected.old (reverse instrs.items)) }
{
    let mut rest = instrs;
    while let Some(instr) = rest.pop() {
        selected.insert_before(0, None, instr)?;
    }
    Ok(())
}

/// Adds a stack object.
fn add_object(selected: &mut Function, object: StackObject) -> Result<(), Memory>
    ensures { OnOk result (selected.new ≡ with_stack selected.old object) }
{
    if selected.stack().len() >= u32::MAX as usize {
        return Err(Memory);
    }
    selected.add_stack(object)?;
    Ok(())
}

/// What a function becomes, without its blocks.
fn emptied(alloc: Global, function: &Function) -> Result<Function, Memory>
    ensures { IfOk result (λ selected. selected ≡ emptied function.now) }
{
    let mut selected = Function::new(alloc, function.name_number());
    let (legalized, banked, _) = function.keys();
    selected.set_keys(legalized, banked, true);
    for object in function.stack() {
        add_object(&mut selected, *object)?;
    }
    Ok(selected)
}

/// What a function of one block becomes.
fn select_block(alloc: Global, function: &Function) -> Result<Function, Memory>
    requires { IsOneBlock function.now }
    ensures { IfOk result (λ selected. IsSelected function.now selected) }
{
    let instrs = function.instrs(0);
    let constants = short_constants(alloc, instrs)?;
    let backwards = selected_backwards(alloc, instrs, &constants)?;
    let mut selected = emptied(alloc, function)?;
    selected.add_block(head_copy(alloc, function.block(0))?)?;
    put_backwards(&mut selected, backwards)?;
    Ok(selected)
}

/// The function after selection.
pub fn select(alloc: Global, function: &Function) -> Result<Function, Memory>
    requires { IsSelectable function.now }
    ensures { IfOk result (λ selected. IsSelected function.now selected) }
{
    if function.block_count() == 0 {
        emptied(alloc, function)
    } else {
        select_block(alloc, function)
    }
}

/// The module after selection, function by function.
pub fn select_module(alloc: Global, read: Module) -> Result<Module, Memory>
    requires { AllSelectable read.functions }
    ensures { IfOk result (λ selected. IsSelectedModule read selected) }
{
    let Module {
        ir,
        names,
        functions,
    } = read;
    let selected = select_all(alloc, functions.as_slice())?;
    Ok(Module {
        ir,
        names,
        functions: selected,
    })
}

fn select_all(alloc: Global, functions: &[Function]) -> Result<Vec<Function>, Memory>
    requires { AllSelectable functions.now }
    ensures { IfOk result (λ selected. AllZip IsSelected functions.now selected.items) }
{
    let mut selected = Vec::new(alloc);
    for function in functions {
        append_function(&mut selected, select(alloc, function)?)?;
    }
    Ok(selected)
}

fn append_function(functions: &mut Vec<Function>, function: Function) -> Result<(), Memory>
    ensures { OnOk result (functions.new.items ≡ functions.old.items ++ function ∷ []) }
{
    functions.push(function).map_err(|_| Memory)
}
