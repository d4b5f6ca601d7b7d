//! What a rewrite makes of a function.

ghost use Rattle.std.specs.Prelude.{◌≡◌, ◌<◌, ◌≤◌, ◌+◌, ◌-◌, ◌^◌, [], ◌∷◌, ◌++◌, IsTrue, IfOk, OnOk, length, map, option_map, true, zip};
ghost use Rattle.gi_mir.specs.Edit.{IsLive};
ghost use Rattle.gi_observe.specs.Replay.{IsReplay};
ghost use Rattle.gi_refine.specs.Lifting.{grown};
ghost use Rattle.gi_rule_use.specs.Making.{makes_formed, new_among, new_count, new_in, numbers_of, rewriting_told};
ghost use Rattle.gi_rule_valid.specs.Using.{all_instrs_for, defined_as, instr_for, kind_with, made_of, next_behind, next_for, operand_for, or_new, place_for, register_at, registers_for, rewritten_at, target_at};

use crate::using::Use;
use gi_llt::{Llt, Memory};
use gi_mir::block::InstrId;
use gi_mir::function::Function;
use gi_mir::instr::Instr;
use gi_mir::operand::{Kind, Operand, Reg};
use gi_observe::{ChangeObserver, Editor};
use gi_replace::replace_root;
use gi_rule_values::{Operation, Slot};
use smallvec::SmallVec;
use std::alloc::Global;
use std::collections::VecDeque;

/// A register of this type, in the bank where the function's registers are in banks.
fn kind_with(banked: bool, ty: Llt) -> Kind
    ensures { result ≡ kind_with banked ty }
{
    if banked {
        Kind::Banked(ty)
    } else {
        Kind::Generic(ty)
    }
}

/// The register at a place, and register 0 where there is none.
fn register_at(registers: &[Reg], place: u8) -> Reg
    ensures { result.0 ≡ register_at (numbers_of registers.now) place }
{
    match registers.get(usize::from(place)) {
        Some(reg) => *reg,
        None => Reg(0),
    }
}

fn operand_for(registers: &[Reg], slot: Slot) -> Operand
    ensures { result ≡ operand_for (numbers_of registers.now) slot }
{
    match slot {
        Slot::At(place) => Operand::Use(register_at(registers, place)),
        Slot::Stands(operand) => operand,
    }
}

/// The root's register that has the value at a place.
fn target_at(places: &[u8], registers: &[Reg], place: usize) -> Option<Reg>
    ensures { option_map (λ r. r.0) result ≡ target_at (zip places.now (numbers_of registers.now)) place }
{
    match places {
        [] => None,
        [first, places @ ..] => match registers {
            [] => None,
            [reg, registers @ ..] => if usize::from(*first) == place {
                Some(*reg)
            } else {
                target_at(places, registers, place)
            },
        },
    }
}

/// That register, or a new one of this number.
fn or_new(target: Option<Reg>, next: u32) -> Reg
    ensures { result.0 ≡ or_new (option_map (λ r. r.0) target) next }
{
    target.unwrap_or(Reg(next))
}

/// The number of the next new register behind that.
fn next_behind(target: Option<Reg>, next: u32) -> u32
    requires { next_behind (option_map (λ r. r.0) target) next ≤ 2 ^ 32 - 1 }
    ensures { result ≡ next_behind (option_map (λ r. r.0) target) next }
{
    match target {
        Some(_) => next,
        None => next + 1,
    }
}

/// What instructions are made from: the places of the root's results with their registers, whether registers are in banks,
/// and the root's line.
#[derive(Clone, Copy)]
struct Making<'u> {
    places: &'u [u8],
    results: &'u [Reg],
    banked: bool,
    line: u32,
}

/// Adds definitions of registers, each with what it is.
fn push_definitions(
    banked: bool,
    results: &[Reg],
    types: &[Llt],
    operands: &mut SmallVec<Operand, 6, Global>,
) -> Result<(), Memory>
    ensures { OnOk result (operands.new.items ≡ operands.old.items ++ defined_as (kind_with banked) (numbers_of results.now) types.now) }
{
    match results {
        [] => Ok(()),
        [reg, results @ ..] => match types {
            [] => Ok(()),
            [ty, types @ ..] => {
                let definition = Operand::Def(*reg, kind_with(banked, *ty));
                operands.push(definition).map_err(|_| Memory)?;
                push_definitions(banked, results, types, operands)
            }
        },
    }
}

/// Adds what slots take of registers.
fn push_operands(
    registers: &[Reg],
    slots: &[Slot],
    operands: &mut SmallVec<Operand, 6, Global>,
) -> Result<(), Memory>
    ensures { OnOk result (operands.new.items ≡ operands.old.items ++ map (operand_for (numbers_of registers.now)) slots.now) }
{
    match slots {
        [] => Ok(()),
        [slot, rest @ ..] => {
            operands
                .push(operand_for(registers, *slot))
                .map_err(|_| Memory)?;
            push_operands(registers, rest, operands)
        }
    }
}

/// Adds registers behind others.
fn grow(registers: &mut Vec<Reg>, results: &[Reg]) -> Result<(), Memory>
    ensures { OnOk result (registers.new.items ≡ registers.old.items ++ results.now) }
{
    registers.extend_from_slice(results).map_err(|_| Memory)
}

impl<'u> Making<'u> {
    /// Adds the registers of results from a place on: the root's, or new ones from this number on. Answers the number behind
    /// them.
    #[tactic(auto, using(crate::proofs::Registers::next_behind_add))]
    fn push_results(
        &self,
        place: usize,
        next: u32,
        types: &[Llt],
        registers: &mut SmallVec<Reg, 2, Global>,
    ) -> Result<u32, Memory>
        requires places { place + length types.now < 2 ^ 64 }
        requires room { next + new_among (zip self.now.places.now (numbers_of self.now.results.now)) place types.now ≤ 2 ^ 32 - 1 }
        ensures registers { OnOk result (numbers_of registers.new.items ≡ numbers_of registers.old.items ++ registers_for (zip self.now.places.now (numbers_of self.now.results.now)) place next types.now) }
        ensures next { IfOk result (λ behind. behind ≡ next_for (zip self.now.places.now (numbers_of self.now.results.now)) place next types.now) }
        ensures count { IfOk result (λ behind. behind ≡ next + new_among (zip self.now.places.now (numbers_of self.now.results.now)) place types.now) }
    {
        match types {
            [] => Ok(next),
            [_, rest @ ..] => {
                let target = target_at(self.places, self.results, place);
                registers.push(or_new(target, next)).map_err(|_| Memory)?;
                self.push_results(place + 1, next_behind(target, next), rest, registers)
            }
        }
    }

    /// An operation on registers.
    fn instr(
        &self,
        alloc: Global,
        registers: &[Reg],
        results: &[Reg],
        operation: &Operation,
    ) -> Result<Instr, Memory>
        ensures { IfOk result (λ instr. instr ≡ instr_for (kind_with self.now.banked) (numbers_of registers.now) (numbers_of results.now) operation.now self.now.line) }
    {
        let mut operands = SmallVec::new(alloc);
        push_definitions(
            self.banked,
            results,
            operation.types.as_slice(),
            &mut operands,
        )?;
        push_operands(registers, operation.slots.as_slice(), &mut operands)?;
        Ok(Instr {
            op: operation.op,
            flags: operation.flags,
            operands,
            mem: None,
            line: self.line,
        })
    }

    /// Makes an operation on these registers, which those of its results join, with new ones from this number on. Answers
    /// the number behind them.
    fn make_one(
        &self,
        alloc: Global,
        operation: &Operation,
        next: u32,
        registers: &mut Vec<Reg>,
        made: &mut VecDeque<Instr>,
    ) -> Result<u32, Memory>
        requires { next + new_among (zip self.now.places.now (numbers_of self.now.results.now)) (length registers.old.items) operation.now.types ≤ 2 ^ 32 - 1 }
        ensures made { OnOk result (made.new.items ≡ made.old.items ++ instr_for (kind_with self.now.banked) (numbers_of registers.old.items) (registers_for (zip self.now.places.now (numbers_of self.now.results.now)) (length registers.old.items) next operation.now.types) operation.now self.now.line ∷ []) }
        ensures registers { OnOk result (numbers_of registers.new.items ≡ grown (numbers_of registers.old.items) (registers_for (zip self.now.places.now (numbers_of self.now.results.now)) (length registers.old.items) next operation.now.types)) }
        ensures place { OnOk result (length registers.new.items ≡ place_for (length registers.old.items) operation.now.types) }
        ensures next { IfOk result (λ behind. behind ≡ next_for (zip self.now.places.now (numbers_of self.now.results.now)) (length registers.old.items) next operation.now.types) }
        ensures count { IfOk result (λ behind. behind ≡ next + new_among (zip self.now.places.now (numbers_of self.now.results.now)) (length registers.old.items) operation.now.types) }
    {
        let mut results = SmallVec::new(alloc);
        let types = operation.types.as_slice();
        let behind = self.push_results(registers.len(), next, types, &mut results)?;
        let instr = self.instr(alloc, registers.as_slice(), results.as_slice(), operation)?;
        made.push_back(instr).map_err(|_| Memory)?;
        grow(registers, results.as_slice())?;
        Ok(behind)
    }

    /// Makes operations in order, on these registers and on those of the results before, with new registers from this
    /// number on.
    fn make_all(
        &self,
        alloc: Global,
        operations: &[Operation],
        next: u32,
        registers: &mut Vec<Reg>,
        made: &mut VecDeque<Instr>,
    ) -> Result<(), Memory>
        requires room { next + new_in (zip self.now.places.now (numbers_of self.now.results.now)) (length registers.old.items) operations.now ≤ 2 ^ 32 - 1 }
        ensures { OnOk result (made.new.items ≡ made.old.items ++ all_instrs_for (kind_with self.now.banked) self.now.line (zip self.now.places.now (numbers_of self.now.results.now)) (numbers_of registers.old.items) (length registers.old.items) next operations.now) }
    {
        match operations {
            [] => Ok(()),
            [first, rest @ ..] => {
                let behind = self.make_one(alloc, first, next, registers, made)?;
                self.make_all(alloc, rest, behind, registers, made)
            }
        }
    }
}

/// What a rewrite makes at an instruction, in order.
fn make(function: &Function, at: InstrId, answer: &Use) -> Result<VecDeque<Instr>, Memory>
    requires live { IsLive function.now at.0 }
    requires room { function.now.next_reg + new_count answer.now ≤ 2 ^ 32 - 1 }
    ensures { IfOk result (λ made. made.items ≡ made_of function.now at.0 answer.now) }
{
    let alloc = *answer.inputs.allocator();
    let making = Making {
        places: answer.rewrite.results.as_slice(),
        results: answer.results.as_slice(),
        banked: function.keys().1,
        line: function.instr(at).line,
    };
    let next = function.next_reg() as u32;
    let mut registers = Vec::from_slice(alloc, answer.inputs.as_slice()).map_err(|_| Memory)?;
    let mut made = VecDeque::new(alloc);
    making.make_all(
        alloc,
        answer.rewrite.made.as_slice(),
        next,
        &mut registers,
        &mut made,
    )?;
    Ok(made)
}

/// Makes a rewrite at an instruction: erases the root, and creates what is made in its place, in order. Where memory runs out
/// the function may be between two of these.
pub fn rewrite_at<O: ChangeObserver>(
    edit: &mut Editor<'_, O>,
    at: InstrId,
    answer: &Use,
) -> Result<(), Memory>
    requires live { IsLive edit.old.function.now at.0 }
    requires room { edit.old.function.now.next_reg + new_count answer.now ≤ 2 ^ 32 - 1 }
    requires formed { makes_formed answer.now.rewrite ≡ true }
    ensures same_function { edit.new.function.ghost_name ≡ edit.old.function.ghost_name }
    ensures same_observer { edit.new.observer.ghost_name ≡ edit.old.observer.ghost_name }
    ensures pass { edit.new.pass ≡ edit.old.pass }
    ensures ok { OnOk result (edit.new.function.now ≡ rewritten_at edit.old.function.now at.0 answer.now) }
    ensures tells_stays { O.tells edit.new.observer.now ≡ O.tells edit.old.observer.now }
    ensures told { OnOk result (IsTrue (O.tells edit.old.observer.now) → O.seen edit.new.observer.now ≡ O.seen edit.old.observer.now ++ rewriting_told at.0 answer.now edit.old.pass edit.old.function.now) }
    ensures replay { OnOk result (IsReplay (rewriting_told at.0 answer.now edit.old.pass edit.old.function.now) edit.old.function.now edit.new.function.now) }
{
    let mut made = make(edit.function(), at, answer)?;
    replace_root(edit, at, &mut made)
}
