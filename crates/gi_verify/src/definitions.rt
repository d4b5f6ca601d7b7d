//! Second definitions of registers.

ghost use Rattle.std.specs.Prelude.{◌≡◌, ◌++◌, ◌∷◌, ◌==◌, [], ◌/◌, ℕ, Some, None, OnOk, IfOk, flat_map, map, if◌then◌else◌};
ghost use Rattle.gi_mir.specs.Data.{reg_of};
ghost use Rattle.gi_valid.specs.declared.invalid.Invalid.TheVariants as Invalid;
ghost use Rattle.gi_mir.specs.Edit.{all_instrs};
ghost use Rattle.gi_valid.specs.Faults as faults;
ghost use Rattle.gi_valid.specs.Valid.{of_lowest_line};
ghost use Rattle.gi_meaning.specs.InRow.{results_in};
ghost use Rattle.gi_meaning.specs.Runs.{is_among};
ghost use Rattle.gi_verify.specs.Counted.{AreCounted, AreTallied, counted, is_once, once_more};
ghost use Rattle.gi_mir.specs.Instrs.{left};
ghost use Rattle.std.specs.BTreeMap.{get};
ghost use Rattle.std.specs.Ordering.{nat_cmp};

use crate::lowest::of_lowest_line;
use crate::page::{PAGE, Page};
use gi_llt::Memory;
use gi_mir::block::Numbered;
use gi_mir::function::Function;
use gi_mir::instrs::Instrs;
use gi_mir::operand::{Operand, Reg};
use gi_valid::{Fault, Invalid};
use std::alloc::Global;
use std::collections::BTreeMap;

/// Puts the register that an operand defines, with a line, at the end of a list.
fn push_definition(out: &mut Vec<(u32, u32)>, line: u32, operand: Operand) -> Result<(), Memory>
    ensures { OnOk result (out.new.items ≡ out.old.items ++ map (λ r. (line, r)) (results_in (operand ∷ []))) }
{
    match operand {
        Operand::Def(r, _) => match out.push((line, r.0)) {
            Ok(()) => Ok(()),
            Err(_) => Err(Memory),
        },
        _ => Ok(()),
    }
}

/// Puts the registers that operands define, with a line, at the end of a list.
fn push_definitions(
    out: &mut Vec<(u32, u32)>,
    line: u32,
    operands: &[Operand],
) -> Result<(), Memory>
    ensures { OnOk result (out.new.items ≡ out.old.items ++ map (λ r. (line, r)) (results_in operands.now)) }
{
    for operand in operands {
        push_definition(out, line, *operand)?;
    }
    Ok(())
}

/// Puts the definitions of an instruction at the end of a list.
fn push_of(out: &mut Vec<(u32, u32)>, numbered: &Numbered) -> Result<(), Memory>
    ensures { OnOk result (out.new.items ≡ out.old.items ++ map (λ r. ((numbered.now).1.line, r)) (results_in (numbered.now).1.operands)) }
{
    push_definitions(out, numbered.instr.line, numbered.instr.operands.as_slice())
}

/// Puts the definitions of instructions at the end of a list.
fn push_among(out: &mut Vec<(u32, u32)>, instrs: Instrs<'_>) -> Result<(), Memory>
    ensures { OnOk result (out.new.items ≡ out.old.items ++ faults.definitions (left instrs.entry)) }
{
    for numbered in instrs {
        push_of(out, numbered)?;
    }
    Ok(())
}

/// The definitions of a function, each with its line.
fn definitions(alloc: Global, function: &Function) -> Result<Vec<(u32, u32)>, Memory>
    ensures { IfOk result (λ all. all.items ≡ faults.definitions (all_instrs function.now.blocks)) }
{
    let mut all = Vec::new(alloc);
    for b in 0..function.block_count() {
        push_among(&mut all, function.instrs(b))?;
    }
    Ok(all)
}

/// How often a register was defined, where it was.
#[derive(Clone, Copy)]
pub(crate) enum Times {
    Once,
    Often,
}

/// How often each register was defined before.
#[derive(Drop)]
pub(crate) struct Counted {
    alloc: Global,
    pages: BTreeMap<u32, Page>,
}

/// With one more definition.
fn once_more(times: Option<Times>) -> Times
    ensures { result ≡ once_more times }
{
    match times {
        Some(_) => Times::Often,
        None => Times::Once,
    }
}

/// Whether this is one definition.
fn is_once(times: Option<Times>) -> bool
    ensures { result ≡ is_once times }
{
    matches!(times, Some(Times::Once))
}

impl Counted {
    /// Before all definitions.
    pub(crate) fn new(alloc: Global) -> Counted
        ensures { AreCounted [] result }
    {
        Counted {
            alloc,
            pages: BTreeMap::new(alloc),
        }
    }

    /// How often a register was defined.
    fn times(&self, r: u32) -> Option<Times>
        ensures { result ≡ counted self.now r }
    {
        match self.pages.get(&(r / PAGE)) {
            Some(page) => page.at((r % PAGE) as usize),
            None => None,
        }
    }

    /// Puts a page in on which it is set how often one register was defined, where there was no page.
    fn put_page(&mut self, r: u32, times: Times) -> Result<(), Memory>
        requires { get nat_cmp self.old.pages (r / 256) ≡ None }
        ensures { OnOk result ((q : ℕ) → counted self.new q ≡ (if r == q then Some times else counted self.old q)) }
    {
        let mut page = Page::new(self.alloc);
        page.set((r % PAGE) as usize, times)?;
        self.pages.insert(r / PAGE, page).map_err(|_| Memory)?;
        Ok(())
    }

    /// Sets how often a register was defined.
    fn set(&mut self, r: u32, times: Times) -> Result<(), Memory>
        ensures { OnOk result ((q : ℕ) → counted self.new q ≡ (if r == q then Some times else counted self.old q)) }
    {
        match self.pages.get_mut(&(r / PAGE)) {
            Some(page) => page.set((r % PAGE) as usize, times),
            None => self.put_page(r, times),
        }
    }

    /// Counts a number once more.
    pub(crate) fn count_one(&mut self, n: u32) -> Result<(), Memory>
        ensures { OnOk result ((q : ℕ) → counted self.new q ≡ (if n == q then Some (once_more (counted self.old n)) else counted self.old q)) }
    {
        let times = once_more(self.times(n));
        self.set(n, times)
    }

    /// Whether a list, whose numbers were counted, has a number once.
    #[tactic(auto, using(crate::proofs::Counting::once_tallied))]
    pub(crate) fn has_once(&self, list: &[u32], n: u32) -> bool
        requires { AreTallied list.now self.now }
        ensures { result ≡ (faults.count_of n list.now == 1) }
    {
        let _ = list;
        is_once(self.times(n))
    }

    /// Whether a list, whose numbers were counted, has a number.
    #[tactic(auto, using(crate::proofs::Counting::among_tallied))]
    pub(crate) fn has(&self, list: &[u32], n: u32) -> bool
        requires { AreTallied list.now self.now }
        ensures { result ≡ is_among n list.now }
    {
        let _ = list;
        self.times(n).is_some()
    }

    /// Whether the next definition of a register is its second.
    #[tactic(auto, using(crate::proofs::Counting::once_kept))]
    fn is_second(&self, before: &[(u32, u32)], r: u32) -> bool
        requires { AreCounted before.now self.now }
        ensures { result ≡ (faults.times r before.now == 1) }
    {
        let _ = before;
        is_once(self.times(r))
    }

    /// Counts the definition of a register behind others.
    #[tactic(auto, using(crate::proofs::Counting::one_counted))]
    fn count(&mut self, before: &[(u32, u32)], definition: (u32, u32)) -> Result<(), Memory>
        requires { AreCounted before.now self.old }
        ensures { OnOk result (AreCounted (before.now ++ definition ∷ []) self.new) }
    {
        let _ = before;
        let times = once_more(self.times(definition.1));
        self.set(definition.1, times)
    }
}

/// Puts a fault at the end of a list.
fn push_fault(out: &mut Vec<Fault>, line: u32, what: Invalid) -> Result<(), Memory>
    ensures { OnOk result (out.new.items ≡ out.old.items ++ faults.fault_at line what ∷ []) }
{
    match out.push(Fault { line, what }) {
        Ok(()) => Ok(()),
        Err(_) => Err(Memory),
    }
}

/// Puts the fault of a second definition at the end of a list, if it is one.
fn push_second(out: &mut Vec<Fault>, is_second: bool, line: u32, r: u32) -> Result<(), Memory>
    ensures { OnOk result (out.new.items ≡ out.old.items ++ (if is_second then faults.fault_at line (Invalid.DoubleDefinition (reg_of r)) ∷ [] else [])) }
{
    if is_second {
        push_fault(out, line, Invalid::DoubleDefinition(Reg(r)))
    } else {
        Ok(())
    }
}

/// Puts the faults of second definitions at the end of a list.
fn push_seconds(alloc: Global, out: &mut Vec<Fault>, all: &[(u32, u32)]) -> Result<(), Memory>
    ensures { OnOk result (out.new.items ≡ out.old.items ++ faults.seconds [] all.now) }
{
    let mut counted = Counted::new(alloc);
    for k in 0..all.len() {
        let (line, r) = all[k];
        let before = &all[..k];
        let is_second = counted.is_second(before, r);
        push_second(out, is_second, line, r)?;
        counted.count(before, (line, r))?;
    }
    Ok(())
}

/// The lowest fault of a second definition in a function.
pub(crate) fn lowest_double(alloc: Global, function: &Function) -> Result<Option<Fault>, Memory>
    ensures { IfOk result (λ lowest. lowest ≡ of_lowest_line (faults.double_definitions function.now)) }
{
    let all = definitions(alloc, function)?;
    let mut told = Vec::new(alloc);
    push_seconds(alloc, &mut told, all.as_slice())?;
    Ok(of_lowest_line(told.as_slice()))
}
