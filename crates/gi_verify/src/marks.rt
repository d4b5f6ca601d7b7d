//! A guess at the instructions whose registers are settled: what each uses, where it is pure, is first defined by such an
//! instruction that comes sooner, and where that is asked, it defines registers that no other one does. Nothing rests on it:
//! the marks are looked at once they stand.

ghost use Rattle.std.specs.Prelude.{◌≡◌};
ghost use Rattle.gi_verify.specs.Sets.{marked};
ghost use Rattle.gi_verify.specs.Settled.{IsLinked};

use crate::operands::is_pure;
use crate::settled::{is_first, is_sooner};
use crate::tree::Tree;
use gi_llt::Memory;
use gi_mir::block::{InstrId, Numbered};
use gi_mir::function::Function;
use gi_mir::instrs::Instrs;
use gi_mir::operand::{Operand, Reg};
use std::alloc::Global;
use std::marker::Model;

/// Of each id whether its instruction is marked.
#[derive(Drop)]
pub(crate) struct Marks {
    by_id: Vec<bool>,
}

impl Model for Marks {
    ghost use Rattle.std.specs.Prelude.{Bool, List};

    ghost Value = { List Bool };

    ghost view = { λ a. a.by_id.items };
}

impl Marks {
    /// No marks.
    pub(crate) fn none(alloc: Global) -> Marks {
        Marks {
            by_id: Vec::new(alloc),
        }
    }

    /// Whether an instruction is marked.
    pub(crate) fn has(&self, id: usize) -> bool
        ensures { result ≡ marked self.now id }
    {
        if id < self.by_id.len() {
            self.by_id[id]
        } else {
            false
        }
    }
}

/// Marks that are taken away, and the instructions that lost theirs and whose users weren't told.
#[derive(Drop)]
struct Guess {
    marks: Vec<bool>,
    lost: Vec<InstrId>,
}

/// A number above the ids of these instructions.
fn past(least: usize, instrs: Instrs<'_>) -> usize {
    let mut end = least;
    for numbered in instrs {
        if end <= numbered.id.0 {
            end = numbered.id.0.saturating_add(1);
        }
    }
    end
}

/// A number above all ids.
fn past_all(function: &Function) -> usize {
    let mut end = 0;
    for b in 0..function.block_count() {
        end = past(end, function.instrs(b));
    }
    end
}

/// So many marks.
fn all_marked(alloc: Global, count: usize) -> Result<Vec<bool>, Memory> {
    let mut marks = Vec::new(alloc);
    for _ in 0..count {
        if marks.push(true).is_err() {
            return Err(Memory);
        }
    }
    Ok(marks)
}

/// Takes the mark of an instruction away.
fn unmark(guess: &mut Guess, id: InstrId) -> Result<(), Memory> {
    let place = id.0;
    if place < guess.marks.len() && guess.marks[place] {
        guess.marks[place] = false;
        guess.lost.push(id).map_err(|_| Memory)?;
    }
    Ok(())
}

/// Takes the marks of two instructions away that define one register.
fn unmark_both(function: &Function, guess: &mut Guess, id: InstrId, r: u32) -> Result<(), Memory> {
    if is_first(function, id, r) {
        return Ok(());
    }
    unmark(guess, id)?;
    match function.def_of(Reg(r)) {
        Some(first) => unmark(guess, first),
        None => Ok(()),
    }
}

/// Takes the mark of an instruction of a block away, where an operand of it isn't as it is to be.
fn look_at(
    function: &Function,
    tree: &Tree,
    guess: &mut Guess,
    once: bool,
    b: u32,
    id: InstrId,
    pure: bool,
    operand: Operand,
) -> Result<(), Memory>
    requires { IsLinked tree.now }
{
    match operand {
        Operand::Def(r, _) => {
            if once {
                unmark_both(function, guess, id, r.0)?;
            }
            Ok(())
        }
        Operand::Use(r) => {
            if pure && !(function.is_live(id) && is_sooner(function, tree, r.0, b, id)) {
                unmark(guess, id)?;
            }
            Ok(())
        }
        _ => Ok(()),
    }
}

/// The same of all operands of an instruction.
fn look_along(
    function: &Function,
    tree: &Tree,
    guess: &mut Guess,
    once: bool,
    b: u32,
    numbered: &Numbered,
) -> Result<(), Memory>
    requires { IsLinked tree.now }
{
    let pure = is_pure(&numbered.instr);
    for operand in numbered.instr.operands.as_slice() {
        look_at(function, tree, guess, once, b, numbered.id, pure, *operand)?;
    }
    Ok(())
}

/// The same of all instructions of a block.
fn look_through(
    function: &Function,
    tree: &Tree,
    guess: &mut Guess,
    once: bool,
    b: u32,
    instrs: Instrs<'_>,
) -> Result<(), Memory>
    requires { IsLinked tree.now }
{
    for numbered in instrs {
        look_along(function, tree, guess, once, b, numbered)?;
    }
    Ok(())
}

/// Takes the mark of an instruction away, where it is pure.
fn unmark_user(function: &Function, guess: &mut Guess, id: InstrId) -> Result<(), Memory> {
    if function.is_live(id) && is_pure(function.instr(id)) {
        unmark(guess, id)?;
    }
    Ok(())
}

/// Takes the marks of the users of a register away, where an instruction is the first that defines it.
fn unmark_users(
    function: &Function,
    guess: &mut Guess,
    first: InstrId,
    operand: Operand,
) -> Result<(), Memory> {
    if let Operand::Def(r, _) = operand {
        if is_first(function, first, r.0) {
            for id in function.uses_of(r) {
                unmark_user(function, guess, id)?;
            }
        }
    }
    Ok(())
}

/// Tells the users of an instruction that it lost its mark.
fn tell_users(function: &Function, guess: &mut Guess, id: InstrId) -> Result<(), Memory> {
    if function.is_live(id) {
        for operand in function.instr(id).operands.as_slice() {
            unmark_users(function, guess, id, *operand)?;
        }
    }
    Ok(())
}

/// Tells the users of all that lost their marks.
fn tell_all(function: &Function, guess: &mut Guess) -> Result<(), Memory> {
    for _ in 0..u64::MAX {
        match guess.lost.pop() {
            Some(id) => tell_users(function, guess, id)?,
            None => break,
        }
    }
    Ok(())
}

/// The marks of the instructions of a function, by its tree of blocks. It is said whether its registers are to be defined once.
pub(crate) fn marks_of(
    alloc: Global,
    function: &Function,
    tree: &Tree,
    once: bool,
) -> Result<Marks, Memory>
    requires { IsLinked tree.now }
{
    let mut guess = Guess {
        marks: all_marked(alloc, past_all(function))?,
        lost: Vec::new(alloc),
    };
    for b in 0..function.block_count() {
        look_through(function, tree, &mut guess, once, b, function.instrs(b))?;
    }
    tell_all(function, &mut guess)?;
    Ok(Marks { by_id: guess.marks })
}

/// A mark for each instruction of a function.
pub(crate) fn fresh_marks(alloc: Global, function: &Function) -> Result<Vec<bool>, Memory> {
    all_marked(alloc, past_all(function))
}
