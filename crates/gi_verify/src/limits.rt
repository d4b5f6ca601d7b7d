//! Where the first definition stands in a block that isn't the first of its register: of each block a limit. The limits are a
//! guess, of which nothing is proved. What is needed of them is looked at once they stand.

ghost use Rattle.std.specs.Prelude.{◌≡◌};
ghost use Rattle.gi_verify.specs.Settled as settled;

use crate::marks::Marks;
use crate::reached::{first_marked, mark_successors};
use crate::settled::is_once;
use gi_llt::Memory;
use gi_mir::block::{InstrId, Numbered};
use gi_mir::function::Function;
use gi_mir::instrs::Instrs;
use gi_mir::operand::Operand;
use std::alloc::Global;
use std::marker::Model;

/// Up to where no such definition stands in a block: up to an instruction, that is one, or all along.
#[derive(Clone, Copy)]
pub(crate) enum Limit {
    UpTo(InstrId),
    Everywhere,
}

/// The limit of each block.
#[derive(Drop)]
pub(crate) struct Limits {
    by_block: Vec<Limit>,
}

impl Model for Limits {
    ghost use Rattle.std.specs.Prelude.{List};
    ghost use Rattle.gi_verify.specs.declared.limits.Limit.{Limit};

    ghost Value = { List Limit };

    ghost view = { λ a. a.by_block.items };
}

impl Limits {
    /// None: no such definition stands anywhere.
    pub(crate) fn none(alloc: Global) -> Limits {
        Limits {
            by_block: Vec::new(alloc),
        }
    }

    /// The limit of a block, where one was noted.
    pub(crate) fn of(&self, b: u32) -> Limit
        ensures { result ≡ settled.limit_of self.now b }
    {
        let place = b as usize;
        if place < self.by_block.len() {
            self.by_block[place]
        } else {
            Limit::Everywhere
        }
    }
}

/// Whether none stands in a block of a limit.
fn is_free_last(limit: Limit) -> bool
    ensures { result ≡ settled.is_free_last limit }
{
    matches!(limit, Limit::Everywhere)
}

impl Limits {
    /// Whether none stands in a block.
    pub(crate) fn ends_free(&self, b: u32) -> bool
        ensures { result ≡ settled.is_free_last (settled.limit_of self.now b) }
    {
        is_free_last(self.of(b))
    }
}

/// Whether an instruction defines a register that a marked one defines first.
fn defines_again(function: &Function, marks: &Marks, numbered: &Numbered) -> bool {
    for operand in numbered.instr.operands.as_slice() {
        if let Operand::Def(r, _) = *operand {
            if !is_once(function, marks, numbered.id, r.0) {
                return true;
            }
        }
    }
    false
}

/// The limit of a block with these instructions.
fn limit_in(function: &Function, marks: &Marks, instrs: Instrs<'_>) -> Limit {
    for numbered in instrs {
        if defines_again(function, marks, numbered) {
            return Limit::UpTo(numbered.id);
        }
    }
    Limit::Everywhere
}

/// The limits of the blocks of a function, by marks of its instructions.
pub(crate) fn limits_of(
    alloc: Global,
    function: &Function,
    marks: &Marks,
) -> Result<Limits, Memory> {
    let mut by_block = Vec::new(alloc);
    for b in 0..function.block_count() {
        let limit = limit_in(function, marks, function.instrs(b));
        by_block.push(limit).map_err(|_| Memory)?;
    }
    Ok(Limits { by_block })
}

/// Whether a block is reached, and a second definition stands in it.
fn leads_on(limits: &Limits, reached: &[bool], a: u32) -> bool {
    let place = a as usize;
    place < reached.len() && reached[place] && !limits.ends_free(a)
}

/// The blocks at which ways begin: the first, and those to which a block with a second definition leads.
pub(crate) fn entries_of(
    alloc: Global,
    function: &Function,
    limits: &Limits,
    reached: &[bool],
) -> Result<Vec<bool>, Memory> {
    let count = function.block_count();
    let mut entries = first_marked(alloc, count)?;
    for a in 0..count {
        if leads_on(limits, reached, a) {
            mark_successors(function.block(a).successors.as_slice(), &mut entries);
        }
    }
    Ok(entries)
}
