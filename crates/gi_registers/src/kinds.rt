//! The kinds of virtual registers, in the order in which they were noted.

ghost use Rattle.std.specs.Prelude.{◌≡◌, ℕ, [], fold, slice_get, IfOk, OnOk, OnErr};
ghost use Rattle.gi_mir.specs.Instrs.{left};
ghost use Rattle.gi_mir.specs.Registers.{kind_in_blocks};
ghost use Rattle.gi_registers.specs.Noted.{kind_noted, kind_or_class, with_instr, with_kind, with_operand};

use crate::set::RegisterSet;
use gi_llt::Memory;
use gi_mir::function::Function;
use gi_mir::instrs::Instrs;
use gi_mir::operand::{Kind, Operand, Reg};
use std::alloc::Global;
use std::marker::Model;

/// The kind at a place.
fn kind_at(kinds: &[Kind], place: usize) -> Option<Kind>
    ensures { result ≡ slice_get kinds.now place }
{
    kinds.get(place).copied()
}

/// The kind of each register that has one, as it was noted first.
#[derive(Drop)]
pub struct RegisterKinds {
    registers: RegisterSet,
    kinds: Vec<Kind>,
}

impl Model for RegisterKinds {
    ghost use Rattle.std.specs.Prelude.{◌≡◌, List, ℕ, length};
    ghost use Rattle.std.specs.List.{zip};
    ghost use Rattle.gi_mir.specs.declared.operand.Kind.{Kind};

    ghost Value = { List (ℕ × Kind) };

    ghost view = { λ a. zip a.registers a.kinds.items };

    ghost invariant = { λ a. length a.registers ≡ length a.kinds.items };
}

impl RegisterKinds {
    /// No register has a kind.
    pub fn new(alloc: Global) -> RegisterKinds
        ensures { result ≡ [] }
    {
        RegisterKinds {
            registers: RegisterSet::new(alloc),
            kinds: Vec::new(alloc),
        }
    }

    /// The kind of a register.
    #[tactic(auto, using(crate::proofs::Noting::noted_at, crate::proofs::Noting::not_noted))]
    pub fn kind_of(&self, reg: Reg) -> Option<Kind>
        ensures { result ≡ kind_noted self.now reg.0 }
    {
        match self.registers.index_of(reg) {
            Some(place) => kind_at(self.kinds.as_slice(), place),
            None => None,
        }
    }

    /// The kind of a register, and `Class` where none is noted.
    pub fn kind_or_class(&self, reg: Reg) -> Kind
        ensures { result ≡ kind_or_class self.now reg.0 }
    {
        self.kind_of(reg).unwrap_or(Kind::Class)
    }

    /// Notes the kind of a register, unless it has one.
    #[tactic(auto, using(crate::proofs::Noting::has_kind, crate::proofs::Noting::with_one_more))]
    pub fn note(&mut self, reg: Reg, kind: Kind) -> Result<(), Memory>
        ensures ok { OnOk result (self.new ≡ with_kind self.old reg.0 kind) }
        ensures err { OnErr result (self.new ≡ self.old) }
    {
        if let Some(_) = self.registers.index_of(reg) {
            return Ok(());
        }
        self.kinds.reserve(1).map_err(|_| Memory)?;
        self.registers.insert(reg)?;
        self.kinds.push(kind).map_err(|_| Memory)?;
        Ok(())
    }

    /// Notes the kind of a register that an operand defines.
    fn note_operand(&mut self, operand: Operand) -> Result<(), Memory>
        ensures { OnOk result (self.new ≡ with_operand self.old operand) }
    {
        match operand {
            Operand::Def(reg, kind) => self.note(reg, kind),
            _ => Ok(()),
        }
    }

    /// Notes the kinds of the registers that operands define.
    pub fn note_operands(&mut self, operands: &[Operand]) -> Result<(), Memory>
        ensures { OnOk result (self.new ≡ fold with_operand self.old operands.now) }
    {
        for operand in operands {
            self.note_operand(*operand)?;
        }
        Ok(())
    }

    /// Notes the kinds of the registers that instructions define.
    fn note_instrs(&mut self, instrs: Instrs<'_>) -> Result<(), Memory>
        ensures { OnOk result (self.new ≡ fold with_instr self.old (left instrs.entry)) }
    {
        for numbered in instrs {
            self.note_operands(numbered.instr.operands.as_slice())?;
        }
        Ok(())
    }

    /// The kinds of a function's registers, each at its first definition in layout order.
    pub fn of(alloc: Global, function: &Function) -> Result<RegisterKinds, Memory>
        ensures { IfOk result (λ kinds. (reg : ℕ) → kind_noted kinds reg ≡ kind_in_blocks reg function.now.blocks) }
    {
        let mut kinds = RegisterKinds::new(alloc);
        for block in 0..function.block_count() {
            kinds.note_instrs(function.instrs(block))?;
        }
        Ok(kinds)
    }
}
