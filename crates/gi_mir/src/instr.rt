//! Instructions.

ghost use Rattle.std.specs.Prelude.{◌≡◌, ◌<◌, length, map, IfOk};
ghost use Rattle.std.specs.List.{list_any};
ghost use Rattle.gi_mir.specs.Edit.{with_operand, with_kind, of_kind, is_def_of};
ghost use Rattle.gi_mir.specs.Uses.{operand_replaced, instr_replaced};

use crate::opcode::Opcode;
use crate::operand::{Flags, Kind, MemOp, Operand, Reg};
use gi_llt::Memory;
use smallvec::SmallVec;
use std::alloc::Global;
use std::marker::Model;

/// An instruction, with the line of the text that it comes from.
#[derive(Drop)]
pub struct Instr {
    pub op: Opcode,
    pub flags: Flags,
    pub operands: SmallVec<Operand, 6, Global>,
    pub mem: Option<MemOp>,
    pub line: u32,
}

impl Model for Instr {
    ghost use Rattle.gi_mir.specs.Data.{InstrData};

    ghost Value = { InstrData };

    ghost view = { λ a. record { op = a.op; flags = a.flags; operands = a.operands.items; mem = a.mem; line = a.line } };
}

impl Instr {
    /// An equal instruction.
    pub fn copy(&self) -> Result<Instr, Memory>
        ensures ok { IfOk result (λ copied. copied ≡ self.now) }
    {
        let operands = SmallVec::from_slice(
            *self.operands.allocator(),
            self.operands.as_slice(),
        ).map_err(|_| Memory)?;
        Ok(Instr {
            op: self.op,
            flags: self.flags,
            operands,
            mem: self.mem,
            line: self.line,
        })
    }

    /// Puts another operand at this place.
    pub fn set_operand(&mut self, place: usize, new: Operand)
        requires { place < length self.old.operands }
        ensures { self.new ≡ with_operand self.old place new }
    {
        self.operands.as_mut_slice()[place] = new;
    }

    /// Gives the definition at this place another kind.
    pub fn set_kind(&mut self, place: usize, kind: Kind)
        requires { place < length self.old.operands }
        ensures { self.new ≡ with_kind self.old place kind }
    {
        let old = self.operands.as_slice()[place];
        self.set_operand(place, old.of_kind(kind));
    }

    /// Makes each use of a register one of another.
    pub fn replace_reg(&mut self, old: Reg, new: Reg)
        ensures { self.new ≡ instr_replaced old.0 new.0 self.old }
    {
        replace_among(self.operands.as_mut_slice(), old, new);
    }

    /// Whether this instruction defines a register.
    pub fn defines(&self, reg: Reg) -> bool
        ensures { result ≡ list_any (is_def_of reg.0) self.now.operands }
    {
        self.operands.as_slice().iter().any(|x| x.is_def_of(reg))
    }
}

/// Makes each use of a register one of another.
fn replace_among(operands: &mut [Operand], old: Reg, new: Reg)
    ensures { operands.new ≡ map (operand_replaced old.0 new.0) operands.old }
{
    for x in operands.iter_mut() {
        *x = x.with_reg_replaced(old, new);
    }
}

impl Operand {
    /// This operand, where a use of one register is one of another.
    fn with_reg_replaced(self, old: Reg, new: Reg) -> Operand
        ensures { result ≡ operand_replaced old.0 new.0 self }
    {
        match self {
            Operand::Use(reg) => Operand::Use(if reg.0 == old.0 { new } else { reg }),
            _ => self,
        }
    }

    /// This operand, if it is a definition, with another kind.
    pub fn of_kind(self, kind: Kind) -> Operand
        ensures { result ≡ of_kind kind self }
    {
        match self {
            Operand::Def(reg, _) => Operand::Def(reg, kind),
            _ => self,
        }
    }

    /// Whether this operand defines a register.
    pub fn is_def_of(self, reg: Reg) -> bool
        ensures { result ≡ is_def_of reg.0 self }
    {
        match self {
            Operand::Def(defined, _) => defined.0 == reg.0,
            _ => false,
        }
    }
}
