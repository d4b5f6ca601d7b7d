//! What a printer knows of a function's registers.

ghost use Rattle.std.specs.Prelude.{◌≡◌, ℕ, [], flat_map, OnOk, IfOk};
ghost use Rattle.gi_mir.specs.Instrs.{left};
ghost use Rattle.gi_mir.specs.Numbering.{number_in, with_register, order_of, registers_in_operand, registers_in_instr};
ghost use Rattle.gi_mir.specs.Registers.{first_there, kind_in_operand, kind_in_operands, kind_in_instrs, kind_in_blocks};
ghost use Rattle.gi_registers.specs.Noted.{kind_noted};
ghost use Rattle.gi_mir_print.specs.Shown.{IsNoted, kind_at};

use gi_llt::Memory;
use gi_mir::block::Numbered;
use gi_mir::function::Function;
use gi_mir::instrs::Instrs;
use gi_mir::operand::{Kind, Operand, Reg};
use gi_registers::kinds::RegisterKinds;
use gi_registers::set::RegisterSet;
use std::alloc::Global;
use std::marker::Model;

/// The registers of a function in the order of their first appearance, and the kind of each at its first
/// definition.
#[derive(Drop)]
pub(crate) struct Registers {
    order: RegisterSet,
    kinds: RegisterKinds,
}

impl Model for Registers {
    ghost use Rattle.gi_registers.specs.Noted.{kind_noted};
    ghost use Rattle.gi_mir_print.specs.Shown.{RegistersData};

    ghost Value = { RegistersData };

    ghost view = { λ a. record { order = a.order; kinds = a.kinds } };
}

/// The place of a register in the order, and a number past the end where it has none.
fn number_among(order: &RegisterSet, reg: Reg) -> u64
    ensures { result ≡ number_in order.now reg.0 }
{
    let count = order.len() as u64;
    match order.index_of(reg) {
        Some(place) => place as u64,
        None => count + reg.0 as u64,
    }
}

impl Registers {
    /// No registers.
    pub(crate) fn new(alloc: Global) -> Registers
        ensures order { result.order ≡ [] }
        ensures kinds { result.kinds ≡ [] }
    {
        Registers {
            order: RegisterSet::new(alloc),
            kinds: RegisterKinds::new(alloc),
        }
    }

    /// The number that a register is shown with.
    pub(crate) fn number(&self, reg: Reg) -> u64
        ensures { result ≡ number_in self.now.order reg.0 }
    {
        number_among(&self.order, reg)
    }

    /// What a register is.
    pub(crate) fn kind(&self, reg: Reg) -> Kind
        ensures { result ≡ kind_at self.now (number_in self.now.order reg.0) }
    {
        self.kinds.kind_or_class(reg)
    }

    /// Notes the register of an operand, and its kind where it is defined.
    fn note_operand(&mut self, operand: Operand) -> Result<(), Memory>
        ensures { OnOk result (IsNoted self.old self.new (registers_in_operand operand) (λ r. kind_in_operand r operand)) }
    {
        match operand {
            Operand::Def(reg, kind) => {
                self.order.insert(reg)?;
                self.kinds.note(reg, kind)?;
                Ok(())
            }
            Operand::Use(reg) => {
                self.order.insert(reg)?;
                Ok(())
            }
            _ => Ok(()),
        }
    }

    /// Notes the registers of operands.
    fn note_operands(&mut self, operands: &[Operand]) -> Result<(), Memory>
        ensures { OnOk result (IsNoted self.old self.new (flat_map registers_in_operand operands.now) (λ r. kind_in_operands r operands.now)) }
    {
        for operand in operands {
            self.note_operand(*operand)?;
        }
        Ok(())
    }

    /// Notes the registers of an instruction.
    fn note_instr(&mut self, numbered: &Numbered) -> Result<(), Memory>
        ensures { OnOk result (IsNoted self.old self.new (registers_in_instr numbered.now) (λ r. kind_in_operands r (numbered.now).1.operands)) }
    {
        self.note_operands(numbered.instr.operands.as_slice())
    }

    /// Notes the registers of a block.
    fn note_instrs(&mut self, instrs: Instrs<'_>) -> Result<(), Memory>
        ensures { OnOk result (IsNoted self.old self.new (flat_map registers_in_instr (left instrs.entry)) (λ r. kind_in_instrs r (left instrs.entry))) }
    {
        for numbered in instrs {
            self.note_instr(numbered)?;
        }
        Ok(())
    }

    /// Notes the registers of a function.
    pub(crate) fn of(alloc: Global, function: &Function) -> Result<Registers, Memory>
        ensures order { IfOk result (λ registers. registers.order ≡ order_of function.now) }
        ensures kinds { IfOk result (λ registers. (r : ℕ) → kind_noted registers.kinds r ≡ kind_in_blocks r function.now.blocks) }
    {
        let mut registers = Registers::new(alloc);
        for place in 0..function.block_count() {
            registers.note_instrs(function.instrs(place))?;
        }
        Ok(registers)
    }
}
