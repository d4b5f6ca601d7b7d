//! The five shapes of instructions that are selected so far.

ghost use Rattle.std.specs.Prelude.{◌≡◌};
ghost use Rattle.gi_answer.specs.Shapes.{are_shaped, is_argument, is_banked_word, is_copied, is_negative_immediate, is_plain, is_returned, is_shaped, is_short, is_short_constant, is_sum};

use gi_llt::Llt;
use gi_mir::instr::Instr;
use gi_mir::opcode::Opcode;
use gi_mir::operand::{Flags, Kind, Operand};

/// Whether a register is of 32 bits and of the bank `gprb`.
fn is_banked_word(kind: Kind) -> bool
    ensures { result ≡ is_banked_word kind }
{
    match kind {
        Kind::Banked(Llt::Scalar(bits)) => bits == 32,
        _ => false,
    }
}

/// Whether a physical register is one of `$x10` to `$x17`.
fn is_argument(number: u8) -> bool
    ensures { result ≡ is_argument number }
{
    10 <= number && number <= 17
}

/// Whether 32 bits stand for a number from -2048 to -1.
pub fn is_negative_immediate(value: u128) -> bool
    ensures { result ≡ is_negative_immediate value }
{
    4_294_965_248 <= value && value < 4_294_967_296
}

/// Whether 32 bits stand for a number from -2048 to 2047.
fn is_short(value: u128) -> bool
    ensures { result ≡ is_short value }
{
    value < 2048 || is_negative_immediate(value)
}

/// Whether an instruction has none of the flags.
fn is_plain(flags: Flags) -> bool
    ensures { result ≡ is_plain flags }
{
    !flags.nuw && !flags.nsw && !flags.exact && !flags.disjoint && !flags.nneg
}

/// Whether a copy is one of a physical register into a virtual one, or the other way.
fn is_copied(operands: &[Operand]) -> bool
    ensures { result ≡ is_copied operands.now }
{
    match operands {
        [Operand::Def(_, kind), Operand::Phys(number)] => {
            is_banked_word(*kind) && is_argument(*number)
        }
        [Operand::PhysDef(number), Operand::Use(_)] => is_argument(*number),
        _ => false,
    }
}

/// Whether a constant is a short one of 32 bits.
fn is_short_constant(operands: &[Operand]) -> bool
    ensures { result ≡ is_short_constant operands.now }
{
    match operands {
        [Operand::Def(_, kind), Operand::Constant(bits, value)] => {
            is_banked_word(*kind) && *bits == 32 && is_short(*value)
        }
        _ => false,
    }
}

/// Whether a sum is one of 32 bits.
fn is_sum(operands: &[Operand]) -> bool
    ensures { result ≡ is_sum operands.now }
{
    match operands {
        [Operand::Def(_, kind), Operand::Use(_), Operand::Use(_)] => is_banked_word(*kind),
        _ => false,
    }
}

/// Whether a return is one of `$x10` alone.
fn is_returned(operands: &[Operand]) -> bool
    ensures { result ≡ is_returned operands.now }
{
    match operands {
        [Operand::ImplicitUse(number)] => *number == 10,
        _ => false,
    }
}

/// Whether the operands are those of one of the five shapes.
fn are_shaped(op: Opcode, operands: &[Operand]) -> bool
    ensures { result ≡ are_shaped op operands.now }
{
    match op {
        Opcode::Copy => is_copied(operands),
        Opcode::GenericConstant => is_short_constant(operands),
        Opcode::GenericAdd => is_sum(operands),
        Opcode::PseudoReturn => is_returned(operands),
        _ => false,
    }
}

/// Whether an instruction is of one of the five shapes.
pub fn is_shaped(instr: &Instr) -> bool
    ensures { result ≡ is_shaped instr.now }
{
    is_plain(instr.flags) && instr.mem.is_none() && are_shaped(instr.op, instr.operands.as_slice())
}
