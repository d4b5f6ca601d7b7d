//! What the plain programs give for a row of an instruction.

use crate::reading::text_of;
use gi_meaning::bits::has_bits;
use gi_meaning::gives::Gives;
use gi_meaning::words::{of_immediate, of_number, of_registers};
use gi_mir::opcode::Opcode;
use gi_mir::operand::Flags;
use std::alloc::{AllocError, Global};

/// What an instruction gives of a register and a second operand, which is a register or a number.
fn of_two(op: Opcode, x: u16, a: u128, second: &str) -> Gives {
    if x != 32 && x != 64 || !has_bits(x, a) {
        return Gives::Undefined;
    }
    let number = second.parse::<i128>().unwrap_or(0);
    match of_immediate(op, Flags::default(), x, a, number) {
        Gives::Undefined => {
            let b = second.parse::<u128>().unwrap_or(0);
            if has_bits(x, b) {
                of_registers(op, Flags::default(), x, a, b)
            } else {
                Gives::Undefined
            }
        }
        gives => gives,
    }
}

/// What an instruction gives of a number alone.
fn of_one(op: Opcode, x: u16, number: &str) -> Gives {
    if x == 32 || x == 64 {
        of_number(op, Flags::default(), x, number.parse::<i128>().unwrap_or(0))
    } else {
        Gives::Undefined
    }
}

/// What the plain programs give for a row, as the table writes it.
pub fn instruction_result(
    alloc: Global,
    op: Opcode,
    width: &str,
    operands: &str,
) -> Result<String, AllocError> {
    let x = width.parse::<u16>().unwrap_or(0);
    let gives = match operands.split_once(' ') {
        Some((first, second)) => of_two(op, x, first.parse::<u128>().unwrap_or(0), second),
        None => of_one(op, x, operands),
    };
    text_of(alloc, gives)
}
