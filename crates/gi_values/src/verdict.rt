//! Whether a row of a table holds.

use crate::instructions::instruction_result;
use crate::opcodes::opcode_result;
use gi_mir::opcode::Opcode;
use std::alloc::{AllocError, Global};

/// What a row says.
#[derive(Debug, Drop)]
pub enum Verdict {
    /// Nothing: it is empty, or a comment.
    Comment,
    /// The program gives the same.
    Passed,
    /// Its opcode isn't one of this project's.
    Apart,
    /// The program gives this instead.
    Differs(String),
}

/// The verdict on what the program gives, against what the row wants.
fn compared(got: String, wanted: &str) -> Verdict {
    if got.as_str() == wanted {
        Verdict::Passed
    } else {
        Verdict::Differs(got)
    }
}

/// The verdict on a row of an opcode: its flag, its predicate or number, the types of its results and of its
/// operands, the operands' values and the results.
fn opcode_verdict(alloc: Global, columns: &[&str]) -> Result<Verdict, AllocError> {
    match columns {
        [word, flag, test, results, sources, values, wanted] => match Opcode::from_word(word) {
            None => Ok(Verdict::Apart),
            Some(op) => {
                let got = opcode_result(alloc, op, flag, test, results, sources, values)?;
                Ok(compared(got, wanted))
            }
        },
        _ => Ok(Verdict::Differs(String::from_str(alloc, "no row")?)),
    }
}

/// The verdict on a row of an instruction: the width of a register, its word, its operands and its result.
fn instruction_verdict(alloc: Global, columns: &[&str]) -> Result<Verdict, AllocError> {
    match columns {
        [width, word, operands, wanted] => {
            let upper = word.to_ascii_uppercase(alloc)?;
            match Opcode::from_word(upper.as_str()) {
                None => Ok(Verdict::Apart),
                Some(op) => {
                    let got = instruction_result(alloc, op, width, operands)?;
                    Ok(compared(got, wanted))
                }
            }
        }
        _ => opcode_verdict(alloc, columns),
    }
}

/// The verdict on a line.
pub fn verdict_of(alloc: Global, line: &str) -> Result<Verdict, AllocError> {
    if line.is_empty() || line.starts_with('#') {
        return Ok(Verdict::Comment);
    }
    let mut columns = Vec::new(alloc);
    for column in line.split('\t') {
        columns.push(column)?;
    }
    instruction_verdict(alloc, columns.as_slice())
}
