//! Why a line isn't read.

use gi_ir_spelling::place::Fault;
use gi_llt::Memory;

/// A fault of the line, or no memory.
#[derive(Clone, Copy, Debug, PartialEq, Eq)]
pub enum Stop {
    Fault(Fault),
    Memory,
}
