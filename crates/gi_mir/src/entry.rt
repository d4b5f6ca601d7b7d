//! Entries of the table of opcodes.

use crate::row::{Access, Form};
use crate::typing::Signature;

/// The types that a value has in memory.
#[derive(Clone, Copy, Debug, PartialEq, Eq)]
pub enum InMemory {
    /// No value is there.
    Nothing,
    /// A pointer, or whole bytes, a power of two of them.
    Value,
    /// Such bytes, up to a register's width.
    Extended,
    /// So many bits, which may be a pointer's.
    Bits(u16),
}

/// What an opcode does to the course of its block.
#[derive(Clone, Copy, Debug, PartialEq, Eq)]
pub enum Role {
    Plain,
    Phi,
    Call,
    Return,
    /// A branch that is always taken.
    Jump,
    /// A branch that may not be taken.
    Branch,
}

/// Where an opcode stands: before selection, after it, or in both.
#[derive(Clone, Copy, Debug, PartialEq, Eq)]
pub enum Standing {
    Generic,
    Target,
    Both,
}

/// Whether an opcode may become a call of a routine of the runtime.
#[derive(Clone, Copy, Debug, PartialEq, Eq)]
pub enum RoutineCall {
    Never,
    /// Where its result is wider than a register.
    WhereWider,
    Always,
}

/// What is known of an opcode.
#[derive(Drop)]
pub struct Entry {
    pub word: &'static str,
    pub rows: &'static [&'static [Form]],
    pub access: Access,
    pub memory: InMemory,
    pub role: Role,
    pub standing: Standing,
    /// Whether a machine of 64 bits alone has it.
    pub is_wide: bool,
    /// None in an instruction of the machine, of whose registers nothing is demanded.
    pub signature: Option<Signature>,
    /// Whether its two operands may be exchanged.
    pub is_commutative: bool,
    pub routine_call: RoutineCall,
}
