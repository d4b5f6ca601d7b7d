//! What can be wrong with a function.

use gi_mir::operand::{Operand, Reg};

/// A fault, in the order in which faults of one line are told.
#[derive(Clone, Copy, Debug, PartialEq, Eq)]
pub enum Invalid {
    /// A virtual register has a second definition.
    DoubleDefinition(Reg),
    /// A register is used where it isn't available.
    NotAvailable(Operand),
    /// With the type of this register, no types of the later ones meet the row, or a constant isn't as wide as this register.
    TypeMismatch(Reg),
    /// A block is named that isn't there.
    UnknownBlock(u32),
    /// A phi stands wrong, or hasn't one entry for each predecessor.
    PhiEntries,
    /// A physical register is used behind an instruction that may overwrite it.
    PhysicalAcross(u8),
    /// An instruction stands behind the terminators, or a branch goes to no successor.
    Terminator,
}

/// A fault and the line that it stands on.
#[derive(Clone, Copy, Debug, PartialEq, Eq)]
pub struct Fault {
    pub line: u32,
    pub what: Invalid,
}
