//! The operands of an instruction.

use gi_llt::Llt;

/// A virtual register, by its number.
#[derive(Clone, Copy, Debug, Default, PartialEq, Eq)]
pub struct Reg(pub u32);

/// What a virtual register is: a type alone, a type and the bank `gprb`, or of class `gpr`.
#[derive(Clone, Copy, Debug, Default, PartialEq, Eq)]
pub enum Kind {
    Generic(Llt),
    Banked(Llt),
    #[default]
    Class,
}

/// The predicate of a comparison.
#[derive(Clone, Copy, Debug, Default, PartialEq, Eq)]
pub enum Pred {
    #[default]
    Eq,
    Ne,
    Ugt,
    Uge,
    Ult,
    Ule,
    Sgt,
    Sge,
    Slt,
    Sle,
}

/// What an instruction promises of its values.
#[derive(Clone, Copy, Debug, Default, PartialEq, Eq)]
pub struct Flags {
    pub nuw: bool,
    pub nsw: bool,
    pub exact: bool,
    pub disjoint: bool,
    pub nneg: bool,
}

/// A memory operand: a load or a store of a value of this type. `align` is in bytes, and 0 where none
/// is written for a pointer.
#[derive(Clone, Copy, Debug, PartialEq, Eq)]
pub struct MemOp {
    pub load: bool,
    pub ty: Llt,
    pub align: u64,
}

/// Which part of a symbol's address is meant.
#[derive(Clone, Copy, Debug, Default, PartialEq, Eq)]
pub enum SymbolFlag {
    #[default]
    Plain,
    Call,
    Hi,
    Lo,
}

/// An operand.
#[derive(Clone, Copy, Debug, Default, PartialEq, Eq)]
pub enum Operand {
    /// A virtual register that is defined, and what it is.
    Def(Reg, Kind),
    /// A virtual register that is read.
    Use(Reg),
    /// A physical register that is read.
    Phys(u8),
    /// A physical register that is written.
    PhysDef(u8),
    /// A physical register that is read beside what the instruction shows.
    ImplicitUse(u8),
    /// A physical register that is written beside what the instruction shows.
    ImplicitDef(u8),
    /// A whole number.
    Int(i128),
    /// A constant of so many bits.
    Constant(u16, u128),
    /// A block, by its place in layout.
    Block(u32),
    /// The predicate of a comparison.
    Predicate(Pred),
    /// A stack object, by its place.
    Frame(u32),
    /// A global, by the number of its name.
    Global(SymbolFlag, u32),
    /// A routine of the runtime, by its place among the routines.
    Routine(SymbolFlag, u8),
    /// The registers that a call keeps.
    #[default]
    SavedMask,
}

/// A stack object. Its size and its alignment are in bytes.
#[derive(Clone, Copy, Debug, PartialEq, Eq)]
pub struct StackObject {
    pub size: u64,
    pub align: u64,
}
