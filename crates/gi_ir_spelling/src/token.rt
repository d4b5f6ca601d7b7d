//! What the tokens of LLVM IR mean by themselves.

use gi_mir::operand::Pred;
use gi_text::Number;

/// A flag of an instruction.
#[derive(Clone, Copy, Debug, PartialEq, Eq)]
pub enum Flag {
    NoUnsignedWrap,
    NoSignedWrap,
    Exact,
    Disjoint,
    NonNegative,
    SameSign,
    InBounds,
    NoUnsignedSignedWrap,
}

/// The word of an instruction, but for calls.
#[derive(Clone, Copy, Debug, PartialEq, Eq)]
pub enum Operation {
    Add,
    Subtract,
    Multiply,
    ShiftLeft,
    UnsignedDivide,
    SignedDivide,
    LogicalShiftRight,
    ArithmeticShiftRight,
    UnsignedRemainder,
    SignedRemainder,
    And,
    Or,
    ExclusiveOr,
    Truncate,
    ZeroExtend,
    SignExtend,
    PointerToInteger,
    IntegerToPointer,
    Compare,
    Select,
    Freeze,
    Phi,
    Alloca,
    Load,
    Store,
    Element,
    Branch,
    Switch,
    Return,
    Unreachable,
}

/// What a word is. The bits of an integer type are at most 65,535.
#[derive(Clone, Copy, Debug, PartialEq, Eq)]
pub enum Word {
    /// `i32`
    Integer(u16),
    /// `ptr`
    Pointer,
    Void,
    Flag(Flag),
    Predicate(Pred),
    Operation(Operation),
    True,
    False,
    Null,
    Undef,
    Poison,
    To,
    Label,
    /// `x`, between the number of an array's elements and their type
    Times,
    Align,
    /// `addrspace`
    AddressSpace,
    Unknown,
}

/// A mark that stands in a form.
#[derive(Clone, Copy, Debug, PartialEq, Eq)]
pub enum Mark {
    Comma,
    Equals,
    Open,
    Close,
    OpenSquare,
    CloseSquare,
    OpenBrace,
    CloseBrace,
}

/// What a local name names, by its number: a type of the module, a value or a block of the function.
#[derive(Clone, Copy, Debug, PartialEq, Eq)]
pub struct Named {
    pub ty: Option<u32>,
    pub value: Option<u32>,
    pub block: Option<u32>,
}

/// What a token is.
#[derive(Clone, Copy, Debug, PartialEq, Eq)]
pub enum What {
    Word(Word),
    /// A number, and whether it is decimal.
    Number(Number, bool),
    /// `%x`
    Local(Named),
    /// `@x`
    Global,
    /// `!x`
    Metadata,
    Mark(Mark),
    /// A token that stands in no form.
    Other,
}

/// A token of a text: what it is, where its bytes begin, and where they have ended.
#[derive(Clone, Copy, Debug, PartialEq, Eq)]
pub struct Item {
    pub what: What,
    pub start: usize,
    pub end: usize,
}
