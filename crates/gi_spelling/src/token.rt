//! What the tokens of Machine IR mean by themselves.

use gi_llt::Llt;
use gi_mir::opcode::Opcode;
use gi_mir::operand::{Pred, SymbolFlag};
use gi_text::Number;

/// A flag of an instruction, in the order in which flags stand.
#[derive(Clone, Copy, Debug, PartialEq, Eq)]
pub enum Flag {
    NoUnsignedWrap,
    NoSignedWrap,
    Exact,
    Disjoint,
    NonNegative,
}

/// What a definition names as the class of its register: `_`, `gprb` or `gpr`.
#[derive(Clone, Copy, Debug, PartialEq, Eq)]
pub enum RegisterClass {
    Generic,
    Banked,
    General,
}

/// What a word is in one of the tables. A number above its bound counts as the bound.
#[derive(Clone, Copy, Debug, PartialEq, Eq)]
pub enum Word {
    Opcode(Opcode),
    /// `DBG_` and more
    Debug,
    Flag(Flag),
    Class(RegisterClass),
    /// `s32`, `p0`
    Type(Llt),
    /// `i32`
    Integer(u16),
    True,
    False,
    Predicate(Pred),
    /// `intpred`
    Comparison,
    /// `implicit`
    Implicit,
    /// `implicit-def`
    ImplicitDef,
    /// `target-flags`
    TargetFlags,
    /// `riscv-call`, `riscv-hi`, `riscv-lo`
    SymbolFlag(SymbolFlag),
    /// `csr_ilp32_lp64`
    SavedMask,
    Load,
    Store,
    Align,
    /// `bb.2`, `bb.2.name`
    BlockHead(u32),
    Successors,
    Liveins,
    /// `id`, `class`, `size`, `alignment`: the fields of an entry that count
    Id,
    ClassField,
    Size,
    Alignment,
    /// a word that is passed over in a line of a block
    Passed,
    /// `from`, `into`: passed over with what follows
    Origin,
    /// `debug-location`: passed over with the metadata behind it
    DebugLocation,
    /// `debug-instr-number`, `basealign`: passed over with the number behind it
    Counted,
    Unknown,
}

/// What a token is.
#[derive(Clone, Copy, Debug, PartialEq, Eq)]
pub enum What {
    Word(Word),
    /// A number. It is plain where it is written as it is printed.
    Number(Number, bool),
    /// `%7`
    Register(u32),
    /// `%bb.7`
    Block(u32),
    /// `%stack.7`, `%stack.7.name`
    Frame(u32),
    /// `$x7`
    Physical(u8),
    /// `@name`
    Global,
    /// `&name` of a routine, by its place among the routines
    Routine(u8),
    /// `&name` of no routine
    UnknownRoutine,
    /// `!name`, and whether digits alone stand behind the mark
    Metadata(bool),
    Comma,
    Equals,
    Colon,
    Open,
    Close,
    OpenBrace,
    CloseBrace,
    OpenSquare,
    CloseSquare,
    Minus,
    Bar,
    /// A token that stands in no form.
    Other,
}

/// A token of a text: what it is, where its bytes begin, and where they have ended.
#[derive(Clone, Copy, Debug, PartialEq, Eq)]
pub struct Item {
    pub what: What,
    pub start: usize,
    pub end: usize,
}
