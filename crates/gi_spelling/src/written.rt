//! A line of a block as it is written.

use crate::token::{RegisterClass, Word};
use gi_llt::Llt;
use gi_mir::opcode::Opcode;
use gi_mir::operand::{Flags, Kind, Pred, Reg, SymbolFlag};
use gi_text::Number;
use std::marker::Model;

/// A definition.
#[derive(Clone, Copy, Debug, PartialEq, Eq)]
pub enum Definition {
    /// `%0`
    Bare(Reg),
    /// `%0(s32)`
    Typed(Reg, Llt),
    /// `%0:_(s32)`, `%0:gprb(s32)`, `%0:gpr`
    Full(Reg, Kind),
    /// `$x10`
    Physical(u8),
}

/// Where the numbers of no block begin among the places of blocks.
pub const FIRST_OF_NO_BLOCK: u32 = 65536;

/// An operand that is no definition.
#[derive(Clone, Copy, Debug, PartialEq, Eq)]
pub enum Source {
    /// `%0`
    Use(Reg),
    /// `%0(s32)`
    TypedUse(Reg, Llt),
    /// `$x10`
    Physical(u8),
    /// `implicit $x10`
    ImplicitUse(u8),
    /// `implicit-def $x10`
    ImplicitDef(u8),
    /// `-5`
    Int(Number),
    /// `i32 -5`, and whether the number is written as it is printed
    Constant(u16, Number, bool),
    /// `i1 true`
    Truth(u16, bool),
    /// `%bb.2`
    Block(u32),
    /// `intpred(eq)`
    Predicate(Pred),
    /// `%stack.0`
    Frame(u32),
    /// `@name`, by the place of its token in the text
    Global(SymbolFlag, usize),
    /// `&name`
    Routine(SymbolFlag, u8),
    /// `csr_ilp32_lp64`
    SavedMask,
}

/// A memory operand: `(load (s32), align 2)`.
#[derive(Clone, Copy, Debug, PartialEq, Eq)]
pub struct Memory {
    pub load: bool,
    pub ty: Llt,
    pub align: Option<u128>,
}

/// What stands between two parts of a line: `,`, `=` or `::`.
#[derive(Clone, Copy, Debug, PartialEq, Eq)]
pub enum Separator {
    Comma,
    Equals,
    Colons,
}

/// An instruction.
#[derive(Drop)]
pub struct Written {
    pub definitions: Vec<Definition>,
    pub flags: Flags,
    pub op: Opcode,
    pub sources: Vec<Source>,
    pub memory: Option<Memory>,
}

impl Model for Written {
    ghost use Rattle.gi_spelling.specs.Written.{WrittenData};

    ghost Value = { WrittenData };

    ghost view = { λ a. record { definitions = a.definitions.items; flags = a.flags; op = a.op; sources = a.sources.items; memory = a.memory } };
}

/// An entry of `registers` or `stack`: the fields that count, as far as they are there.
#[derive(Clone, Copy, Debug, Default, PartialEq, Eq)]
pub struct Fields {
    pub id: Option<u128>,
    pub class: Option<RegisterClass>,
    pub size: Option<u128>,
    pub alignment: Option<u128>,
}

/// Why a line spells nothing. `Unknown` is told with the place of the word that is in no table.
#[derive(Clone, Copy, Debug, PartialEq, Eq)]
pub enum Fault {
    Syntax,
    Unknown { start: usize, end: usize },
}

/// A line at which something is wrong.
#[derive(Clone, Copy, Debug, PartialEq, Eq)]
pub struct Wrong {
    pub line: u32,
    pub fault: Fault,
}

/// A type that a use shows, and the line that it stands on.
#[derive(Clone, Copy, Debug, PartialEq, Eq)]
pub struct Shown {
    pub line: u32,
    pub reg: Reg,
    pub ty: Llt,
}

/// What stands behind the key of a list: nothing, `[]` or something else.
#[derive(Clone, Copy, Debug, PartialEq, Eq)]
pub enum ListValue {
    Entries,
    NoEntries,
    NoList,
}

/// Where in an entry its next token stands.
#[derive(Clone, Copy, Debug, PartialEq, Eq)]
pub enum EntryState {
    AtDash,
    AtBrace,
    AtKey,
    AtColon(Word),
    AtValue(Word),
    AtSeparator,
    /// In a value that is passed over, so many brackets deep.
    Passing(u128),
    AtEnd,
}

/// An entry as far as it is read.
#[derive(Clone, Copy, Debug, PartialEq, Eq)]
pub struct Entry {
    pub state: EntryState,
    pub fields: Fields,
}

/// An entry of `stack`: the number of its last line, and its fields where nothing in it is wrong.
#[derive(Clone, Copy, Debug, PartialEq, Eq)]
pub struct StackEntry {
    pub line: u32,
    pub fields: Option<Fields>,
}

/// Whether an entry is one of `registers` or one of `stack`.
#[derive(Clone, Copy, Debug, PartialEq, Eq)]
pub enum EntryKind {
    Register,
    Object,
}

/// A key of a document that counts.
#[derive(Clone, Copy, Debug, PartialEq, Eq)]
pub enum Key {
    Name,
    Legalized,
    Banked,
    Selected,
    Registers,
    Stack,
    Body,
}

/// What a line at the head of a block lists.
#[derive(Clone, Copy, Debug, PartialEq, Eq)]
pub enum ListKind {
    Successors,
    Liveins,
}
