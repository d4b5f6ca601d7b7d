//! Tokens, and what may be wrong in a text.

/// The kind of a token.
#[derive(Clone, Copy, Debug, PartialEq, Eq)]
pub enum TokenKind {
    Word,
    Number,
    Register,
    Physical,
    Global,
    Routine,
    Quoted,
    Metadata,
    Mark,
}

/// A token: its kind, where its bytes begin, and where they have ended.
#[derive(Clone, Copy, Debug, PartialEq, Eq)]
pub struct Token {
    pub kind: TokenKind,
    pub start: usize,
    pub end: usize,
}

/// What comes next in a line.
#[derive(Clone, Copy, Debug, PartialEq, Eq)]
pub enum NextToken {
    Found(Token),
    /// No token is left.
    End,
    /// A byte begins no token, or a number is too great.
    Wrong,
}

/// A place in a text: a line, and a byte of the line, counted from 1.
#[derive(Clone, Copy, Debug, PartialEq, Eq)]
pub struct Place {
    pub line: u32,
    pub column: u32,
}

/// Why a line isn't cut into tokens.
#[derive(Clone, Copy, Debug, PartialEq, Eq)]
pub enum LineError {
    /// A byte begins no token.
    BadToken(Place),
    /// A number is too great.
    BadNumber(Place),
    /// Memory ran out.
    Memory,
}

/// What a number token writes: whether a minus stands before it, and its size.
#[derive(Clone, Copy, Debug, PartialEq, Eq)]
pub struct Number {
    pub negative: bool,
    pub size: u128,
}

/// Why a text isn't read.
#[derive(Clone, Copy, Debug, PartialEq, Eq)]
pub enum TextError {
    /// The line spells nothing.
    Syntax { line: u32 },
    /// Nothing is known under the word, which is a slice of the text.
    Unknown { line: u32, start: usize, end: usize },
    /// Memory ran out.
    Memory,
}

/// Why a text that is read passes what is handled.
#[derive(Clone, Copy, Debug, PartialEq, Eq)]
pub enum SizeError {
    /// A scalar of too many bits.
    Width { line: u32, bits: u16 },
    /// A number above its limit.
    Limit { line: u32, number: u64 },
}
