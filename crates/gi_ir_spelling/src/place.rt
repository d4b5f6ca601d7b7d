//! The places of a line.

use crate::token::{Item, Mark, Operation, Word};

/// The types that a place takes.
#[derive(Clone, Copy, Debug, PartialEq, Eq)]
pub enum Types {
    Integers,
    IntegersAndPointers,
    /// `i1`
    Bits,
    Pointers,
    AllButVoid,
}

/// The type of values, as far as their form depends on it.
#[derive(Clone, Copy, Debug, PartialEq, Eq)]
pub enum Scalar {
    Bit,
    Integer,
    Pointer,
}

/// Some of the flags.
#[derive(Clone, Copy, Debug, PartialEq, Eq)]
pub struct FlagSet {
    pub no_unsigned_wrap: bool,
    pub no_signed_wrap: bool,
    pub exact: bool,
    pub disjoint: bool,
    pub non_negative: bool,
    pub same_sign: bool,
    pub in_bounds: bool,
    pub no_unsigned_signed_wrap: bool,
}

/// A place of a line, where a token may stand.
#[derive(Clone, Copy, Debug, PartialEq, Eq)]
pub enum Slot {
    /// The first token of a line: the name of a result, or an operation.
    Begin,
    Operation,
    /// A type of which values follow.
    Typed(Types),
    /// A type of which none follow.
    Bare(Types),
    /// Behind `ptr`, where `addrspace` isn't taken.
    NoAddressSpace,
    /// Behind a type that the place doesn't take.
    Refused,
    /// How many elements an array has.
    ElementCount,
    /// Behind the brace of a struct, and behind each of its fields.
    Fields,
    MoreFields,
    /// A value of the type before, and a constant.
    Value,
    Constant,
    /// Behind `getelementptr` in a constant: the flags that may still stand, or its bracket.
    ConstantFlags(FlagSet),
    /// The global of a constant getelementptr.
    Base,
    ConstantIndices,
    ConstantIndexType,
    ConstantIndex(Scalar),
    /// The flags that may still stand.
    Flags(FlagSet),
    Predicate,
    Keyword(Word),
    Punctuation(Mark),
    /// The name of a block.
    BlockName,
    /// `, align N` or nothing.
    Align,
    AlignWord,
    Alignment,
    /// The indices of a getelementptr.
    Indices,
    /// An entry of a phi, and what follows one.
    Entry,
    Entries,
    /// A case of a switch, or its end.
    Cases,
    /// Behind `br`.
    Target,
    /// Behind `ret`.
    Returned,
}

/// Places that follow one another.
#[derive(Clone, Copy, Debug, PartialEq, Eq)]
pub enum Row {
    Nothing,
    Assigned,
    Form(Operation),
    AddressSpaces,
    Array,
    Struct,
    RefusedType,
    OtherFields,
    NextField,
    ElementFlags(FlagSet),
    ConstantElement,
    OtherFlags(FlagSet),
    NextConstantIndex,
    IndexOf(Scalar),
    AlignFollows,
    AlignmentFollows,
    NextIndex,
    EntryOfPhi,
    NextEntry,
    CaseOfSwitch,
    BlockFollows,
    TwoBlocks,
    ReturnedValue,
}

/// What begins with a token in the place of a type.
#[derive(Clone, Copy, Debug, PartialEq, Eq)]
pub enum TypeStart {
    /// An integer or a pointer.
    Single(Scalar),
    /// A type with a name.
    Whole,
    /// An array or a struct, and whether the place takes it.
    Nested(Row, bool),
    Unknown,
    Wrong,
}

/// What a place says of a token.
#[derive(Clone, Copy, Debug, PartialEq, Eq)]
pub enum Choice {
    /// It takes the token, and two rows of places follow.
    Take(Row, Row),
    /// It takes a type of which values follow.
    TakeType(Scalar, Row, Row),
    /// Nothing need stand in the place, and the token goes to the next.
    Pass,
    /// The token is unknown there.
    Unknown,
    /// The token can't stand there.
    Wrong,
}

/// A token in the place that takes it.
#[derive(Clone, Copy, Debug, PartialEq, Eq)]
pub struct Placed {
    pub slot: Slot,
    pub item: Item,
}

/// What is wrong with a line: a token of these bytes is unknown, or something else is.
#[derive(Clone, Copy, Debug, PartialEq, Eq)]
pub enum Fault {
    Syntax,
    Unknown(usize, usize),
}

/// What the first place that isn't passed says of a token, if there is one.
#[derive(Clone, Copy, Debug, PartialEq, Eq)]
pub enum Found {
    Place(Slot, Choice),
    End,
}
