//! Rows of places.

ghost use Rattle.std.specs.Prelude.{◌≡◌};
ghost use Rattle.gi_ir_spelling.specs.Grammar.{form_of};

use gi_ir_spelling::place::{FlagSet, Slot, Types};
use gi_ir_spelling::token::{Mark, Operation, Word};

const NO_FLAGS: FlagSet = FlagSet {
    no_unsigned_wrap: false,
    no_signed_wrap: false,
    exact: false,
    disjoint: false,
    non_negative: false,
    same_sign: false,
    in_bounds: false,
    no_unsigned_signed_wrap: false,
};

const WRAPPING: FlagSet = FlagSet {
    no_unsigned_wrap: true,
    no_signed_wrap: true,
    ..NO_FLAGS
};

const EXACT: FlagSet = FlagSet {
    exact: true,
    ..NO_FLAGS
};

const DISJOINT: FlagSet = FlagSet {
    disjoint: true,
    ..NO_FLAGS
};

const NON_NEGATIVE: FlagSet = FlagSet {
    non_negative: true,
    ..NO_FLAGS
};

const SAME_SIGN: FlagSet = FlagSet {
    same_sign: true,
    ..NO_FLAGS
};

pub(crate) const ELEMENT_FLAGS: FlagSet = FlagSet {
    no_unsigned_wrap: true,
    in_bounds: true,
    no_unsigned_signed_wrap: true,
    ..NO_FLAGS
};

/// A comma, and the word before the name of a block.
pub(crate) const COMMA: Slot = Slot::Punctuation(Mark::Comma);

pub(crate) const LABEL: Slot = Slot::Keyword(Word::Label);

/// Arithmetic with its flags.
const WRAPPING_ARITHMETIC: &[Slot] = &[
    Slot::Flags(WRAPPING),
    Slot::Typed(Types::Integers),
    Slot::Value,
    COMMA,
    Slot::Value,
];

const EXACT_ARITHMETIC: &[Slot] = &[
    Slot::Flags(EXACT),
    Slot::Typed(Types::Integers),
    Slot::Value,
    COMMA,
    Slot::Value,
];

const DISJOINT_ARITHMETIC: &[Slot] = &[
    Slot::Flags(DISJOINT),
    Slot::Typed(Types::Integers),
    Slot::Value,
    COMMA,
    Slot::Value,
];

const PLAIN_ARITHMETIC: &[Slot] = &[
    Slot::Flags(NO_FLAGS),
    Slot::Typed(Types::Integers),
    Slot::Value,
    COMMA,
    Slot::Value,
];

/// Casts with their flags.
const WRAPPING_CAST: &[Slot] = &[
    Slot::Flags(WRAPPING),
    Slot::Typed(Types::IntegersAndPointers),
    Slot::Value,
    Slot::Keyword(Word::To),
    Slot::Bare(Types::IntegersAndPointers),
];

const NON_NEGATIVE_CAST: &[Slot] = &[
    Slot::Flags(NON_NEGATIVE),
    Slot::Typed(Types::IntegersAndPointers),
    Slot::Value,
    Slot::Keyword(Word::To),
    Slot::Bare(Types::IntegersAndPointers),
];

const PLAIN_CAST: &[Slot] = &[
    Slot::Flags(NO_FLAGS),
    Slot::Typed(Types::IntegersAndPointers),
    Slot::Value,
    Slot::Keyword(Word::To),
    Slot::Bare(Types::IntegersAndPointers),
];

const COMPARE: &[Slot] = &[
    Slot::Flags(SAME_SIGN),
    Slot::Predicate,
    Slot::Typed(Types::IntegersAndPointers),
    Slot::Value,
    COMMA,
    Slot::Value,
];

const SELECT: &[Slot] = &[
    Slot::Typed(Types::Bits),
    Slot::Value,
    COMMA,
    Slot::Typed(Types::IntegersAndPointers),
    Slot::Value,
    COMMA,
    Slot::Typed(Types::IntegersAndPointers),
    Slot::Value,
];

const LOAD: &[Slot] = &[
    Slot::Bare(Types::IntegersAndPointers),
    COMMA,
    Slot::Typed(Types::Pointers),
    Slot::Value,
    Slot::Align,
];

const STORE: &[Slot] = &[
    Slot::Typed(Types::IntegersAndPointers),
    Slot::Value,
    COMMA,
    Slot::Typed(Types::Pointers),
    Slot::Value,
    Slot::Align,
];

const ELEMENT: &[Slot] = &[
    Slot::Flags(ELEMENT_FLAGS),
    Slot::Bare(Types::AllButVoid),
    COMMA,
    Slot::Typed(Types::Pointers),
    Slot::Value,
    Slot::Indices,
];

const SWITCH: &[Slot] = &[
    Slot::Typed(Types::Integers),
    Slot::Value,
    COMMA,
    LABEL,
    Slot::BlockName,
    Slot::Punctuation(Mark::OpenSquare),
    Slot::Cases,
];

/// What stands behind the word of an operation.
pub(crate) fn form_of(operation: Operation) -> &'static [Slot]
    ensures { result.now ≡ form_of operation }
{
    match operation {
        Operation::Add | Operation::Subtract | Operation::Multiply | Operation::ShiftLeft => {
            WRAPPING_ARITHMETIC
        }
        Operation::UnsignedDivide
        | Operation::SignedDivide
        | Operation::LogicalShiftRight
        | Operation::ArithmeticShiftRight => EXACT_ARITHMETIC,
        Operation::UnsignedRemainder
        | Operation::SignedRemainder
        | Operation::And
        | Operation::ExclusiveOr => PLAIN_ARITHMETIC,
        Operation::Or => DISJOINT_ARITHMETIC,
        Operation::Truncate => WRAPPING_CAST,
        Operation::ZeroExtend => NON_NEGATIVE_CAST,
        Operation::SignExtend | Operation::PointerToInteger | Operation::IntegerToPointer => {
            PLAIN_CAST
        }
        Operation::Compare => COMPARE,
        Operation::Select => SELECT,
        Operation::Freeze => &[Slot::Typed(Types::IntegersAndPointers), Slot::Value],
        Operation::Phi => &[Slot::Typed(Types::IntegersAndPointers), Slot::Entry],
        Operation::Alloca => &[Slot::Bare(Types::AllButVoid), Slot::Align],
        Operation::Load => LOAD,
        Operation::Store => STORE,
        Operation::Element => ELEMENT,
        Operation::Branch => &[Slot::Target],
        Operation::Switch => SWITCH,
        Operation::Return => &[Slot::Returned],
        Operation::Unreachable => &[],
    }
}
