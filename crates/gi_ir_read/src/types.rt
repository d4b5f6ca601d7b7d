//! Types in their places.

ghost use Rattle.std.specs.Prelude.{◌≡◌};
ghost use Rattle.gi_ir_spelling.specs.Grammar.{bare, behind_scalar, index_by, scalar_of, start_by_mark, start_by_name, start_by_word, takes_aggregate, takes_integer, takes_pointer, type_start, typed};

use gi_ir_spelling::place::{Choice, Row, Scalar, TypeStart, Types};
use gi_ir_spelling::token::{Mark, What, Word};

/// How values of so many bits are written.
fn scalar_of(bits: u16) -> Scalar
    ensures { result ≡ scalar_of bits }
{
    if bits == 1 {
        Scalar::Bit
    } else {
        Scalar::Integer
    }
}

/// Whether a place takes an integer of so many bits.
fn takes_integer(types: Types, bits: u16) -> bool
    ensures { result ≡ takes_integer types bits }
{
    match types {
        Types::Pointers => false,
        Types::Bits => bits == 1,
        _ => true,
    }
}

/// Whether a place takes a pointer.
fn takes_pointer(types: Types) -> bool
    ensures { result ≡ takes_pointer types }
{
    match types {
        Types::Integers | Types::Bits => false,
        _ => true,
    }
}

/// Whether a place takes an array, a struct or a type with a name.
fn takes_aggregate(types: Types) -> bool
    ensures { result ≡ takes_aggregate types }
{
    match types {
        Types::AllButVoid => true,
        _ => false,
    }
}

/// What a mark begins in the place of a type.
fn start_by_mark(types: Types, mark: Mark) -> TypeStart
    ensures { result ≡ start_by_mark types mark }
{
    match mark {
        Mark::OpenSquare => TypeStart::Nested(Row::Array, takes_aggregate(types)),
        Mark::OpenBrace => TypeStart::Nested(Row::Struct, takes_aggregate(types)),
        _ => TypeStart::Wrong,
    }
}

/// What a word is in the place of a type.
fn start_by_word(types: Types, word: Word) -> TypeStart
    ensures { result ≡ start_by_word types word }
{
    match word {
        Word::Integer(bits) => {
            if takes_integer(types, bits) {
                TypeStart::Single(scalar_of(bits))
            } else {
                TypeStart::Wrong
            }
        }
        Word::Pointer => {
            if takes_pointer(types) {
                TypeStart::Single(Scalar::Pointer)
            } else {
                TypeStart::Wrong
            }
        }
        Word::Void => TypeStart::Wrong,
        _ => TypeStart::Unknown,
    }
}

/// What a name is in the place of a type.
fn start_by_name(types: Types, is_defined: bool) -> TypeStart
    ensures { result ≡ start_by_name types is_defined }
{
    if !is_defined {
        return TypeStart::Unknown;
    }
    if takes_aggregate(types) {
        TypeStart::Whole
    } else {
        TypeStart::Wrong
    }
}

/// What a token begins in the place of a type.
pub(crate) fn type_start(types: Types, what: What) -> TypeStart
    ensures { result ≡ type_start types what }
{
    match what {
        What::Word(word) => start_by_word(types, word),
        What::Local(named) => start_by_name(types, named.ty.is_some()),
        What::Mark(mark) => start_by_mark(types, mark),
        _ => TypeStart::Wrong,
    }
}

/// What stands behind an integer or a pointer.
fn behind_scalar(scalar: Scalar) -> Row
    ensures { result ≡ behind_scalar scalar }
{
    match scalar {
        Scalar::Pointer => Row::AddressSpaces,
        _ => Row::Nothing,
    }
}

/// A type of which values follow.
pub(crate) fn typed(start: TypeStart, more: Row) -> Choice
    ensures { result ≡ typed start more }
{
    match start {
        TypeStart::Single(scalar) => Choice::TakeType(scalar, behind_scalar(scalar), more),
        TypeStart::Whole => Choice::Take(Row::Nothing, more),
        TypeStart::Nested(nested, true) => Choice::Take(nested, more),
        TypeStart::Nested(nested, false) => Choice::Take(nested, Row::RefusedType),
        TypeStart::Unknown => Choice::Unknown,
        TypeStart::Wrong => Choice::Wrong,
    }
}

/// A type of which no values follow.
pub(crate) fn bare(start: TypeStart, more: Row) -> Choice
    ensures { result ≡ bare start more }
{
    match start {
        TypeStart::Single(scalar) => Choice::Take(behind_scalar(scalar), more),
        _ => typed(start, more),
    }
}

/// The type of an index of a constant.
pub(crate) fn index_by(start: TypeStart) -> Choice
    ensures { result ≡ index_by start }
{
    match start {
        TypeStart::Single(scalar) => Choice::Take(Row::IndexOf(scalar), Row::Nothing),
        _ => typed(start, Row::Nothing),
    }
}
