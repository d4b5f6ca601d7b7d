//! What a place says of a token.

ghost use Rattle.std.specs.Prelude.{◌≡◌};
ghost use Rattle.gi_ir_spelling.specs.Grammar.{address_space_by, align_word_by, alignment_by, base_by, begin_by, block_by, cases_by, choose, comma_or_pass, constant_by, constant_flag_by, count_by, end_or_comma, fields_by, flag_by, has_flag, is_alignment, is_bit, is_count, is_free, is_keyword, is_mark, is_number_type, is_same_mark, known_if, no_flags, element_flags, operation_by, predicate_by, returned_by, take, take_if, target_by, value_by, value_by_word, without_flag};

use crate::types::{bare, index_by, type_start, typed};
use gi_ir_spelling::place::{Choice, FlagSet, Row, Scalar, Slot, Types};
use gi_ir_spelling::token::{Flag, Mark, Operation, What, Word};
use gi_text::Number;

/// The flags of a getelementptr.
const ELEMENT_FLAGS: FlagSet = FlagSet {
    no_unsigned_wrap: true,
    no_signed_wrap: false,
    exact: false,
    disjoint: false,
    non_negative: false,
    same_sign: false,
    in_bounds: true,
    no_unsigned_signed_wrap: true,
};

fn take(more: Row) -> Choice
    ensures { result ≡ take more }
{
    Choice::Take(more, Row::Nothing)
}

fn take_if(test: bool, more: Row) -> Choice
    ensures { result ≡ take_if test more }
{
    if test { take(more) } else { Choice::Wrong }
}

fn known_if(test: bool) -> Choice
    ensures { result ≡ known_if test }
{
    if test {
        take(Row::Nothing)
    } else {
        Choice::Unknown
    }
}

/// Whether numbers are of this type.
fn is_number_type(scalar: Scalar) -> bool
    ensures { result ≡ is_number_type scalar }
{
    match scalar {
        Scalar::Pointer => false,
        _ => true,
    }
}

fn is_bit(scalar: Scalar) -> bool
    ensures { result ≡ is_bit scalar }
{
    match scalar {
        Scalar::Bit => true,
        _ => false,
    }
}

fn value_by_word(last: Scalar, word: Word) -> Choice
    ensures { result ≡ value_by_word last word }
{
    match word {
        Word::True | Word::False => take_if(is_bit(last), Row::Nothing),
        Word::Null | Word::Undef | Word::Poison => take(Row::Nothing),
        Word::Operation(Operation::Element) => take(Row::ElementFlags(ELEMENT_FLAGS)),
        _ => Choice::Wrong,
    }
}

fn value_by(last: Scalar, what: What) -> Choice
    ensures { result ≡ value_by last what }
{
    match what {
        What::Word(word) => value_by_word(last, word),
        What::Number(_, decimal) => take_if(is_number_type(last) && decimal, Row::Nothing),
        What::Local(named) => known_if(named.value.is_some()),
        What::Global => take(Row::Nothing),
        _ => Choice::Wrong,
    }
}

fn constant_by(last: Scalar, what: What) -> Choice
    ensures { result ≡ constant_by last what }
{
    match what {
        What::Word(Word::True) | What::Word(Word::False) => take_if(is_bit(last), Row::Nothing),
        What::Number(_, decimal) => take_if(is_number_type(last) && decimal, Row::Nothing),
        _ => Choice::Wrong,
    }
}

/// Whether a flag is among some.
fn has_flag(flags: FlagSet, flag: Flag) -> bool
    ensures { result ≡ has_flag flags flag }
{
    match flag {
        Flag::NoUnsignedWrap => flags.no_unsigned_wrap,
        Flag::NoSignedWrap => flags.no_signed_wrap,
        Flag::Exact => flags.exact,
        Flag::Disjoint => flags.disjoint,
        Flag::NonNegative => flags.non_negative,
        Flag::SameSign => flags.same_sign,
        Flag::InBounds => flags.in_bounds,
        Flag::NoUnsignedSignedWrap => flags.no_unsigned_signed_wrap,
    }
}

/// Some flags less one.
fn without_flag(flags: FlagSet, flag: Flag) -> FlagSet
    ensures { result ≡ without_flag flags flag }
{
    let mut rest = flags;
    match flag {
        Flag::NoUnsignedWrap => rest.no_unsigned_wrap = false,
        Flag::NoSignedWrap => rest.no_signed_wrap = false,
        Flag::Exact => rest.exact = false,
        Flag::Disjoint => rest.disjoint = false,
        Flag::NonNegative => rest.non_negative = false,
        Flag::SameSign => rest.same_sign = false,
        Flag::InBounds => rest.in_bounds = false,
        Flag::NoUnsignedSignedWrap => rest.no_unsigned_signed_wrap = false,
    }
    rest
}

fn flag_by(flags: FlagSet, what: What) -> Choice
    ensures { result ≡ flag_by flags what }
{
    match what {
        What::Word(Word::Flag(flag)) => take_if(
            has_flag(flags, flag),
            Row::OtherFlags(without_flag(flags, flag)),
        ),
        _ => Choice::Pass,
    }
}

fn constant_flag_by(flags: FlagSet, what: What) -> Choice
    ensures { result ≡ constant_flag_by flags what }
{
    match what {
        What::Word(Word::Flag(flag)) => take_if(
            has_flag(flags, flag),
            Row::ElementFlags(without_flag(flags, flag)),
        ),
        What::Word(_) => Choice::Unknown,
        What::Mark(Mark::Open) => take(Row::ConstantElement),
        _ => Choice::Wrong,
    }
}

fn operation_by(what: What) -> Choice
    ensures { result ≡ operation_by what }
{
    match what {
        What::Word(Word::Operation(operation)) => take(Row::Form(operation)),
        What::Word(_) => Choice::Unknown,
        _ => Choice::Wrong,
    }
}

fn begin_by(what: What) -> Choice
    ensures { result ≡ begin_by what }
{
    match what {
        What::Local(_) => take(Row::Assigned),
        _ => operation_by(what),
    }
}

fn address_space_by(what: What) -> Choice
    ensures { result ≡ address_space_by what }
{
    match what {
        What::Word(Word::AddressSpace) => Choice::Unknown,
        _ => Choice::Pass,
    }
}

fn is_count(number: Number, decimal: bool) -> bool
    ensures { result ≡ is_count number decimal }
{
    decimal && !number.negative
}

/// The greatest power of two that an alignment is: what divides it is one.
const GREATEST_ALIGNMENT: u128 = 9_223_372_036_854_775_808;

fn is_alignment(number: Number, decimal: bool) -> bool
    ensures { result ≡ is_alignment number decimal }
{
    if !is_count(number, decimal) || number.size == 0 {
        return false;
    }
    GREATEST_ALIGNMENT % number.size.min(GREATEST_ALIGNMENT) == 0
}

fn count_by(what: What) -> Choice
    ensures { result ≡ count_by what }
{
    match what {
        What::Number(number, decimal) => take_if(is_count(number, decimal), Row::Nothing),
        _ => Choice::Wrong,
    }
}

fn alignment_by(what: What) -> Choice
    ensures { result ≡ alignment_by what }
{
    match what {
        What::Number(number, decimal) => take_if(is_alignment(number, decimal), Row::Nothing),
        _ => Choice::Wrong,
    }
}

fn align_word_by(what: What) -> Choice
    ensures { result ≡ align_word_by what }
{
    match what {
        What::Word(Word::Align) => take(Row::AlignmentFollows),
        What::Word(Word::AddressSpace) => Choice::Unknown,
        _ => Choice::Wrong,
    }
}

fn predicate_by(what: What) -> Choice
    ensures { result ≡ predicate_by what }
{
    match what {
        What::Word(Word::Predicate(_)) => take(Row::Nothing),
        What::Word(_) => Choice::Unknown,
        _ => Choice::Wrong,
    }
}

fn block_by(what: What) -> Choice
    ensures { result ≡ block_by what }
{
    match what {
        What::Local(named) => known_if(named.block.is_some()),
        _ => Choice::Wrong,
    }
}

fn base_by(what: What) -> Choice
    ensures { result ≡ base_by what }
{
    match what {
        What::Global => take(Row::Nothing),
        _ => Choice::Wrong,
    }
}

/// Whether a token is the word that stands at a fixed place.
fn is_keyword(word: Word, what: What) -> bool
    ensures { result ≡ is_keyword word what }
{
    match (word, what) {
        (Word::To, What::Word(Word::To)) => true,
        (Word::Label, What::Word(Word::Label)) => true,
        (Word::Times, What::Word(Word::Times)) => true,
        (Word::Void, What::Word(Word::Void)) => true,
        _ => false,
    }
}

fn is_same_mark(one: Mark, another: Mark) -> bool
    ensures { result ≡ is_same_mark one another }
{
    match (one, another) {
        (Mark::Comma, Mark::Comma) => true,
        (Mark::Equals, Mark::Equals) => true,
        (Mark::Open, Mark::Open) => true,
        (Mark::Close, Mark::Close) => true,
        (Mark::OpenSquare, Mark::OpenSquare) => true,
        (Mark::CloseSquare, Mark::CloseSquare) => true,
        (Mark::OpenBrace, Mark::OpenBrace) => true,
        (Mark::CloseBrace, Mark::CloseBrace) => true,
        _ => false,
    }
}

/// Whether a token is a mark.
pub(crate) fn is_mark(mark: Mark, what: What) -> bool
    ensures { result ≡ is_mark mark what }
{
    match what {
        What::Mark(another) => is_same_mark(mark, another),
        _ => false,
    }
}

fn comma_or_pass(more: Row, what: What) -> Choice
    ensures { result ≡ comma_or_pass more what }
{
    if is_mark(Mark::Comma, what) {
        take(more)
    } else {
        Choice::Pass
    }
}

fn end_or_comma(end: Mark, more: Row, what: What) -> Choice
    ensures { result ≡ end_or_comma end more what }
{
    if is_mark(end, what) {
        take(Row::Nothing)
    } else {
        take_if(is_mark(Mark::Comma, what), more)
    }
}

fn fields_by(what: What) -> Choice
    ensures { result ≡ fields_by what }
{
    if is_mark(Mark::CloseBrace, what) {
        take(Row::Nothing)
    } else {
        bare(type_start(Types::AllButVoid, what), Row::OtherFields)
    }
}

fn cases_by(what: What) -> Choice
    ensures { result ≡ cases_by what }
{
    if is_mark(Mark::CloseSquare, what) {
        take(Row::Nothing)
    } else {
        typed(type_start(Types::Integers, what), Row::CaseOfSwitch)
    }
}

fn target_by(what: What) -> Choice
    ensures { result ≡ target_by what }
{
    if is_keyword(Word::Label, what) {
        take(Row::BlockFollows)
    } else {
        typed(type_start(Types::Bits, what), Row::TwoBlocks)
    }
}

fn returned_by(what: What) -> Choice
    ensures { result ≡ returned_by what }
{
    if is_keyword(Word::Void, what) {
        take(Row::Nothing)
    } else {
        typed(
            type_start(Types::IntegersAndPointers, what),
            Row::ReturnedValue,
        )
    }
}

/// What a place says of a token, where `last` is the type of values.
pub(crate) fn choose(last: Scalar, slot: Slot, what: What) -> Choice
    ensures { result ≡ choose last slot what }
{
    match slot {
        Slot::Begin => begin_by(what),
        Slot::Operation => operation_by(what),
        Slot::Typed(types) => typed(type_start(types, what), Row::Nothing),
        Slot::Bare(types) => bare(type_start(types, what), Row::Nothing),
        Slot::NoAddressSpace => address_space_by(what),
        Slot::Refused => Choice::Wrong,
        Slot::ElementCount => count_by(what),
        Slot::Fields => fields_by(what),
        Slot::MoreFields => end_or_comma(Mark::CloseBrace, Row::NextField, what),
        Slot::Value => value_by(last, what),
        Slot::Constant => constant_by(last, what),
        Slot::ConstantFlags(flags) => constant_flag_by(flags, what),
        Slot::Base => base_by(what),
        Slot::ConstantIndices => end_or_comma(Mark::Close, Row::NextConstantIndex, what),
        Slot::ConstantIndexType => index_by(type_start(Types::Integers, what)),
        Slot::ConstantIndex(scalar) => constant_by(scalar, what),
        Slot::Flags(flags) => flag_by(flags, what),
        Slot::Predicate => predicate_by(what),
        Slot::Keyword(word) => take_if(is_keyword(word, what), Row::Nothing),
        Slot::Punctuation(mark) => take_if(is_mark(mark, what), Row::Nothing),
        Slot::BlockName => block_by(what),
        Slot::Align => comma_or_pass(Row::AlignFollows, what),
        Slot::AlignWord => align_word_by(what),
        Slot::Alignment => alignment_by(what),
        Slot::Indices => comma_or_pass(Row::NextIndex, what),
        Slot::Entry => take_if(is_mark(Mark::OpenSquare, what), Row::EntryOfPhi),
        Slot::Entries => comma_or_pass(Row::NextEntry, what),
        Slot::Cases => cases_by(what),
        Slot::Target => target_by(what),
        Slot::Returned => returned_by(what),
    }
}

/// Whether nothing need stand in a place.
pub(crate) fn is_free(slot: Slot) -> bool
    ensures { result ≡ is_free slot }
{
    match slot {
        Slot::NoAddressSpace | Slot::Flags(_) | Slot::Align | Slot::Indices | Slot::Entries => true,
        _ => false,
    }
}
