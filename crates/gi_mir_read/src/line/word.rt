//! What a word is in the tables.

ghost use Rattle.std.specs.Prelude.{◌≡◌, bytes_eq, find, map, option_map};
ghost use Rattle.gi_spelling.specs.Words.{block_head, fixed_word, width_behind, word_of, words};
ghost use Rattle.gi_mir_read.specs.Lines.Beginnings.{begins_otherwise, is_capital};

use crate::line::number::{behind, numeral, numeral_before_name};
use gi_llt::Llt;
use gi_mir::opcode::Opcode;
use gi_mir::operand::{Pred, SymbolFlag};
use gi_spelling::token::{Flag, RegisterClass, Word};
use gi_text::is_digit;

/// The greatest width of a type.
const GREATEST_WIDTH: u32 = 65535;

/// The greatest number of a block.
pub(crate) const GREATEST_BLOCK: u32 = 4294901759;

/// The words that are fixed.
fn words() -> &'static [(&'static str, Word)]
    ensures { map (λ entry. (entry.0.now, entry.1)) result.now ≡ words }
{
    &[
        ("nuw", Word::Flag(Flag::NoUnsignedWrap)),
        ("nsw", Word::Flag(Flag::NoSignedWrap)),
        ("exact", Word::Flag(Flag::Exact)),
        ("disjoint", Word::Flag(Flag::Disjoint)),
        ("nneg", Word::Flag(Flag::NonNegative)),
        ("_", Word::Class(RegisterClass::Generic)),
        ("gprb", Word::Class(RegisterClass::Banked)),
        ("gpr", Word::Class(RegisterClass::General)),
        ("p0", Word::Type(Llt::Pointer)),
        ("true", Word::True),
        ("false", Word::False),
        ("eq", Word::Predicate(Pred::Eq)),
        ("ne", Word::Predicate(Pred::Ne)),
        ("ugt", Word::Predicate(Pred::Ugt)),
        ("uge", Word::Predicate(Pred::Uge)),
        ("ult", Word::Predicate(Pred::Ult)),
        ("ule", Word::Predicate(Pred::Ule)),
        ("sgt", Word::Predicate(Pred::Sgt)),
        ("sge", Word::Predicate(Pred::Sge)),
        ("slt", Word::Predicate(Pred::Slt)),
        ("sle", Word::Predicate(Pred::Sle)),
        ("intpred", Word::Comparison),
        ("implicit", Word::Implicit),
        ("implicit-def", Word::ImplicitDef),
        ("target-flags", Word::TargetFlags),
        ("riscv-call", Word::SymbolFlag(SymbolFlag::Call)),
        ("riscv-hi", Word::SymbolFlag(SymbolFlag::Hi)),
        ("riscv-lo", Word::SymbolFlag(SymbolFlag::Lo)),
        ("csr_ilp32_lp64", Word::SavedMask),
        ("load", Word::Load),
        ("store", Word::Store),
        ("align", Word::Align),
        ("successors", Word::Successors),
        ("liveins", Word::Liveins),
        ("id", Word::Id),
        ("class", Word::ClassField),
        ("size", Word::Size),
        ("alignment", Word::Alignment),
        ("killed", Word::Passed),
        ("dead", Word::Passed),
        ("renamable", Word::Passed),
        ("nusw", Word::Passed),
        ("inbounds", Word::Passed),
        ("samesign", Word::Passed),
        ("frame-setup", Word::Passed),
        ("frame-destroy", Word::Passed),
        ("unpredictable", Word::Passed),
        ("nomerge", Word::Passed),
        ("noconvergent", Word::Passed),
        ("invariant", Word::Passed),
        ("dereferenceable", Word::Passed),
        ("non-temporal", Word::Passed),
        ("from", Word::Origin),
        ("into", Word::Origin),
        ("debug-location", Word::DebugLocation),
        ("debug-instr-number", Word::Counted),
        ("basealign", Word::Counted),
    ]
}

/// What a table says of these bytes.
fn look_up(table: &[(&str, Word)], bytes: &[u8]) -> Option<Word>
    ensures { result ≡ option_map (λ entry. entry.1) (find (λ entry. bytes_eq entry.0.now bytes.now) table.now) }
{
    match table.iter().find(|(text, _)| text.as_bytes() == bytes) {
        Some((_, word)) => Some(*word),
        None => None,
    }
}

/// The fixed word that these bytes are, by a walk through all of them.
fn fixed_word_among(bytes: &[u8]) -> Option<Word>
    ensures { result ≡ fixed_word bytes.now }
{
    look_up(words(), bytes)
}

/// Whether a byte is a capital letter.
fn is_capital(byte: u8) -> bool
    ensures { result ≡ is_capital byte }
{
    b'A' <= byte && byte <= b'Z'
}

/// Whether bytes begin as no fixed word does: with a capital letter, or as a type does.
fn begins_otherwise(bytes: &[u8]) -> bool
    ensures { result ≡ begins_otherwise bytes.now }
{
    match bytes {
        [] => false,
        [only] => is_capital(*only),
        [first, second, ..] => {
            is_capital(*first) || (*first == b's' || *first == b'i') && is_digit(*second)
        }
    }
}

/// The fixed word that these bytes are. Most words of a text are an opcode or a type, and needn't be looked for.
#[tactic(auto, using(crate::proofs::Lines::BeginningLemmas::not_fixed))]
fn fixed_word(bytes: &[u8]) -> Option<Word>
    ensures { result ≡ fixed_word bytes.now }
{
    if begins_otherwise(bytes) {
        None
    } else {
        fixed_word_among(bytes)
    }
}

/// The width behind one letter.
fn width_behind(first: u8, bytes: &[u8]) -> Option<u16>
    ensures { result ≡ width_behind first bytes.now }
{
    match bytes {
        [] => None,
        [byte, digits @ ..] => {
            if *byte == first {
                numeral(GREATEST_WIDTH, digits).map(|bits| bits as u16)
            } else {
                None
            }
        }
    }
}

/// The number of `bb.2` and `bb.2.name`.
fn block_head(bytes: &[u8]) -> Option<u32>
    ensures { result ≡ block_head bytes.now }
{
    numeral_before_name(GREATEST_BLOCK, behind(b"bb.", bytes)?)
}

/// What a word is in the tables, of which no two have one word.
pub(crate) fn word(bytes: &[u8]) -> Word
    ensures { result ≡ word_of bytes.now }
{
    if let Some(word) = fixed_word(bytes) {
        return word;
    }
    if let Some(op) = Opcode::from_bytes(bytes) {
        return Word::Opcode(op);
    }
    if let Some(bits) = width_behind(b's', bytes) {
        return Word::Type(Llt::Scalar(bits));
    }
    if let Some(bits) = width_behind(b'i', bytes) {
        return Word::Integer(bits);
    }
    if let Some(number) = block_head(bytes) {
        return Word::BlockHead(number);
    }
    if bytes.starts_with(b"DBG_") {
        return Word::Debug;
    }
    Word::Unknown
}
