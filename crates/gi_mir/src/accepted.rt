//! The types that each opcode accepts.

ghost use Rattle.std.specs.Prelude.{◌≡◌, ℕ, ◌+◌, ◌≤◌, ◌⊎◌, ◌&&◌, List, Some, true, false, slice_get, length};
ghost use Rattle.gi_llt.specs.declared.Llt.{Llt};
ghost use Rattle.std.specs.List.{list_all, list_any};
ghost use Rattle.std.specs.Option.{option_map_or};
ghost use Rattle.gi_mir.specs.Accepted as accepted;
ghost use Rattle.gi_mir.specs.Row.{rows_of};
ghost use Rattle.gi_mir.specs.Types as tests;
ghost use Rattle.gi_mir.specs.declared.typing.Letter.TheVariants as Letter;

use crate::opcode::Opcode;
use crate::row::Form;
use crate::types::{is_in_memory, is_of, is_scalar, same_type, scalar_bits};
use crate::typing::{Class, Letter, Relation, Typing};
use gi_llt::{Llt, Target};

/// Each letter once.
static LETTERS: [Letter; 5] = [
    Letter::A,
    Letter::B,
    Letter::Pointer,
    Letter::Bit,
    Letter::Register,
];

/// The letter at a place, where there is one.
fn letter_at(letters: &[Letter], more: Option<Letter>, place: usize) -> Option<Letter>
    ensures { result ≡ accepted.letter_at letters.now more place }
{
    letters.get(place).copied().or(more)
}

/// Whether there are as many types as letters, or more where further ones have a letter.
#[tactic(auto, using(crate::proofs::LettersLemmas::exact_letters, crate::proofs::LettersLemmas::further_letters))]
fn have_letters(letters: &[Letter], more: Option<Letter>, types: &[Llt]) -> bool
    ensures { result ≡ accepted.have_letters letters.now more types.now }
{
    if more.is_some() {
        letters.len() <= types.len()
    } else {
        letters.len() == types.len()
    }
}

/// Whether two letters are the same.
fn is_letter(l: Letter, m: Letter) -> bool
    ensures { result ≡ accepted.is_letter l m }
{
    l == m
}

/// Whether a place has this letter.
fn is_there(l: Letter, there: Option<Letter>) -> bool
    ensures { result ≡ accepted.is_there l there }
{
    match there {
        Some(m) => is_letter(l, m),
        None => false,
    }
}

/// The first type at the places of a letter.
#[tactic(auto, using(crate::proofs::LettersLemmas::types_here, crate::proofs::LettersLemmas::types_elsewhere, crate::proofs::LettersLemmas::types_past))]
fn first_at(l: Letter, letters: &[Letter], more: Option<Letter>, types: &[Llt]) -> Option<Llt>
    ensures { result ≡ slice_get (accepted.types_at l letters.now more types.now) 0 }
{
    for place in 0..types.len() {
        if is_there(l, letter_at(letters, more, place)) {
            return Some(types[place]);
        }
    }
    None
}

/// Whether each type at the places of a letter is this one.
#[tactic(auto, using(crate::proofs::LettersLemmas::types_here, crate::proofs::LettersLemmas::types_elsewhere, crate::proofs::LettersLemmas::types_past))]
fn are_at(ty: Llt, l: Letter, letters: &[Letter], more: Option<Letter>, types: &[Llt]) -> bool
    ensures { result ≡ list_all (λ other. tests.same_type ty other) (accepted.types_at l letters.now more types.now) }
{
    for place in 0..types.len() {
        if is_there(l, letter_at(letters, more, place)) && !same_type(ty, types[place]) {
            return false;
        }
    }
    true
}

/// The first type at the places of a letter, those of the results first.
fn first_of(l: Letter, typing: &Typing, results: &[Llt], sources: &[Llt]) -> Option<Llt>
    ensures { result ≡ slice_get (accepted.types_of l typing.now results.now sources.now) 0 }
{
    match first_at(l, typing.results, typing.more_results, results) {
        Some(ty) => Some(ty),
        None => first_at(l, typing.sources, typing.more_sources, sources),
    }
}

/// Whether each type at the places of a letter is this one.
#[tactic(auto, using(crate::proofs::LettersLemmas::in_both))]
fn are_of(ty: Llt, l: Letter, typing: &Typing, results: &[Llt], sources: &[Llt]) -> bool
    ensures { result ≡ list_all (λ other. tests.same_type ty other) (accepted.types_of l typing.now results.now sources.now) }
{
    are_at(ty, l, typing.results, typing.more_results, results)
        && are_at(ty, l, typing.sources, typing.more_sources, sources)
}

/// Whether the types at the places of a letter are one type of its class.
#[tactic(auto, using(crate::proofs::LettersLemmas::one_by_first, crate::proofs::LettersLemmas::one_in_none))]
fn are_one(x: u16, l: Letter, typing: &Typing, results: &[Llt], sources: &[Llt]) -> bool
    requires { x ≤ 64 }
    ensures { result ≡ accepted.are_one x (accepted.class_of typing.now l) (accepted.types_of l typing.now results.now sources.now) }
{
    match first_of(l, typing, results, sources) {
        Some(ty) => is_of(x, class_of(typing, l), ty) && are_of(ty, l, typing, results, sources),
        None => true,
    }
}

/// The class of the types at a letter's places.
fn class_of(typing: &Typing, l: Letter) -> Class
    ensures { result ≡ accepted.class_of typing.now l }
{
    match l {
        Letter::A => typing.a,
        Letter::B => typing.b,
        Letter::Pointer => Class::Pointer,
        Letter::Bit => Class::Bit,
        Letter::Register => Class::Register,
    }
}

/// Whether the types at the places of each letter are one type of its class.
fn are_each_one(x: u16, typing: &Typing, results: &[Llt], sources: &[Llt]) -> bool
    requires { x ≤ 64 }
    ensures { result ≡ list_all (λ l. accepted.are_one x (accepted.class_of typing.now l) (accepted.types_of l typing.now results.now sources.now)) accepted.letters }
{
    LETTERS
        .iter()
        .all(|l| are_one(x, *l, typing, results, sources))
}

/// How many types stand at the places of a letter.
#[tactic(auto, using(crate::proofs::LettersLemmas::types_here, crate::proofs::LettersLemmas::types_elsewhere, crate::proofs::LettersLemmas::types_past))]
fn count_at(l: Letter, letters: &[Letter], more: Option<Letter>, types: &[Llt]) -> usize
    ensures { result ≡ length (accepted.types_at l letters.now more types.now) }
{
    let mut count = 0;
    for place in 0..types.len() {
        if is_there(l, letter_at(letters, more, place)) {
            count += 1;
        }
    }
    count
}

/// Whether so many parts, two to sixteen, are together as wide as a whole.
fn is_sum(whole: Llt, part: Llt, count: usize) -> bool
    ensures { result ≡ accepted.is_sum whole part count }
{
    2 <= count
        && count <= 16
        && usize::from(scalar_bits(whole)) == count * usize::from(scalar_bits(part))
}

/// Whether the parts of a whole, so many among the results and so many among the sources, are as wide as it.
fn are_parts(whole: Llt, part: Llt, results: usize, sources: usize) -> bool
    ensures { result ≡ accepted.is_sum whole part (results + sources) }
{
    results <= 16 && sources <= 16 && is_sum(whole, part, results + sources)
}

/// Whether the parts of a whole are two to sixteen and together as wide as it.
#[tactic(auto, using(crate::proofs::LettersLemmas::length_in_both))]
fn is_sum_of(whole: Llt, part: Llt, typing: &Typing, results: &[Llt], sources: &[Llt]) -> bool
    ensures { result ≡ accepted.is_sum whole part (length (accepted.types_of Letter.B typing.now results.now sources.now)) }
{
    let among_results = count_at(Letter::B, typing.results, typing.more_results, results);
    let among_sources = count_at(Letter::B, typing.sources, typing.more_sources, sources);
    are_parts(whole, part, among_results, among_sources)
}

/// Whether A and B are related as the typing says.
fn is_related(a: Llt, b: Llt, typing: &Typing, results: &[Llt], sources: &[Llt]) -> bool
    ensures { result ≡ accepted.is_related typing.now.relation a b (length (accepted.types_of Letter.B typing.now results.now sources.now)) }
{
    match typing.relation {
        Relation::Free => true,
        Relation::Narrower => scalar_bits(a) < scalar_bits(b),
        Relation::Wider => scalar_bits(b) < scalar_bits(a),
        Relation::Sum => is_sum_of(a, b, typing, results, sources),
    }
}

/// Whether nothing is asked of A and B together.
fn is_free(typing: &Typing) -> bool
    ensures { result ≡ accepted.is_free typing.now.relation }
{
    typing.relation == Relation::Free
}

/// Whether the types A and the types B are related as the typing says.
#[tactic(auto, using(crate::proofs::LettersLemmas::related_firsts, crate::proofs::LettersLemmas::related_none))]
fn are_related(typing: &Typing, results: &[Llt], sources: &[Llt]) -> bool
    ensures { result ≡ accepted.are_related typing.now.relation (accepted.types_of Letter.A typing.now results.now sources.now) (accepted.types_of Letter.B typing.now results.now sources.now) }
{
    let a = first_of(Letter::A, typing, results, sources);
    let b = first_of(Letter::B, typing, results, sources);
    match (a, b) {
        (Some(a), Some(b)) => is_related(a, b, typing, results, sources),
        _ => is_free(typing),
    }
}

/// Whether each place has a type.
fn are_placed(typing: &Typing, results: &[Llt], sources: &[Llt]) -> bool
    ensures { result ≡ (accepted.have_letters typing.now.results typing.now.more_results results.now && accepted.have_letters typing.now.sources typing.now.more_sources sources.now) }
{
    have_letters(typing.results, typing.more_results, results)
        && have_letters(typing.sources, typing.more_sources, sources)
}

/// Whether these are types of the results and of the sources of an opcode with this typing.
fn are_typed(x: u16, typing: &Typing, results: &[Llt], sources: &[Llt]) -> bool
    requires { x ≤ 64 }
    ensures { result ≡ accepted.are_typed x typing.now results.now sources.now }
{
    are_placed(typing, results, sources)
        && are_each_one(x, typing, results, sources)
        && are_related(typing, results, sources)
}

/// Whether an opcode accepts these types of its results and of the virtual registers that it reads.
pub fn accepts(target: Target, op: Opcode, results: &[Llt], sources: &[Llt]) -> bool
    requires { (target.xlen ≡ 32) ⊎ (target.xlen ≡ 64) }
    ensures { result ≡ accepted.accepts target.xlen op results.now sources.now }
{
    match op.typing() {
        Some(typing) => are_typed(target.xlen, &typing, results, sources),
        None => false,
    }
}

/// Whether a type is of the class of the letter at its place, where there is one.
fn is_lettered(x: u16, typing: &Typing, letter: Option<Letter>, ty: Llt) -> bool
    requires { x ≤ 64 }
    ensures { result ≡ option_map_or (λ l. tests.is_of x (accepted.class_of typing.now l) ty) letter false }
{
    match letter {
        Some(l) => is_of(x, class_of(typing, l), ty),
        None => false,
    }
}

/// Whether a type is among its opcode's at this place among the results, however it is related to other types.
/// Nothing is demanded in an instruction of the machine.
pub fn is_result_type(target: Target, op: Opcode, place: usize, ty: Llt) -> bool
    requires { (target.xlen ≡ 32) ⊎ (target.xlen ≡ 64) }
    ensures { result ≡ accepted.is_result_type target.xlen op place ty }
{
    match op.typing() {
        Some(typing) => {
            let letter = letter_at(typing.results, typing.more_results, place);
            is_lettered(target.xlen, &typing, letter, ty)
        }
        None => true,
    }
}

/// The same at this place among the virtual registers that are read.
pub fn is_source_type(target: Target, op: Opcode, place: usize, ty: Llt) -> bool
    requires { (target.xlen ≡ 32) ⊎ (target.xlen ≡ 64) }
    ensures { result ≡ accepted.is_source_type target.xlen op place ty }
{
    match op.typing() {
        Some(typing) => {
            let letter = letter_at(typing.sources, typing.more_sources, place);
            is_lettered(target.xlen, &typing, letter, ty)
        }
        None => true,
    }
}

/// Whether the type of a memory operand is among its opcode's.
pub fn is_memory_type(target: Target, op: Opcode, ty: Llt) -> bool
    requires { (target.xlen ≡ 32) ⊎ (target.xlen ≡ 64) }
    ensures { result ≡ accepted.is_memory_type target.xlen op ty }
{
    is_in_memory(target.xlen, op.memory(), ty)
}

/// Whether a constant stands in a row.
fn has_constant(row: &[Form]) -> bool
    ensures { result ≡ list_any accepted.is_constant_form row.now }
{
    row.iter().any(|form| matches!(form, Form::Constant))
}

/// Whether a constant stands in one of these rows.
fn any_constant(rows: &[&[Form]]) -> bool
    ensures { result ≡ list_any (λ row. list_any accepted.is_constant_form row.now) rows.now }
{
    rows.iter().any(|row| has_constant(row))
}

/// Whether an opcode has a row with a constant.
#[tactic(auto, using(crate::proofs::FormedLemmas::any_mapped))]
fn takes_constant(op: Opcode) -> bool
    ensures { result ≡ list_any (λ forms. list_any accepted.is_constant_form forms) (rows_of op) }
{
    any_constant(op.rows())
}

/// Whether a constant of so many bits is among its opcode's.
pub fn is_constant_type(target: Target, op: Opcode, bits: u16) -> bool
    requires { (target.xlen ≡ 32) ⊎ (target.xlen ≡ 64) }
    ensures { result ≡ accepted.is_constant_type target.xlen op bits }
{
    takes_constant(op) && is_scalar(target.xlen, Llt::Scalar(bits))
}

/// Whether so many low bits of a scalar, with a sign among them, don't fill it.
pub fn is_in_register(target: Target, bits: u16, k: i128) -> bool
    requires { (target.xlen ≡ 32) ⊎ (target.xlen ≡ 64) }
    ensures { result ≡ accepted.is_in_register target.xlen bits k }
{
    is_scalar(target.xlen, Llt::Scalar(bits)) && 0 < k && k < i128::from(bits)
}

/// Types that are accepted together are accepted alone, each at its place.
pub fn accepted_alone(op: Opcode)
    ensures results { (x : ℕ) (results sources : List Llt) (place : ℕ) (ty : Llt) → accepted.accepts x op results sources ≡ true → slice_get results place ≡ Some ty → accepted.is_result_type x op place ty ≡ true }
    ensures sources { (x : ℕ) (results sources : List Llt) (place : ℕ) (ty : Llt) → accepted.accepts x op results sources ≡ true → slice_get sources place ≡ Some ty → accepted.is_source_type x op place ty ≡ true }
{
    let _ = op;
}
