//! Whether the types of an instruction's registers meet its row.

ghost use Rattle.std.specs.Prelude.{◌≡◌, ◌++◌, ◌∷◌, [], ◌≤◌, ℕ, if◌then◌else◌, option_to_list, OnOk, IfOk, length, map, take, drop, replicate, None};
ghost use Rattle.std.specs.List.{list_all};
ghost use Rattle.gi_mir.specs.Accepted as accepted;
ghost use Rattle.gi_mir.specs.Types as accepted_types;
ghost use Rattle.gi_mir.specs.declared.typing.Letter.TheVariants as Letter;
ghost use Rattle.gi_mir.specs.declared.typing.Relation.TheVariants as Relation;
ghost use Rattle.gi_valid.specs.Typing as typings;

use gi_llt::{Llt, Memory};
use gi_mir::types::{is_of, same_type, scalar_bits};
use gi_mir::typing::{Class, Letter, Relation, Typing};
use std::alloc::Global;

/// Whether two letters are the same.
fn is_letter(l: Letter, m: Letter) -> bool
    ensures { result ≡ accepted.is_letter l m }
{
    l == m
}

/// Whether a place has this letter.
fn is_there(l: Letter, there: Option<Letter>) -> bool
    ensures { result ≡ accepted.is_there l there }
{
    match there {
        Some(m) => is_letter(l, m),
        None => false,
    }
}

/// The letter at a place, where there is one.
fn letter_at(letters: &[Letter], more: Option<Letter>, place: usize) -> Option<Letter>
    ensures { result ≡ accepted.letter_at letters.now more place }
{
    letters.get(place).copied().or(more)
}

/// The class of the types at a letter's places.
fn class_of(typing: &Typing, l: Letter) -> Class
    ensures { result ≡ accepted.class_of typing.now l }
{
    match l {
        Letter::A => typing.a,
        Letter::B => typing.b,
        Letter::Pointer => Class::Pointer,
        Letter::Bit => Class::Bit,
        Letter::Register => Class::Register,
    }
}

/// Puts a type at the end of a list.
pub(crate) fn push(types: &mut Vec<Option<Llt>>, ty: Option<Llt>) -> Result<(), Memory>
    ensures { OnOk result (types.new.items ≡ types.old.items ++ ty ∷ []) }
{
    match types.push(ty) {
        Ok(()) => Ok(()),
        Err(_) => Err(Memory),
    }
}

/// Puts a type at the end of a list, where its place has the letter.
fn push_if(there: bool, types: &mut Vec<Option<Llt>>, ty: Option<Llt>) -> Result<(), Memory>
    ensures { OnOk result (types.new.items ≡ types.old.items ++ (if there then ty ∷ [] else [])) }
{
    if there { push(types, ty) } else { Ok(()) }
}

/// Puts the types at the places of a letter at the end of a list.
fn push_places(
    l: Letter,
    letters: &[Letter],
    more: Option<Letter>,
    types: &[Option<Llt>],
    out: &mut Vec<Option<Llt>>,
) -> Result<(), Memory>
    ensures { OnOk result (out.new.items ≡ out.old.items ++ typings.places_with l letters.now more types.now) }
{
    for (place, ty) in types.iter().enumerate() {
        let there = is_there(l, letter_at(letters, more, place));
        push_if(there, out, *ty)?;
    }
    Ok(())
}

/// The types at the places of a letter, those of the results first.
fn places(
    alloc: Global,
    l: Letter,
    typing: &Typing,
    results: &[Option<Llt>],
    sources: &[Option<Llt>],
) -> Result<Vec<Option<Llt>>, Memory>
    ensures { IfOk result (λ types. types.items ≡ typings.places_of_letter l typing.now results.now sources.now) }
{
    let mut types = Vec::new(alloc);
    push_places(l, typing.results, typing.more_results, results, &mut types)?;
    push_places(l, typing.sources, typing.more_sources, sources, &mut types)?;
    Ok(types)
}

/// Puts a type at the end of a list, where it is known.
fn push_known(ty: Option<Llt>, known: &mut Vec<Llt>) -> Result<(), Memory>
    ensures { OnOk result (known.new.items ≡ known.old.items ++ typings.known (ty ∷ [])) }
{
    match ty {
        Some(ty) => match known.push(ty) {
            Ok(()) => Ok(()),
            Err(_) => Err(Memory),
        },
        None => Ok(()),
    }
}

/// The types that are known.
fn known(alloc: Global, types: &[Option<Llt>]) -> Result<Vec<Llt>, Memory>
    ensures { IfOk result (λ known. known.items ≡ typings.known types.now) }
{
    let mut known = Vec::new(alloc);
    for ty in types {
        push_known(*ty, &mut known)?;
    }
    Ok(known)
}

/// Whether types are one type of a class.
fn are_one(x: u16, class: Class, types: &[Llt]) -> bool
    requires { x ≤ 64 }
    ensures { result ≡ accepted.are_one x class types.now }
{
    match types {
        [] => true,
        [first, rest @ ..] => is_of(x, class, *first) && are_same(*first, rest),
    }
}

/// Whether each type is this one.
fn are_same(ty: Llt, types: &[Llt]) -> bool
    ensures { result ≡ list_all (λ other. accepted_types.same_type ty other) types.now }
{
    types.iter().all(|other| same_type(ty, *other))
}

/// Whether there are two to sixteen.
fn is_count(count: usize) -> bool
    ensures { result ≡ typings.is_count count }
{
    2 <= count && count <= 16
}

/// Whether a whole is as wide as its parts.
fn is_sum(whole: Llt, part: Llt, count: usize) -> bool
    ensures { result ≡ accepted.is_sum whole part count }
{
    2 <= count
        && count <= 16
        && usize::from(scalar_bits(whole)) == count * usize::from(scalar_bits(part))
}

/// Whether some types are so related, where A may be known and B may.
fn may_relate_firsts(
    x: u16,
    relation: Relation,
    a: Option<Llt>,
    b: Option<Llt>,
    count: usize,
) -> bool
    requires { x ≤ 64 }
    ensures { result ≡ typings.may_relate x relation (option_to_list a) (option_to_list b) count }
{
    match relation {
        Relation::Free => true,
        Relation::Narrower => is_less(x, a, b),
        Relation::Wider => is_less(x, b, a),
        Relation::Sum => may_be_sum(x, a, b, count),
    }
}

/// Whether a scalar of fewer bits than another may stand there.
fn is_less(x: u16, less: Option<Llt>, more: Option<Llt>) -> bool
    requires { x ≤ 64 }
    ensures narrower { (count : ℕ) → result ≡ typings.may_relate x Relation.Narrower (option_to_list less) (option_to_list more) count }
    ensures wider { (count : ℕ) → result ≡ typings.may_relate x Relation.Wider (option_to_list more) (option_to_list less) count }
{
    match less {
        Some(less) => match more {
            Some(more) => scalar_bits(less) < scalar_bits(more),
            None => scalar_bits(less) < 2 * x,
        },
        None => match more {
            Some(more) => 1 < scalar_bits(more),
            None => true,
        },
    }
}

/// Whether a whole and its parts may stand there.
fn may_be_sum(x: u16, whole: Option<Llt>, part: Option<Llt>, count: usize) -> bool
    requires { x ≤ 64 }
    ensures { result ≡ typings.may_relate x Relation.Sum (option_to_list whole) (option_to_list part) count }
{
    match whole {
        Some(whole) => match part {
            Some(part) => is_sum(whole, part, count),
            None => is_count(count) && usize::from(scalar_bits(whole)) % count == 0,
        },
        None => match part {
            Some(part) => {
                is_count(count) && count * usize::from(scalar_bits(part)) <= 2 * usize::from(x)
            }
            None => is_count(count),
        },
    }
}

/// Whether the types at the places of a letter are one type of its class, as far as they are known.
fn is_one(
    alloc: Global,
    x: u16,
    l: Letter,
    typing: &Typing,
    results: &[Option<Llt>],
    sources: &[Option<Llt>],
) -> Result<bool, Memory>
    requires { x ≤ 64 }
    ensures { IfOk result (λ t. t ≡ accepted.are_one x (accepted.class_of typing.now l) (typings.known (typings.places_of_letter l typing.now results.now sources.now))) }
{
    let places = places(alloc, l, typing, results, sources)?;
    let known = known(alloc, places.as_slice())?;
    Ok(are_one(x, class_of(typing, l), known.as_slice()))
}

/// Whether the types A and B may be related as the typing says.
fn may_relate(
    alloc: Global,
    x: u16,
    typing: &Typing,
    results: &[Option<Llt>],
    sources: &[Option<Llt>],
) -> Result<bool, Memory>
    requires { x ≤ 64 }
    ensures { IfOk result (λ t. t ≡ typings.may_relate x typing.now.relation (typings.known (typings.places_of_letter Letter.A typing.now results.now sources.now)) (typings.known (typings.places_of_letter Letter.B typing.now results.now sources.now)) (length (typings.places_of_letter Letter.B typing.now results.now sources.now))) }
{
    let firsts = places(alloc, Letter::A, typing, results, sources)?;
    let seconds = places(alloc, Letter::B, typing, results, sources)?;
    let count = seconds.len();
    let a = known(alloc, firsts.as_slice())?;
    let b = known(alloc, seconds.as_slice())?;
    Ok(may_relate_lists(x, typing.relation, a.as_slice(), b.as_slice(), count))
}

/// Whether types are so related, of which these are known.
fn may_relate_lists(
    x: u16,
    relation: Relation,
    firsts: &[Llt],
    seconds: &[Llt],
    count: usize,
) -> bool
    requires { x ≤ 64 }
    ensures { result ≡ typings.may_relate x relation firsts.now seconds.now count }
{
    may_relate_firsts(
        x,
        relation,
        firsts.first().copied(),
        seconds.first().copied(),
        count,
    )
}

/// Whether the row can be met with these types.
pub(crate) fn meets(
    alloc: Global,
    x: u16,
    typing: &Typing,
    results: &[Option<Llt>],
    sources: &[Option<Llt>],
) -> Result<bool, Memory>
    requires { x ≤ 64 }
    ensures { IfOk result (λ t. t ≡ typings.meets x typing.now results.now sources.now) }
{
    let a = is_one(alloc, x, Letter::A, typing, results, sources)?;
    let b = is_one(alloc, x, Letter::B, typing, results, sources)?;
    let pointer = is_one(alloc, x, Letter::Pointer, typing, results, sources)?;
    let bit = is_one(alloc, x, Letter::Bit, typing, results, sources)?;
    let register = is_one(alloc, x, Letter::Register, typing, results, sources)?;
    let related = may_relate(alloc, x, typing, results, sources)?;
    Ok(a && b && pointer && bit && register && related)
}
