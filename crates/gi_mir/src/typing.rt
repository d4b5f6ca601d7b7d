//! Typings: the types that the results of an opcode, and the virtual registers that it reads, may have.

ghost use Rattle.std.specs.Prelude.{◌≡◌, [], ◌∷◌};
ghost use Rattle.gi_mir.specs.Typings as typings;

use std::marker::Model;

/// What stands for a type: A and B, each one type of its class, and three types that are fixed.
#[derive(Clone, Copy, Debug, PartialEq, Eq)]
pub enum Letter {
    A,
    B,
    /// p0
    Pointer,
    /// s1
    Bit,
    /// A scalar of a register's width.
    Register,
}

/// A test of one type.
#[derive(Clone, Copy, Debug, PartialEq, Eq)]
pub enum Class {
    Any,
    Pointer,
    Scalar,
    Wide,
    Register,
    Bit,
    Condition,
    Swappable,
    Rotatable,
}

/// How the types A and B are related.
#[derive(Clone, Copy, Debug, PartialEq, Eq)]
pub enum Relation {
    Free,
    /// A has fewer bits.
    Narrower,
    /// A has more bits.
    Wider,
    /// A has as many bits as the parts of type B together.
    Sum,
}

/// The letters of the results and of the sources in order, each with the letter that any number of further
/// ones have, the classes of A and B, and how these are related.
#[derive(Drop)]
pub struct Typing {
    pub results: &'static [Letter],
    pub more_results: Option<Letter>,
    pub sources: &'static [Letter],
    pub more_sources: Option<Letter>,
    pub a: Class,
    pub b: Class,
    pub relation: Relation,
}

impl Model for Typing {
    ghost use Rattle.gi_mir.specs.Typings.{TypingData};

    ghost Value = { TypingData };

    ghost view = { λ t. record { results = t.results.now; more_results = t.more_results; sources = t.sources.now; more_sources = t.more_sources; a = t.a; b = t.b; relation = t.relation } };
}

/// The types of an opcode's registers, by the form of its instructions.
#[derive(Clone, Copy, Debug, PartialEq, Eq)]
pub enum Signature {
    /// `G_BR %bb.N`
    NoTypes,
    /// `%d:A = G_CONSTANT iN V`
    NoSources(Class),
    /// `%d:A = G_ABS %a(A)`
    OneAlike(Class),
    /// `%d:A = G_ADD %a(A), %b(A)`
    TwoAlike(Class),
    /// `%d:A = G_FSHL %a(A), %b(A), %n(A)`
    ThreeAlike(Class),
    /// `%d:p0 = G_FRAME_INDEX %stack.N`
    OnePointer,
    /// `%d:A = G_PTRTOINT %p(p0)`
    FromPointer(Class),
    /// `%d:p0 = G_INTTOPTR %a(A)`
    ToPointer(Class),
    /// `%d:A = G_TRUNC %b(B)`, A narrower than B
    Truncation,
    /// `%d:A = G_ZEXT %b(B)`, A wider than B
    Extension,
    /// `%d:p0 = G_PTR_ADD %p(p0), %o(sX)`
    PointerSum,
    /// `%d:A = G_ICMP intpred(P), %a(B), %b(B)`
    Comparison,
    /// `%d:A = G_SELECT %c(B), %a(A), %b(A)`
    Selection,
    /// `%d:A, %e:s1 = G_UADDO %a(A), %b(A)`
    CarryOut,
    /// `%d:A, %e:s1 = G_UADDE %a(A), %b(A), %c(s1)`
    CarryThrough,
    /// `%d:A = G_MERGE_VALUES %a(B), %b(B), ..`, A the sum of the parts
    Merge,
    /// `%d:B, %e:B, .. = G_UNMERGE_VALUES %a(A)`, A the sum of the parts
    Unmerge,
    /// `%d:A = G_PHI %a(A), %bb.N, %b(A), %bb.M, ..`
    Joining,
    /// `G_STORE %a(A), %p(p0)`
    Store,
    /// `G_BRCOND %a(A), %bb.N`
    OneCondition,
}

impl Signature {
    /// The typing of instructions of this form.
    pub fn typing(self) -> Typing
        ensures { result ≡ typings.typing_by self }
    {
        match self {
            Signature::NoTypes => no_types(),
            Signature::NoSources(a) => no_sources(a),
            Signature::OneAlike(a) => one_alike(a),
            Signature::TwoAlike(a) => two_alike(a),
            Signature::ThreeAlike(a) => three_alike(a),
            Signature::OnePointer => one_pointer(),
            Signature::FromPointer(a) => from_pointer(a),
            Signature::ToPointer(a) => to_pointer(a),
            Signature::Truncation => truncation(),
            Signature::Extension => extension(),
            Signature::PointerSum => pointer_sum(),
            Signature::Comparison => comparison(),
            Signature::Selection => selection(),
            Signature::CarryOut => carry_out(),
            Signature::CarryThrough => carry_through(),
            Signature::Merge => merge(),
            Signature::Unmerge => unmerge(),
            Signature::Joining => joining(),
            Signature::Store => store(),
            Signature::OneCondition => one_condition(),
        }
    }
}

fn typed(results: &'static [Letter], sources: &'static [Letter], a: Class, b: Class) -> Typing
    ensures { result ≡ typings.typed results.now sources.now a b }
{
    Typing {
        results,
        more_results: None,
        sources,
        more_sources: None,
        a,
        b,
        relation: Relation::Free,
    }
}

/// `G_BR %bb.N`
fn no_types() -> Typing
    ensures { result ≡ typings.no_types }
{
    typed(&[], &[], Class::Any, Class::Any)
}

/// `%d:A = G_CONSTANT iN V`
fn no_sources(a: Class) -> Typing
    ensures { result ≡ typings.no_sources a }
{
    typed(&[Letter::A], &[], a, a)
}

/// `%d:A = G_ABS %a(A)`
fn one_alike(a: Class) -> Typing
    ensures { result ≡ typings.one_alike a }
{
    typed(&[Letter::A], &[Letter::A], a, a)
}

/// `%d:A = G_ADD %a(A), %b(A)`
fn two_alike(a: Class) -> Typing
    ensures { result ≡ typings.two_alike a }
{
    typed(&[Letter::A], &[Letter::A, Letter::A], a, a)
}

/// `%d:A = G_FSHL %a(A), %b(A), %n(A)`
fn three_alike(a: Class) -> Typing
    ensures { result ≡ typings.three_alike a }
{
    typed(&[Letter::A], &[Letter::A, Letter::A, Letter::A], a, a)
}

/// `%d:p0 = G_FRAME_INDEX %stack.N`
fn one_pointer() -> Typing
    ensures { result ≡ typings.one_pointer }
{
    typed(&[Letter::Pointer], &[], Class::Any, Class::Any)
}

/// `%d:A = G_PTRTOINT %p(p0)`
fn from_pointer(a: Class) -> Typing
    ensures { result ≡ typings.from_pointer a }
{
    typed(&[Letter::A], &[Letter::Pointer], a, a)
}

/// `%d:p0 = G_INTTOPTR %a(A)`
fn to_pointer(a: Class) -> Typing
    ensures { result ≡ typings.to_pointer a }
{
    typed(&[Letter::Pointer], &[Letter::A], a, a)
}

/// Two scalars, one from the other.
fn conversion(relation: Relation) -> Typing
    ensures { result ≡ record (typings.typed (Letter.A ∷ []) (Letter.B ∷ []) Class.Scalar Class.Scalar) { relation = relation } }
{
    Typing {
        results: &[Letter::A],
        more_results: None,
        sources: &[Letter::B],
        more_sources: None,
        a: Class::Scalar,
        b: Class::Scalar,
        relation,
    }
}

/// `%d:A = G_TRUNC %b(B)`, A narrower than B
fn truncation() -> Typing
    ensures { result ≡ typings.truncation }
{
    conversion(Relation::Narrower)
}

/// `%d:A = G_ZEXT %b(B)`, A wider than B
fn extension() -> Typing
    ensures { result ≡ typings.extension }
{
    conversion(Relation::Wider)
}

/// `%d:p0 = G_PTR_ADD %p(p0), %o(sX)`
fn pointer_sum() -> Typing
    ensures { result ≡ typings.pointer_sum }
{
    typed(
        &[Letter::Pointer],
        &[Letter::Pointer, Letter::Register],
        Class::Any,
        Class::Any,
    )
}

/// `%d:A = G_ICMP intpred(P), %a(B), %b(B)`
fn comparison() -> Typing
    ensures { result ≡ typings.comparison }
{
    typed(
        &[Letter::A],
        &[Letter::B, Letter::B],
        Class::Condition,
        Class::Any,
    )
}

/// `%d:A = G_SELECT %c(B), %a(A), %b(A)`
fn selection() -> Typing
    ensures { result ≡ typings.selection }
{
    typed(
        &[Letter::A],
        &[Letter::B, Letter::A, Letter::A],
        Class::Any,
        Class::Condition,
    )
}

/// `%d:A, %e:s1 = G_UADDO %a(A), %b(A)`
fn carry_out() -> Typing
    ensures { result ≡ typings.carry_out }
{
    typed(
        &[Letter::A, Letter::Bit],
        &[Letter::A, Letter::A],
        Class::Wide,
        Class::Wide,
    )
}

/// `%d:A, %e:s1 = G_UADDE %a(A), %b(A), %c(s1)`
fn carry_through() -> Typing
    ensures { result ≡ typings.carry_through }
{
    typed(
        &[Letter::A, Letter::Bit],
        &[Letter::A, Letter::A, Letter::Bit],
        Class::Wide,
        Class::Wide,
    )
}

/// `%d:A = G_MERGE_VALUES %a(B), %b(B), ..`, A the sum of the parts
fn merge() -> Typing
    ensures { result ≡ typings.merge }
{
    Typing {
        results: &[Letter::A],
        more_results: None,
        sources: &[],
        more_sources: Some(Letter::B),
        a: Class::Scalar,
        b: Class::Scalar,
        relation: Relation::Sum,
    }
}

/// `%d:B, %e:B, .. = G_UNMERGE_VALUES %a(A)`, A the sum of the parts
fn unmerge() -> Typing
    ensures { result ≡ typings.unmerge }
{
    Typing {
        results: &[],
        more_results: Some(Letter::B),
        sources: &[Letter::A],
        more_sources: None,
        a: Class::Scalar,
        b: Class::Scalar,
        relation: Relation::Sum,
    }
}

/// `%d:A = G_PHI %a(A), %bb.N, %b(A), %bb.M, ..`
fn joining() -> Typing
    ensures { result ≡ typings.joining }
{
    Typing {
        results: &[Letter::A],
        more_results: None,
        sources: &[],
        more_sources: Some(Letter::A),
        a: Class::Any,
        b: Class::Any,
        relation: Relation::Free,
    }
}

/// `G_STORE %a(A), %p(p0)`
fn store() -> Typing
    ensures { result ≡ typings.store }
{
    typed(&[], &[Letter::A, Letter::Pointer], Class::Any, Class::Any)
}

/// `G_BRCOND %a(A), %bb.N`
fn one_condition() -> Typing
    ensures { result ≡ typings.one_condition }
{
    typed(&[], &[Letter::A], Class::Condition, Class::Condition)
}
