//! The one result of an operation on known values.

ghost use Rattle.std.specs.Prelude.{◌≡◌, ◌+◌, ◌*◌, ◌^◌, ◌<◌, ◌≤◌, ◌⊎◌, true, [], ◌∷◌, is_some, IfSome};
ghost use Rattle.std.specs.List.{list_all, list_any};
ghost use Rattle.gi_llt.specs.Llt.{width_of};
ghost use Rattle.gi_mir.specs.Accepted as accepted;
ghost use Rattle.gi_mir.specs.Row.{rows_of};
ghost use Rattle.gi_mir.specs.Types as types_alone;
ghost use Rattle.gi_mir.specs.Typings as typings;
ghost use Rattle.gi_meaning.specs.Fold as folding;
ghost use Rattle.gi_meaning.specs.Generic as generic;
ghost use Rattle.gi_meaning.specs.Meaning.{meaning_of};
ghost use Rattle.gi_meaning.specs.Plain.{given_of, is_plain};
ghost use Rattle.gi_meaning.specs.Argument.{Test, Value};
ghost use Rattle.gi_mir.specs.declared.opcode.Opcode as Opcode;
ghost use Rattle.gi_mir.specs.declared.typing.Class.TheVariants as Class;

use crate::bits::has_bits;
use crate::choices::{holds, selected};
use crate::gives::Gives;
use crate::operations::{binary, unary};
use crate::parts::merged_of;
use crate::shifts::{free, funnel_left, funnel_right};
use crate::sums::bit_of;
use gi_llt::{Llt, Target, width};
use gi_mir::accepted::accepts;
use gi_mir::opcode::Opcode;
use gi_mir::operand::{Flags, Pred};
use gi_mir::row::{Access, Form};
use gi_mir::stage::Stage;
use gi_mir::types::is_any;

/// Whether an operand of this form is a register that is read, or a predicate.
fn is_read(form: Form) -> bool
    ensures { result ≡ folding.is_read form }
{
    matches!(
        form,
        Form::Use | Form::TypedUse | Form::Parts | Form::Predicate
    )
}

/// Whether each operand is read.
fn are_read(forms: &[Form]) -> bool
    ensures { result ≡ list_all folding.is_read forms.now }
{
    forms.iter().all(|form| is_read(*form))
}

/// Whether a row has one result, and its other operands are read.
fn is_computation(row: &[Form]) -> bool
    ensures { result ≡ folding.is_computation row.now }
{
    match row {
        [Form::Def, forms @ ..] => are_read(forms),
        _ => false,
    }
}

/// Whether one of these rows is a computation's.
fn any_computation(rows: &[&[Form]]) -> bool
    ensures { result ≡ list_any (λ row. folding.is_computation row.now) rows.now }
{
    rows.iter().any(|row| is_computation(row))
}

/// Whether an opcode has a row of a computation.
#[tactic(auto, using(gi_mir::proofs::FormedLemmas::any_mapped))]
fn has_computation(op: Opcode) -> bool
    ensures { result ≡ list_any folding.is_computation (rows_of op) }
{
    any_computation(op.rows())
}

/// Whether an opcode before selection has one result, and its other operands are registers and at most a predicate.
pub fn is_computed(op: Opcode) -> bool
    ensures { result ≡ folding.is_computed op }
{
    Stage::Before.has_opcode(op) && op.access() == Access::Neither && has_computation(op)
}

/// Whether a predicate stands in a row.
fn tests(row: &[Form]) -> bool
    ensures { result ≡ list_any folding.is_predicate_form row.now }
{
    row.iter().any(|form| matches!(form, Form::Predicate))
}

/// Whether a predicate stands in one of these rows.
fn any_tests(rows: &[&[Form]]) -> bool
    ensures { result ≡ list_any (λ row. list_any folding.is_predicate_form row.now) rows.now }
{
    rows.iter().any(|row| tests(row))
}

/// Whether an opcode has a predicate.
#[tactic(auto, using(gi_mir::proofs::FormedLemmas::any_mapped))]
pub fn has_predicate(op: Opcode) -> bool
    ensures { result ≡ folding.has_predicate op }
{
    any_tests(op.rows())
}

/// Whether an opcode takes this predicate, or none: a comparison has one, and nothing else has.
pub fn takes(op: Opcode, pred: Option<Pred>) -> bool
    ensures { result ≡ folding.takes op pred }
{
    has_predicate(op) == pred.is_some()
}

/// Whether a number is a value of a type.
#[tactic(auto, using(crate::proofs::Folding::any_width))]
pub fn is_value(target: Target, ty: Llt, value: u128) -> bool
    requires { (target.xlen ≡ 32) ⊎ (target.xlen ≡ 64) }
    ensures { result ≡ folding.is_value target.xlen ty value }
{
    is_any(target.xlen, ty) && has_bits(width(ty, target), value)
}

/// Whether numbers are values of types, one for each.
#[tactic(auto, using(crate::proofs::Folding::values_more, crate::proofs::Folding::values_none, crate::proofs::Folding::values_bad, crate::proofs::Folding::values_uneven))]
pub fn are_values(target: Target, types: &[Llt], values: &[u128]) -> bool
    requires { (target.xlen ≡ 32) ⊎ (target.xlen ≡ 64) }
    ensures { result ≡ folding.are_values target.xlen types.now values.now }
{
    if types.len() != values.len() {
        return false;
    }
    for i in 0..types.len() {
        if !is_value(target, types[i], values[i]) {
            return false;
        }
    }
    true
}

/// What a merge gives of its parts.
pub fn merged(target: Target, outcome: Llt, types: &[Llt], values: &[u128]) -> Gives
    requires xlen { (target.xlen ≡ 32) ⊎ (target.xlen ≡ 64) }
    requires accepted { accepted.are_typed target.xlen typings.merge (outcome ∷ []) types.now ≡ true }
    requires fit { folding.are_values target.xlen types.now values.now ≡ true }
    ensures { given_of result ≡ generic.merge (width_of target.xlen outcome ∷ []) (folding.registers target.xlen types.now values.now) }
{
    match types {
        [] => Gives::Undefined,
        [part, ..] => Gives::One(merged_of(width(*part, target), values)),
    }
}

/// What a high product gives.
pub fn high_product(
    target: Target,
    op: Opcode,
    flags: Flags,
    outcome: Llt,
    types: &[Llt],
    values: &[u128],
) -> Gives
    requires xlen { (target.xlen ≡ 32) ⊎ (target.xlen ≡ 64) }
    requires high { (op ≡ Opcode.GenericUnsignedMultiplyHigh) ⊎ (op ≡ Opcode.GenericSignedMultiplyHigh) }
    requires accepted { accepted.accepts target.xlen op (outcome ∷ []) types.now ≡ true }
    requires fit { folding.are_values target.xlen types.now values.now ≡ true }
    ensures { given_of result ≡ folding.gives_of (meaning_of flags op) (width_of target.xlen outcome ∷ []) (folding.registers target.xlen types.now values.now) }
{
    let n = target.xlen;
    match values {
        [a, b] => {
            let signed = op == Opcode::GenericSignedMultiplyHigh;
            Gives::One(gi_llt::high_product(*a, *b, n, signed))
        }
        _ => Gives::Undefined,
    }
}

/// What a comparison gives.
pub fn compared(target: Target, pred: Pred, outcome: Llt, types: &[Llt], values: &[u128]) -> Gives
    requires xlen { (target.xlen ≡ 32) ⊎ (target.xlen ≡ 64) }
    requires accepted { accepted.are_typed target.xlen typings.comparison (outcome ∷ []) types.now ≡ true }
    requires fit { folding.are_values target.xlen types.now values.now ≡ true }
    ensures { given_of result ≡ generic.comparison (width_of target.xlen outcome ∷ []) (Test pred ∷ folding.registers target.xlen types.now values.now) }
{
    match (types, values) {
        ([ty, _], [a, b]) => Gives::One(bit_of(holds(pred, width(*ty, target), *a, *b))),
        _ => Gives::Undefined,
    }
}

/// What a selection gives.
pub fn chosen(target: Target, flags: Flags, outcome: Llt, types: &[Llt], values: &[u128]) -> Gives
    requires accepted { accepted.are_typed target.xlen typings.selection (outcome ∷ []) types.now ≡ true }
    requires fit { folding.are_values target.xlen types.now values.now ≡ true }
    ensures { given_of result ≡ folding.gives_of (meaning_of flags Opcode.GenericSelect) (width_of target.xlen outcome ∷ []) (folding.registers target.xlen types.now values.now) }
{
    match values {
        [c, a, b] => Gives::One(selected(*c, *a, *b)),
        _ => Gives::Undefined,
    }
}

/// What a funnel shift gives of values of one type.
pub fn funnelled(n: u16, op: Opcode, flags: Flags, a: u128, b: u128, k: u128) -> Gives
    requires positive { 0 < n }
    requires limit { n ≤ 128 }
    requires a_fits { a < 2 ^ n }
    requires b_fits { b < 2 ^ n }
    requires funnel { (op ≡ Opcode.GenericFunnelShiftLeft) ⊎ (op ≡ Opcode.GenericFunnelShiftRight) }
    ensures { given_of result ≡ folding.gives_of (meaning_of flags op) (n ∷ []) (Value n a ∷ Value n b ∷ Value n k ∷ []) }
{
    match op {
        Opcode::GenericFunnelShiftLeft => Gives::One(funnel_left(n, a, b, k)),
        _ => Gives::One(funnel_right(n, a, b, k)),
    }
}

/// What an opcode gives of one register.
#[tactic(auto, using(crate::proofs::Folding::value_bits, crate::proofs::Folding::any_width, crate::proofs::Few::few_plain))]
pub fn of_one(target: Target, op: Opcode, flags: Flags, outcome: Llt, ty: Llt, a: u128) -> Gives
    requires xlen { (target.xlen ≡ 32) ⊎ (target.xlen ≡ 64) }
    requires few { folding.reads_few op ≡ true }
    requires any { types_alone.is_any target.xlen outcome ≡ true }
    requires value { folding.is_value target.xlen ty a ≡ true }
    ensures { given_of result ≡ folding.gives_of (meaning_of flags op) (width_of target.xlen outcome ∷ []) (Value (width_of target.xlen ty) a ∷ []) }
{
    unary(op, flags, width(ty, target), width(outcome, target), a)
}

/// What an opcode gives of two registers of its result's width.
#[tactic(auto, using(crate::proofs::Folding::value_bits, crate::proofs::Folding::any_width, crate::proofs::Few::few_plain))]
pub fn of_two(target: Target, op: Opcode, flags: Flags, outcome: Llt, a: u128, b: u128) -> Gives
    requires xlen { (target.xlen ≡ 32) ⊎ (target.xlen ≡ 64) }
    requires few { folding.reads_few op ≡ true }
    requires a_value { folding.is_value target.xlen outcome a ≡ true }
    requires b_fits { b < 2 ^ width_of target.xlen outcome }
    ensures { given_of result ≡ folding.gives_of (meaning_of flags op) (width_of target.xlen outcome ∷ []) (Value (width_of target.xlen outcome) a ∷ Value (width_of target.xlen outcome) b ∷ []) }
{
    binary(op, flags, width(outcome, target), a, b)
}

/// What an opcode of at most two registers gives.
#[tactic(auto, using(crate::proofs::Few::few_lengths, crate::proofs::Few::few_none, crate::proofs::Few::few_two))]
pub fn of_few(
    target: Target,
    op: Opcode,
    flags: Flags,
    outcome: Llt,
    types: &[Llt],
    values: &[u128],
) -> Gives
    requires xlen { (target.xlen ≡ 32) ⊎ (target.xlen ≡ 64) }
    requires computed { folding.is_computed op ≡ true }
    requires few { folding.reads_few op ≡ true }
    requires any { types_alone.is_any target.xlen outcome ≡ true }
    requires accepted { accepted.accepts target.xlen op (outcome ∷ []) types.now ≡ true }
    requires fit { folding.are_values target.xlen types.now values.now ≡ true }
    ensures { given_of result ≡ folding.gives_of (meaning_of flags op) (width_of target.xlen outcome ∷ []) (folding.registers target.xlen types.now values.now) }
{
    match values {
        [] => free(width(outcome, target)),
        [a] => of_one(target, op, flags, outcome, types[0], *a),
        [a, b] => of_two(target, op, flags, outcome, *a, *b),
        _ => Gives::Undefined,
    }
}

/// What a funnel shift gives of three registers.
pub fn of_three(
    target: Target,
    op: Opcode,
    flags: Flags,
    outcome: Llt,
    types: &[Llt],
    values: &[u128],
) -> Gives
    requires xlen { (target.xlen ≡ 32) ⊎ (target.xlen ≡ 64) }
    requires funnel { (op ≡ Opcode.GenericFunnelShiftLeft) ⊎ (op ≡ Opcode.GenericFunnelShiftRight) }
    requires accepted { accepted.are_typed target.xlen (typings.three_alike Class.Rotatable) (outcome ∷ []) types.now ≡ true }
    requires fit { folding.are_values target.xlen types.now values.now ≡ true }
    ensures { given_of result ≡ folding.gives_of (meaning_of flags op) (width_of target.xlen outcome ∷ []) (folding.registers target.xlen types.now values.now) }
{
    match values {
        [a, b, k] => funnelled(width(outcome, target), op, flags, *a, *b, *k),
        _ => Gives::Undefined,
    }
}

/// The one result, where there is no choice.
pub fn only_result(gives: Gives) -> Option<u128>
    ensures { result ≡ folding.only_result (given_of gives) }
{
    match gives {
        Gives::One(value) => Some(value),
        _ => None,
    }
}

/// What an operation that can be computed gives.
#[tactic(auto, using(crate::proofs::Few::predicate_of_comparison))]
pub fn computed(
    target: Target,
    op: Opcode,
    flags: Flags,
    pred: Option<Pred>,
    outcome: Llt,
    types: &[Llt],
    values: &[u128],
) -> Gives
    requires xlen { (target.xlen ≡ 32) ⊎ (target.xlen ≡ 64) }
    requires computed { folding.is_computed op ≡ true }
    requires test { folding.takes op pred ≡ true }
    requires any { types_alone.is_any target.xlen outcome ≡ true }
    requires accepted { accepted.accepts target.xlen op (outcome ∷ []) types.now ≡ true }
    requires fit { folding.are_values target.xlen types.now values.now ≡ true }
    ensures { given_of result ≡ folding.gives_of (meaning_of flags op) (width_of target.xlen outcome ∷ []) (folding.after_test pred (folding.registers target.xlen types.now values.now)) }
{
    match op {
        Opcode::GenericMergeValues => merged(target, outcome, types, values),
        Opcode::GenericSelect => chosen(target, flags, outcome, types, values),
        Opcode::GenericUnsignedMultiplyHigh | Opcode::GenericSignedMultiplyHigh => {
            high_product(target, op, flags, outcome, types, values)
        }
        Opcode::GenericFunnelShiftLeft | Opcode::GenericFunnelShiftRight => {
            of_three(target, op, flags, outcome, types, values)
        }
        _ => match pred {
            Some(test) => compared(target, test, outcome, types, values),
            None => of_few(target, op, flags, outcome, types, values),
        },
    }
}

/// What an operation on known values gives: `None` exactly where the types or the values aren't those that
/// the opcode takes, where a comparison has no predicate or another opcode has one, and for every opcode
/// that has another operand or no one result.
pub fn given(
    op: Opcode,
    flags: Flags,
    pred: Option<Pred>,
    outcome: Llt,
    target: Target,
    types: &[Llt],
    args: &[u128],
) -> Option<Gives>
    requires { (target.xlen ≡ 32) ⊎ (target.xlen ≡ 64) }
    ensures computed { is_some result ≡ folding.can_fold op pred outcome target.xlen types.now args.now }
    ensures value { IfSome result (λ gives. given_of gives ≡ folding.gives_of (meaning_of flags op) (width_of target.xlen outcome ∷ []) (folding.after_test pred (folding.registers target.xlen types.now args.now))) }
{
    if !is_computed(op)
        || !takes(op, pred)
        || !is_any(target.xlen, outcome)
        || !accepts(target, op, &[outcome], types)
        || !are_values(target, types, args)
    {
        return None;
    }
    Some(computed(target, op, flags, pred, outcome, types, args))
}

/// The one result of an operation on known values: `None` exactly where its definition leaves a choice or
/// promises nothing, and where `given` is `None`.
pub fn fold(
    op: Opcode,
    flags: Flags,
    pred: Option<Pred>,
    outcome: Llt,
    target: Target,
    types: &[Llt],
    args: &[u128],
) -> Option<u128>
    requires { (target.xlen ≡ 32) ⊎ (target.xlen ≡ 64) }
    ensures { result ≡ folding.fold_of op flags pred outcome target.xlen types.now args.now }
{
    match given(op, flags, pred, outcome, target, types, args) {
        Some(gives) => only_result(gives),
        None => None,
    }
}
