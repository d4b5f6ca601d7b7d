//! When an instruction is formed.

ghost use Rattle.std.specs.Prelude.{◌≡◌, ◌≤◌, length, drop, IfSome, option_map};
ghost use Rattle.std.specs.List.{list_all, list_any};
ghost use Rattle.gi_mir.specs.Row.{rows_of};
ghost use Rattle.gi_mir.specs.Formed.{admits, is_repeated, wanted_after, with_wanted, taken, fits, fits_one_of, is_alignment, has_access, is_in_range, is_constant_in_range, is_formed};

use crate::instr::Instr;
use crate::opcode::Opcode;
use crate::operand::{MemOp, Operand, SymbolFlag};
use crate::row::{Access, Form};
use gi_llt::Llt;

impl Form {
    /// Whether an operand has this form.
    pub fn admits(self, x: Operand) -> bool
        ensures { result ≡ admits self x }
    {
        match self {
            Form::Def => matches!(x, Operand::Def(_, _)),
            Form::Use => matches!(x, Operand::Use(_)),
            Form::TypedUse => matches!(x, Operand::Use(_)),
            Form::Physical => matches!(x, Operand::Phys(_)),
            Form::PhysicalDef => matches!(x, Operand::PhysDef(_)),
            Form::Source => matches!(x, Operand::Use(_) | Operand::Phys(_)),
            Form::Address => matches!(x, Operand::Use(_) | Operand::Phys(_) | Operand::Frame(_)),
            Form::Int => matches!(x, Operand::Int(_)),
            Form::High => matches!(x, Operand::Int(_) | Operand::Global(SymbolFlag::Hi, _)),
            Form::Low => matches!(x, Operand::Int(_) | Operand::Global(SymbolFlag::Lo, _)),
            Form::Constant => matches!(x, Operand::Constant(_, _)),
            Form::Block => matches!(x, Operand::Block(_)),
            Form::Predicate => matches!(x, Operand::Predicate(_)),
            Form::Frame => matches!(x, Operand::Frame(_)),
            Form::Global => matches!(x, Operand::Global(SymbolFlag::Plain, _)),
            Form::Callee => matches!(
                x,
                Operand::Global(SymbolFlag::Call, _) | Operand::Routine(SymbolFlag::Call, _)
            ),
            Form::SavedMask => matches!(x, Operand::SavedMask),
            Form::ImplicitUse => matches!(x, Operand::ImplicitUse(_)),
            Form::ImplicitDef => matches!(x, Operand::ImplicitDef(_)),
            Form::Results => matches!(x, Operand::Def(_, _)),
            Form::Parts => matches!(x, Operand::Use(_)),
            Form::Entry => matches!(x, Operand::Use(_)),
            Form::EntryBlock => matches!(x, Operand::Block(_)),
            Form::Implicits => matches!(x, Operand::ImplicitUse(_) | Operand::ImplicitDef(_)),
            Form::ImplicitUses => matches!(x, Operand::ImplicitUse(_)),
        }
    }

    /// Whether this form stands for any number of operands, none included.
    pub fn is_repeated(self) -> bool
        ensures { result ≡ is_repeated self }
    {
        matches!(
            self,
            Form::Results | Form::Parts | Form::Entry | Form::Implicits | Form::ImplicitUses
        )
    }

    /// The form that is wanted once an operand has this one, before those that follow in the row.
    pub fn wanted_after(self) -> Option<Form>
        ensures { result ≡ wanted_after self }
    {
        match self {
            Form::Results => Some(Form::Results),
            Form::Parts => Some(Form::Parts),
            Form::Entry => Some(Form::EntryBlock),
            Form::EntryBlock => Some(Form::Entry),
            Form::Implicits => Some(Form::Implicits),
            Form::ImplicitUses => Some(Form::ImplicitUses),
            _ => None,
        }
    }
}

/// The place among `forms` after the one that takes an operand, from `at` on, and what is wanted there.
fn take_from(x: Operand, at: usize, forms: &[Form]) -> Option<(Option<Form>, usize)>
    requires { at ≤ length forms.now }
    ensures value { option_map (λ left. with_wanted left.0 (drop left.1 forms.now)) result ≡ taken x (drop at forms.now) }
    ensures within { IfSome result (λ left. left.1 ≤ length forms.now) }
{
    for i in at..forms.len() {
        let form = forms[i];
        if form.admits(x) {
            return Some((form.wanted_after(), i + 1));
        }
        if !form.is_repeated() {
            return None;
        }
    }
    None
}

/// The same where a form may be wanted first.
fn take(
    x: Operand,
    wanted: Option<Form>,
    at: usize,
    forms: &[Form],
) -> Option<(Option<Form>, usize)>
    requires { at ≤ length forms.now }
    ensures value { option_map (λ left. with_wanted left.0 (drop left.1 forms.now)) result ≡ taken x (with_wanted wanted (drop at forms.now)) }
    ensures within { IfSome result (λ left. left.1 ≤ length forms.now) }
{
    match wanted {
        None => take_from(x, at, forms),
        Some(form) => {
            if form.admits(x) {
                Some((form.wanted_after(), at))
            } else if form.is_repeated() {
                take_from(x, at, forms)
            } else {
                None
            }
        }
    }
}

/// Whether all forms may stand for no operand.
fn are_repeated(forms: &[Form]) -> bool
    ensures { result ≡ list_all is_repeated forms.now }
{
    forms.iter().all(|form| form.is_repeated())
}

/// The same of what is wanted and the forms from `at` on.
fn all_repeated(wanted: Option<Form>, at: usize, forms: &[Form]) -> bool
    requires { at ≤ length forms.now }
    ensures { result ≡ list_all is_repeated (with_wanted wanted (drop at forms.now)) }
{
    let rest = are_repeated(&forms[at..]);
    match wanted {
        None => rest,
        Some(form) => form.is_repeated() && rest,
    }
}

/// Whether operands have these forms in order.
pub fn fits(forms: &[Form], operands: &[Operand]) -> bool
    ensures { result ≡ fits forms.now operands.now }
{
    let mut wanted = None;
    let mut at = 0;
    for x in operands {
        match take(*x, wanted, at, forms) {
            Some((next, place)) => {
                wanted = next;
                at = place;
            }
            None => return false,
        }
    }
    all_repeated(wanted, at, forms)
}

/// Whether an alignment is one that a value of this type may have in memory.
pub fn is_alignment(ty: Llt, align: u64) -> bool
    ensures { result ≡ is_alignment ty align }
{
    match ty {
        Llt::Scalar(bits) => align.is_power_of_two() || align == (bits as u64 + 7) / 8,
        Llt::Pointer => align.is_power_of_two() || align == 0,
    }
}

fn has_access(access: Access, mem: Option<MemOp>) -> bool
    ensures { result ≡ has_access access mem }
{
    match access {
        Access::Neither => match mem {
            None => true,
            Some(_) => false,
        },
        Access::Load => match mem {
            None => false,
            Some(m) => m.load && is_alignment(m.ty, m.align),
        },
        Access::Store => match mem {
            None => false,
            Some(m) => !m.load && is_alignment(m.ty, m.align),
        },
    }
}

/// Whether a constant is below 2 to its width, where that is at most 128.
fn is_constant_in_range(bits: u16, value: u128) -> bool
    ensures { result ≡ is_constant_in_range bits value }
{
    bits >= 128 || value >> bits == 0
}

/// Whether a physical register is below 32, and a constant within its width.
pub fn is_in_range(x: Operand) -> bool
    ensures { result ≡ is_in_range x }
{
    match x {
        Operand::Phys(n) => n < 32,
        Operand::PhysDef(n) => n < 32,
        Operand::ImplicitUse(n) => n < 32,
        Operand::ImplicitDef(n) => n < 32,
        Operand::Constant(bits, value) => is_constant_in_range(bits, value),
        _ => true,
    }
}

/// Whether operands have one of these rows.
fn fits_row(rows: &[&[Form]], operands: &[Operand]) -> bool
    ensures { result ≡ list_any (λ row. fits row.now operands.now) rows.now }
{
    rows.iter().any(|row| fits(row, operands))
}

/// Whether operands have a row of this opcode.
fn fits_opcode(op: Opcode, operands: &[Operand]) -> bool
    ensures { result ≡ fits_one_of (rows_of op) operands.now }
{
    fits_row(op.rows(), operands)
}

/// Whether each operand is in range.
fn are_in_range(operands: &[Operand]) -> bool
    ensures { result ≡ list_all is_in_range operands.now }
{
    operands.iter().all(|x| is_in_range(*x))
}

/// Whether an instruction is formed: its operands agree with a row of its opcode, its memory operand is the
/// row's and aligned, and its registers and constants are in range.
#[tactic(auto, unfolding(crate::specs::Formed::is_formed))]
pub fn formed(instr: &Instr) -> bool
    ensures { result ≡ is_formed instr.now }
{
    let operands = instr.operands.as_slice();
    let row = fits_opcode(instr.op, operands);
    let access = has_access(instr.op.access(), instr.mem);
    let range = are_in_range(operands);
    row && access && range
}
