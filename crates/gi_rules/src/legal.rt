//! Which instructions are legal.

ghost use Rattle.std.specs.Prelude.{◌≡◌, ◌≤◌, ◌⊎◌, IfSome, drop, length, option_map, true};
ghost use Rattle.std.specs.List.{list_all, list_any};
ghost use Rattle.std.specs.Option.{option_map_or};
ghost use Rattle.gi_mir.specs.Registers.{type_of_kind};
ghost use Rattle.gi_rules.specs.Legal as legal;

use crate::table::{LegalType, legal_rows};
use gi_llt::{Llt, Target, width};
use gi_mir::entry::InMemory;
use gi_mir::function::Function;
use gi_mir::instr::Instr;
use gi_mir::opcode::Opcode;
use gi_mir::operand::{Kind, MemOp, Operand};
use gi_mir::types::{is_in_memory, is_pointer, scalar_bits};

/// Whether a type is a scalar of so many bits.
fn has_bits(bits: u16, ty: Llt) -> bool
    ensures { result ≡ legal.has_bits bits ty }
{
    match ty {
        Llt::Scalar(n) => n == bits,
        Llt::Pointer => false,
    }
}

impl LegalType {
    /// Whether a type may stand here.
    fn has(self, x: u16, ty: Llt) -> bool
        requires { x ≤ 64 }
        ensures { result ≡ legal.is_legal_type x self ty }
    {
        match self {
            LegalType::Register | LegalType::Registers => has_bits(x, ty),
            LegalType::Half => x == 64 && has_bits(32, ty),
            LegalType::Pointer | LegalType::Pointers => is_pointer(ty),
            LegalType::Bytes => is_in_memory(x, InMemory::Extended, ty),
            LegalType::FewerBytes => is_in_memory(x, InMemory::Extended, ty) && scalar_bits(ty) < x,
        }
    }

    /// Whether any number of types stand here.
    fn is_repeated(self) -> bool
        ensures { result ≡ legal.is_repeated self }
    {
        matches!(self, LegalType::Registers | LegalType::Pointers)
    }

    /// Whether the type of a register may stand here, which one of class `gpr` has not.
    fn has_there(self, x: u16, ty: Option<Llt>) -> bool
        requires { x ≤ 64 }
        ensures { result ≡ legal.is_legal_there x self ty }
    {
        match ty {
            Some(ty) => self.has(x, ty),
            None => false,
        }
    }
}

/// The place in a row behind a type that stands at `at`, where it may stand there.
fn left_by(x: u16, ty: Option<Llt>, at: usize, row: &[LegalType]) -> Option<usize>
    requires small { x ≤ 64 }
    requires within { at ≤ length row.now }
    ensures value { option_map (λ next. drop next row.now) result ≡ legal.left_by x ty (drop at row.now) }
    ensures within { IfSome result (λ next. next ≤ length row.now) }
{
    if at == row.len() {
        return None;
    }
    let legal = row[at];
    if !legal.has_there(x, ty) {
        return None;
    }
    Some(if legal.is_repeated() { at } else { at + 1 })
}

/// Whether each type of a list may stand for no register.
fn are_repeated(row: &[LegalType]) -> bool
    ensures { result ≡ list_all legal.is_repeated row.now }
{
    row.iter().all(|legal| legal.is_repeated())
}

/// Whether what is left of a row from `at` on is the type in memory.
fn fits_memory(x: u16, mem: Option<MemOp>, at: usize, row: &[LegalType]) -> bool
    requires small { x ≤ 64 }
    requires within { at ≤ length row.now }
    ensures { result ≡ legal.fits x (drop at row.now) (legal.type_in_memory mem) }
{
    match mem {
        None => are_repeated(&row[at..]),
        Some(mem) => match left_by(x, Some(mem.ty), at, row) {
            Some(next) => are_repeated(&row[next..]),
            None => false,
        },
    }
}

/// The type of a register of this kind.
fn type_of_kind(kind: Kind) -> Option<Llt>
    ensures { result ≡ type_of_kind kind }
{
    match kind {
        Kind::Generic(ty) | Kind::Banked(ty) => Some(ty),
        Kind::Class => None,
    }
}

/// The type of the virtual register that is this operand, if one is.
fn type_there(function: &Function, operand: Operand) -> Option<Option<Llt>>
    ensures { result ≡ legal.type_there function.now operand }
{
    match operand {
        Operand::Def(r, _) => Some(type_of_kind(function.kind_of(r))),
        Operand::Use(r) => Some(type_of_kind(function.kind_of(r))),
        _ => None,
    }
}

/// Whether the types of the virtual registers among operands, and then the one in memory, are those of a row.
fn fits(
    x: u16,
    function: &Function,
    operands: &[Operand],
    mem: Option<MemOp>,
    row: &[LegalType],
) -> bool
    requires { x ≤ 64 }
    ensures { result ≡ legal.fits x row.now (legal.types_of function.now operands.now mem) }
{
    let mut at = 0;
    for operand in operands {
        if let Some(ty) = type_there(function, *operand) {
            match left_by(x, ty, at, row) {
                Some(next) => at = next,
                None => return false,
            }
        }
    }
    fits_memory(x, mem, at, row)
}

/// Whether these types are those of one of these rows.
fn fits_row(
    x: u16,
    function: &Function,
    operands: &[Operand],
    mem: Option<MemOp>,
    rows: &[&[LegalType]],
) -> bool
    requires { x ≤ 64 }
    ensures { result ≡ list_any (λ row. legal.fits x row.now (legal.types_of function.now operands.now mem)) rows.now }
{
    rows.iter().any(|row| fits(x, function, operands, mem, row))
}

/// Whether an instruction's types are those of a row of its opcode.
#[tactic(auto, using(gi_mir::proofs::FormedLemmas::any_mapped))]
fn has_row(x: u16, function: &Function, instr: &Instr) -> bool
    requires { x ≤ 64 }
    ensures { result ≡ legal.has_row x function.now instr.now }
{
    let operands = instr.operands.as_slice();
    fits_row(x, function, operands, instr.mem, legal_rows(instr.op))
}

/// Whether an operand is no number of G_SEXT_INREG, or 32 on RV64.
fn is_legal_number(x: u16, op: Opcode, operand: Operand) -> bool
    ensures { result ≡ legal.is_legal_number x op operand }
{
    match (op, operand) {
        (Opcode::GenericSignExtendInRegister, Operand::Int(k)) => x == 64 && k == 32,
        _ => true,
    }
}

/// The same of each operand.
fn are_legal_numbers(x: u16, op: Opcode, operands: &[Operand]) -> bool
    ensures { result ≡ list_all (legal.is_legal_number x op) operands.now }
{
    operands
        .iter()
        .all(|operand| is_legal_number(x, op, *operand))
}

/// Whether a value in memory is aligned to its size in bytes at least.
fn is_legal_access(target: Target, mem: MemOp) -> bool
    requires { (target.xlen ≡ 32) ⊎ (target.xlen ≡ 64) }
    ensures { result ≡ legal.is_legal_access target.xlen mem }
{
    (width(mem.ty, target) as u64 + 7) / 8 <= mem.align || is_pointer(mem.ty) && mem.align == 0
}

/// The same of a memory operand, where there is one.
fn has_legal_access(target: Target, mem: Option<MemOp>) -> bool
    requires { (target.xlen ≡ 32) ⊎ (target.xlen ≡ 64) }
    ensures { result ≡ option_map_or (legal.is_legal_access target.xlen) mem true }
{
    match mem {
        Some(mem) => is_legal_access(target, mem),
        None => true,
    }
}

/// Whether an instruction of a function is legal.
pub fn is_legal(target: Target, function: &Function, instr: &Instr) -> bool
    requires { (target.xlen ≡ 32) ⊎ (target.xlen ≡ 64) }
    ensures { result ≡ legal.is_legal target.xlen function.now instr.now }
{
    has_row(target.xlen, function, instr)
        && are_legal_numbers(target.xlen, instr.op, instr.operands.as_slice())
        && has_legal_access(target, instr.mem)
}
