//! The pieces of a printed line, written as bytes at the end of a text.
#![tactic(auto, using(crate::proofs::PieceLemmas::type_first))]

ghost use Rattle.std.specs.Prelude.{◌≡◌, ◌<◌, ◌≤◌, ◌-◌, ◌^◌, ◌==◌, if◌then◌else◌, ◌++◌, ◌∷◌, [], codes, decimal, OnOk, Some, pos, neg_ℤ};
ghost use Rattle.std.specs.Fmt.{signed_decimal};
ghost use Rattle.gi_llt.specs.Bits.{signed};
ghost use Rattle.gi_llt.specs.Tokens.{Number, Global, Routine, Spaces, token, piece_bytes};
ghost use Rattle.gi_mir.specs.Routines.{routine_names};
ghost use Rattle.gi_spelling.specs.Printed.{word, bracketed, type_piece, kind_pieces, shown_type, block_piece, frame_piece, physical_piece, symbol_flag_pieces, constant_pieces, predicate_word, flag_pieces, flags_pieces, usual_align, align_pieces, memory_pieces};
ghost use Rattle.gi_mir.specs.Names.{name_at};

use gi_llt::{Llt, Memory};
use gi_mir::names::Names;
use gi_mir::operand::{Flags, Kind, MemOp, Pred, SymbolFlag};
use gi_mir::routine;
use itoa::Buffer;

/// Writes bytes.
pub(crate) fn push(bytes: &[u8], out: &mut Vec<u8>) -> Result<(), Memory>
    ensures { OnOk result (out.new.items ≡ out.old.items ++ bytes.now) }
{
    out.extend_from_slice(bytes).map_err(|_| Memory)
}

/// Writes a number.
pub(crate) fn push_number(number: u64, out: &mut Vec<u8>) -> Result<(), Memory>
    ensures { OnOk result (out.new.items ≡ out.old.items ++ decimal number) }
{
    let mut buffer = Buffer::new();
    push(buffer.format(number).as_bytes(), out)
}

/// Writes a number of up to 128 bits.
fn push_wide(number: u128, out: &mut Vec<u8>) -> Result<(), Memory>
    ensures { OnOk result (out.new.items ≡ out.old.items ++ decimal number) }
{
    let mut buffer = Buffer::new();
    push(buffer.format(number).as_bytes(), out)
}

/// Writes a number with a sign.
pub(crate) fn push_signed(number: i128, out: &mut Vec<u8>) -> Result<(), Memory>
    ensures { OnOk result (out.new.items ≡ out.old.items ++ signed_decimal number) }
{
    let mut buffer = Buffer::new();
    push(buffer.format(number).as_bytes(), out)
}

/// `s32`, `p0`
fn push_type(ty: Llt, out: &mut Vec<u8>) -> Result<(), Memory>
    ensures { OnOk result (out.new.items ≡ out.old.items ++ piece_bytes (type_piece ty ∷ [])) }
{
    match ty {
        Llt::Scalar(bits) => {
            push(b"s", out)?;
            push_number(bits as u64, out)
        }
        Llt::Pointer => push(b"p0", out),
    }
}

/// `(s32)`
fn push_bracketed_type(ty: Llt, out: &mut Vec<u8>) -> Result<(), Memory>
    ensures { OnOk result (out.new.items ≡ out.old.items ++ piece_bytes (bracketed (type_piece ty ∷ []))) }
{
    push(b"(", out)?;
    push_type(ty, out)?;
    push(b")", out)
}

/// `:_(s32)`, `:gprb(s32)`, `:gpr`
pub(crate) fn push_kind(kind: Kind, out: &mut Vec<u8>) -> Result<(), Memory>
    ensures { OnOk result (out.new.items ≡ out.old.items ++ piece_bytes (kind_pieces kind)) }
{
    match kind {
        Kind::Generic(ty) => {
            push(b":_", out)?;
            push_bracketed_type(ty, out)
        }
        Kind::Banked(ty) => {
            push(b":gprb", out)?;
            push_bracketed_type(ty, out)
        }
        Kind::Class => push(b":gpr", out),
    }
}

/// The type of a use, where it shows one.
pub(crate) fn push_shown_type(ty: Option<Llt>, out: &mut Vec<u8>) -> Result<(), Memory>
    ensures { OnOk result (out.new.items ≡ out.old.items ++ piece_bytes (shown_type ty)) }
{
    match ty {
        Some(ty) => push_bracketed_type(ty, out),
        None => Ok(()),
    }
}

/// `%7`
pub(crate) fn push_register(number: u64, out: &mut Vec<u8>) -> Result<(), Memory>
    ensures { OnOk result (out.new.items ≡ out.old.items ++ 37 ∷ decimal number) }
{
    push(b"%", out)?;
    push_number(number, out)
}

/// `$x10`
pub(crate) fn push_physical(number: u8, out: &mut Vec<u8>) -> Result<(), Memory>
    ensures { OnOk result (out.new.items ≡ out.old.items ++ piece_bytes (physical_piece number ∷ [])) }
{
    push(b"$x", out)?;
    push_number(number as u64, out)
}

/// `implicit $x10`
pub(crate) fn push_implicit_use(number: u8, out: &mut Vec<u8>) -> Result<(), Memory>
    ensures { OnOk result (out.new.items ≡ out.old.items ++ piece_bytes (word (codes "implicit") ∷ Spaces 1 ∷ physical_piece number ∷ [])) }
{
    push(b"implicit ", out)?;
    push_physical(number, out)
}

/// `implicit-def $x10`
pub(crate) fn push_implicit_def(number: u8, out: &mut Vec<u8>) -> Result<(), Memory>
    ensures { OnOk result (out.new.items ≡ out.old.items ++ piece_bytes (word (codes "implicit-def") ∷ Spaces 1 ∷ physical_piece number ∷ [])) }
{
    push(b"implicit-def ", out)?;
    push_physical(number, out)
}

/// A whole number.
pub(crate) fn push_int(value: i128, out: &mut Vec<u8>) -> Result<(), Memory>
    ensures { OnOk result (out.new.items ≡ out.old.items ++ piece_bytes (token Number (signed_decimal value) ∷ [])) }
{
    push_signed(value, out)
}

/// `%bb.2`
pub(crate) fn push_block(place: u32, out: &mut Vec<u8>) -> Result<(), Memory>
    ensures { OnOk result (out.new.items ≡ out.old.items ++ piece_bytes (block_piece place ∷ [])) }
{
    push(b"%bb.", out)?;
    push_number(place as u64, out)
}

/// `%stack.0`
pub(crate) fn push_frame(place: u32, out: &mut Vec<u8>) -> Result<(), Memory>
    ensures { OnOk result (out.new.items ≡ out.old.items ++ piece_bytes (frame_piece place ∷ [])) }
{
    push(b"%stack.", out)?;
    push_number(place as u64, out)
}

/// The word of a predicate.
fn predicate_word(pred: Pred) -> &'static str
    ensures { result.now ≡ predicate_word pred }
{
    match pred {
        Pred::Eq => "eq",
        Pred::Ne => "ne",
        Pred::Ugt => "ugt",
        Pred::Uge => "uge",
        Pred::Ult => "ult",
        Pred::Ule => "ule",
        Pred::Sgt => "sgt",
        Pred::Sge => "sge",
        Pred::Slt => "slt",
        Pred::Sle => "sle",
    }
}

/// `intpred(eq)`
pub(crate) fn push_predicate(pred: Pred, out: &mut Vec<u8>) -> Result<(), Memory>
    ensures { OnOk result (out.new.items ≡ out.old.items ++ piece_bytes (word (codes "intpred") ∷ bracketed (word (predicate_word pred) ∷ []))) }
{
    push(b"intpred(", out)?;
    push(predicate_word(pred).as_bytes(), out)?;
    push(b")", out)
}

/// `target-flags(riscv-hi) `, and nothing for a plain symbol.
fn push_symbol_flag(flag: SymbolFlag, out: &mut Vec<u8>) -> Result<(), Memory>
    ensures { OnOk result (out.new.items ≡ out.old.items ++ piece_bytes (symbol_flag_pieces flag)) }
{
    match flag {
        SymbolFlag::Plain => Ok(()),
        SymbolFlag::Call => push(b"target-flags(riscv-call) ", out),
        SymbolFlag::Hi => push(b"target-flags(riscv-hi) ", out),
        SymbolFlag::Lo => push(b"target-flags(riscv-lo) ", out),
    }
}

/// The name with this number, and nothing where none has it.
pub(crate) fn push_name(names: &Names, number: u32, out: &mut Vec<u8>) -> Result<(), Memory>
    ensures { OnOk result (out.new.items ≡ out.old.items ++ name_at names.now number) }
{
    push(names.name(number).as_bytes(), out)
}

/// `target-flags(riscv-hi) @g`
pub(crate) fn push_global(
    flag: SymbolFlag,
    names: &Names,
    number: u32,
    out: &mut Vec<u8>,
) -> Result<(), Memory>
    ensures { OnOk result (out.new.items ≡ out.old.items ++ piece_bytes (symbol_flag_pieces flag ++ (token Global (64 ∷ name_at names.now number) ∷ []))) }
{
    push_symbol_flag(flag, out)?;
    push(b"@", out)?;
    push_name(names, number, out)
}

/// The name of a routine of the runtime, and the empty text where none stands in this place.
fn routine_name(place: u8) -> &'static str
    ensures { result.now ≡ name_at routine_names place }
{
    match routine::Routine::at(place) {
        Some(routine) => routine.name(),
        None => "",
    }
}

/// `target-flags(riscv-call) &__muldi3`
pub(crate) fn push_routine(flag: SymbolFlag, place: u8, out: &mut Vec<u8>) -> Result<(), Memory>
    ensures { OnOk result (out.new.items ≡ out.old.items ++ piece_bytes (symbol_flag_pieces flag ++ (token Routine (38 ∷ name_at routine_names place) ∷ []))) }
{
    push_symbol_flag(flag, out)?;
    push(b"&", out)?;
    push(routine_name(place).as_bytes(), out)
}

/// The registers that a call keeps.
pub(crate) fn push_saved_mask(out: &mut Vec<u8>) -> Result<(), Memory>
    ensures { OnOk result (out.new.items ≡ out.old.items ++ piece_bytes (word (codes "csr_ilp32_lp64") ∷ [])) }
{
    push(b"csr_ilp32_lp64", out)
}

/// 2 to the number of bits.
fn power(bits: u16) -> u128
    requires { bits < 128 }
    ensures { result ≡ 2 ^ bits }
{
    1u128 << bits
}

/// How far a number lies below 2 to the number of bits.
fn below_power(bits: u16, value: u128) -> u128
    requires some { 0 < value }
    requires at_most { bits ≤ 128 }
    ensures { result ≡ 2 ^ bits - value }
{
    if bits == 128 {
        u128::MAX - value + 1
    } else {
        power(bits).saturating_sub(value)
    }
}

/// A number below 0, by its size.
fn push_negated(size: u128, out: &mut Vec<u8>) -> Result<(), Memory>
    ensures { OnOk result (out.new.items ≡ out.old.items ++ signed_decimal (neg_ℤ (pos size))) }
{
    if size == 0 {
        push_wide(size, out)
    } else {
        push(b"-", out)?;
        push_wide(size, out)
    }
}

/// A value of up to 128 bits, with its sign.
fn push_cut(bits: u16, value: u128, out: &mut Vec<u8>) -> Result<(), Memory>
    requires some { 0 < bits }
    requires at_most { bits ≤ 128 }
    ensures { OnOk result (out.new.items ≡ out.old.items ++ signed_decimal (signed bits value)) }
{
    if value < power(bits - 1) {
        push_wide(value, out)
    } else {
        push_negated(below_power(bits, value), out)
    }
}

/// A value of so many bits, with its sign.
fn push_value(bits: u16, value: u128, out: &mut Vec<u8>) -> Result<(), Memory>
    ensures { OnOk result (out.new.items ≡ out.old.items ++ signed_decimal (signed bits value)) }
{
    if bits == 0 {
        push_wide(0, out)
    } else if bits > 128 {
        push_wide(value, out)
    } else {
        push_cut(bits, value, out)
    }
}

/// A value of so many bits: of one bit `true` or `false`.
fn push_constant_value(bits: u16, value: u128, out: &mut Vec<u8>) -> Result<(), Memory>
    ensures { OnOk result (out.new.items ≡ out.old.items ++ (if bits == 1 then (if value == 1 then codes "true" else codes "false") else signed_decimal (signed bits value))) }
{
    if bits != 1 {
        push_value(bits, value, out)
    } else if value == 1 {
        push(b"true", out)
    } else {
        push(b"false", out)
    }
}

/// `i32 -5`, `i1 true`
pub(crate) fn push_constant(bits: u16, value: u128, out: &mut Vec<u8>) -> Result<(), Memory>
    ensures { OnOk result (out.new.items ≡ out.old.items ++ piece_bytes (constant_pieces bits value)) }
{
    push(b"i", out)?;
    push_number(bits as u64, out)?;
    push(b" ", out)?;
    push_constant_value(bits, value, out)
}

/// A flag, if it is set.
fn push_flag(is_set: bool, bytes: &[u8], out: &mut Vec<u8>) -> Result<(), Memory>
    ensures { OnOk result (out.new.items ≡ out.old.items ++ piece_bytes (flag_pieces is_set bytes.now)) }
{
    if is_set {
        push(bytes, out)?;
        push(b" ", out)
    } else {
        Ok(())
    }
}

/// `nuw nsw `
pub(crate) fn push_flags(flags: Flags, out: &mut Vec<u8>) -> Result<(), Memory>
    ensures { OnOk result (out.new.items ≡ out.old.items ++ piece_bytes (flags_pieces flags)) }
{
    push_flag(flags.nuw, b"nuw", out)?;
    push_flag(flags.nsw, b"nsw", out)?;
    push_flag(flags.exact, b"exact", out)?;
    push_flag(flags.disjoint, b"disjoint", out)?;
    push_flag(flags.nneg, b"nneg", out)
}

/// The alignment that need not be written.
fn usual_align(ty: Llt) -> u64
    ensures { result ≡ usual_align ty }
{
    match ty {
        Llt::Scalar(bits) => (bits as u64 + 7) / 8,
        Llt::Pointer => 0,
    }
}

/// `, align 2`, unless it is the usual one.
fn push_align(align: u64, usual: u64, out: &mut Vec<u8>) -> Result<(), Memory>
    ensures { OnOk result (out.new.items ≡ out.old.items ++ piece_bytes (align_pieces align usual)) }
{
    if align == usual {
        Ok(())
    } else {
        push(b", align ", out)?;
        push_number(align, out)
    }
}

/// What is done with memory.
fn access_word(is_load: bool) -> &'static str
    ensures { result.now ≡ (if is_load then codes "load" else codes "store") }
{
    if is_load { "load" } else { "store" }
}

/// ` :: (load `
fn push_access_word(is_load: bool, out: &mut Vec<u8>) -> Result<(), Memory>
    ensures { OnOk result (out.new.items ≡ out.old.items ++ (codes " :: (" ++ ((if is_load then codes "load" else codes "store") ++ 32 ∷ []))) }
{
    push(b" :: (", out)?;
    push(access_word(is_load).as_bytes(), out)?;
    push(b" ", out)
}

/// `(s32), align 2)`
fn push_access_rest(memory: MemOp, out: &mut Vec<u8>) -> Result<(), Memory>
    ensures { OnOk result (out.new.items ≡ out.old.items ++ (piece_bytes (bracketed (type_piece memory.ty ∷ [])) ++ (piece_bytes (align_pieces memory.align (usual_align memory.ty)) ++ 41 ∷ []))) }
{
    push_bracketed_type(memory.ty, out)?;
    push_align(memory.align, usual_align(memory.ty), out)?;
    push(b")", out)
}

/// ` :: (load (s32), align 2)`
fn push_access(memory: MemOp, out: &mut Vec<u8>) -> Result<(), Memory>
    ensures { OnOk result (out.new.items ≡ out.old.items ++ piece_bytes (memory_pieces (Some memory))) }
{
    push_access_word(memory.load, out)?;
    push_access_rest(memory, out)
}

/// The memory operand, if there is one.
pub(crate) fn push_memory(memory: Option<MemOp>, out: &mut Vec<u8>) -> Result<(), Memory>
    ensures { OnOk result (out.new.items ≡ out.old.items ++ piece_bytes (memory_pieces memory)) }
{
    match memory {
        Some(memory) => push_access(memory, out),
        None => Ok(()),
    }
}
