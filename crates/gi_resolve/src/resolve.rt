//! What a written instruction means in its function.

ghost use Rattle.std.specs.Prelude.{◌≡◌, ◌∷◌, [], ◌++◌, None, true, false, option_map, IfOk, IfSome, IfNone, OnOk};
ghost use Rattle.gi_mir.specs.Formed.{is_formed};
ghost use Rattle.gi_spelling.specs.Named.{Extends};
ghost use Rattle.gi_spelling.specs.Resolved.{each, resolved, resolved_definition, resolved_source};
ghost use Rattle.gi_resolve.specs.Meant.{AreMeant, IsMeantInstr, IsMeantOperand, is_symbol};

use crate::access::resolved_memory;
use crate::constant::{constant, truth, whole_number};
use crate::naming::global;
use crate::tables::Tables;
use gi_llt::Memory;
use gi_mir::formed::formed;
use gi_mir::instr::Instr;
use gi_mir::names::Names;
use gi_mir::operand::Operand;
use gi_spelling::written::{Definition, Source, Written};
use smallvec::SmallVec;
use std::alloc::Global;

/// Adds an operand.
fn append(operands: &mut SmallVec<Operand, 6, Global>, operand: Operand) -> Result<(), Memory>
    ensures { OnOk result (operands.new.items ≡ operands.old.items ++ operand ∷ []) }
{
    match operands.push(operand) {
        Ok(_) => Ok(()),
        Err(_) => Err(Memory),
    }
}

/// The definitions of an instruction, if each means something.
fn definitions(
    alloc: Global,
    tables: &Tables,
    written: &[Definition],
) -> Result<Option<SmallVec<Operand, 6, Global>>, Memory>
    ensures { IfOk result (λ found. option_map (λ operands. operands.items) found ≡ each (resolved_definition tables.now.classes) written.now) }
{
    let mut operands = SmallVec::new(alloc);
    for definition in written {
        match tables.definition(*definition) {
            Some(operand) => append(&mut operands, operand)?,
            None => return Ok(None),
        }
    }
    Ok(Some(operands))
}

/// An operand that names no global.
fn plain_source(tables: &Tables, written: Source) -> Option<Operand>
    requires { is_symbol written ≡ false }
    ensures { result ≡ resolved_source tables.now written }
{
    match written {
        Source::Use(reg) | Source::TypedUse(reg, _) => Some(Operand::Use(reg)),
        Source::Physical(number) => Some(Operand::Phys(number)),
        Source::ImplicitUse(number) => Some(Operand::ImplicitUse(number)),
        Source::ImplicitDef(number) => Some(Operand::ImplicitDef(number)),
        Source::Int(number) => Some(Operand::Int(whole_number(number))),
        Source::Constant(bits, number, _) => constant(bits, number),
        Source::Truth(bits, written) => truth(bits, written),
        Source::Block(number) => Some(Operand::Block(tables.place(number))),
        Source::Predicate(pred) => Some(Operand::Predicate(pred)),
        Source::Frame(number) if number < tables.objects => Some(Operand::Frame(number)),
        Source::Frame(_) | Source::Global(_, _) => None,
        Source::Routine(flag, place) => Some(Operand::Routine(flag, place)),
        Source::SavedMask => Some(Operand::SavedMask),
    }
}

/// An operand, a global by the number of its name.
fn source(
    bytes: &[u8],
    names: &mut Names,
    tables: &Tables,
    written: Source,
) -> Result<Option<Operand>, Memory>
    ensures some { IfOk result (λ found. IfSome found (IsMeantOperand bytes.now names.new (resolved_source tables.now written))) }
    ensures none { IfOk result (λ found. IfNone found (resolved_source tables.now written ≡ None)) }
    ensures grown { Extends names.old names.new }
{
    match written {
        Source::Global(flag, place) => Ok(Some(global(bytes, names, flag, place)?)),
        _ => Ok(plain_source(tables, written)),
    }
}

/// The operands of an instruction that are no definitions, behind those, if each means something.
fn with_sources(
    bytes: &[u8],
    names: &mut Names,
    tables: &Tables,
    sources: &[Source],
    operands: &mut SmallVec<Operand, 6, Global>,
) -> Result<bool, Memory>
    ensures some { IfOk result (λ all. all ≡ true → AreMeant bytes.now names.new (each (resolved_source tables.now) sources.now) operands.old.items operands.new.items) }
    ensures none { IfOk result (λ all. all ≡ false → each (resolved_source tables.now) sources.now ≡ None) }
    ensures grown { Extends names.old names.new }
{
    for written in sources {
        match source(bytes, names, tables, *written)? {
            Some(operand) => append(operands, operand)?,
            None => return Ok(false),
        }
    }
    Ok(true)
}

/// What a written instruction means, each global by the number of its name, or none where its line spells nothing.
pub fn resolve(
    alloc: Global,
    bytes: &[u8],
    names: &mut Names,
    tables: &Tables,
    written: &Written,
    line: u32,
) -> Result<Option<Instr>, Memory>
    ensures some { IfOk result (λ found. IfSome found (IsMeantInstr bytes.now names.new (resolved tables.now written.now line))) }
    ensures none { IfOk result (λ found. IfNone found (resolved tables.now written.now line ≡ None)) }
    ensures formed { IfOk result (λ found. IfSome found (λ instr. is_formed instr ≡ true)) }
    ensures grown { Extends names.old names.new }
{
    let Some(mut operands) = definitions(alloc, tables, written.definitions.as_slice())? else {
        return Ok(None);
    };
    let sources = written.sources.as_slice();
    if !with_sources(bytes, names, tables, sources, &mut operands)? {
        return Ok(None);
    }
    let Some(mem) = resolved_memory(written.memory) else {
        return Ok(None);
    };
    let instr = Instr {
        op: written.op,
        flags: written.flags,
        operands,
        mem,
        line,
    };
    if formed(&instr) {
        Ok(Some(instr))
    } else {
        Ok(None)
    }
}
