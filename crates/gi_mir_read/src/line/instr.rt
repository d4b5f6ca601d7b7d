//! Instructions.

ghost use Rattle.std.specs.Prelude.{◌≡◌, Ok, IfOk, IfErr};
ghost use Rattle.std.specs.Option.{option_copied};
ghost use Rattle.gi_spelling.specs.Reading.{begins_definition, is_debug, is_debug_line, opcode_by, past_flag, parts_of, read_all, read_body, read_defined_line, read_definition, read_flags, read_instr, read_memory_behind, read_operands, read_sources, read_tail, split_at};
ghost use Rattle.gi_spelling.specs.declared.written.Separator.TheVariants.{Equals};
ghost use Rattle.gi_mir_read.specs.Lines.Flagged.{has_flag};
ghost use Rattle.gi_mir_read.specs.Lines.Stops.{IsFault};

use crate::line::definition::read_definition;
use crate::line::faults::unknown;
use crate::line::memory::read_memory;
use crate::line::source::read_operand;
use crate::line::split::{Parts, split_at};
use crate::line::stop::Stop;
use crate::list::push;
use gi_mir::opcode::Opcode;
use gi_mir::operand::Flags;
use gi_spelling::token::{Flag, Item, What, Word};
use gi_spelling::written::{Definition, Fault, Memory, Separator, Source, Written};
use std::alloc::Global;

/// Whether a flag stands first, and what follows it.
fn take_flag(flag: Flag, items: &[Item]) -> (bool, &[Item])
    ensures found { result.0 ≡ has_flag flag items.now }
    ensures rest { result.1.now ≡ past_flag (has_flag flag items.now) items.now }
{
    match items {
        [] => (false, items),
        [first, rest @ ..] => match first.what {
            What::Word(Word::Flag(found)) if found == flag => (true, rest),
            _ => (false, items),
        },
    }
}

/// The flags in their order, each once at most, and what follows.
fn read_flags(items: &[Item]) -> (Flags, &[Item])
    ensures flags { result.0 ≡ (read_flags items.now).flags }
    ensures rest { result.1.now ≡ (read_flags items.now).rest }
{
    let (nuw, after_nuw) = take_flag(Flag::NoUnsignedWrap, items);
    let (nsw, after_nsw) = take_flag(Flag::NoSignedWrap, after_nuw);
    let (exact, after_exact) = take_flag(Flag::Exact, after_nsw);
    let (disjoint, after_disjoint) = take_flag(Flag::Disjoint, after_exact);
    let (nneg, rest) = take_flag(Flag::NonNegative, after_disjoint);
    let flags = Flags {
        nuw,
        nsw,
        exact,
        disjoint,
        nneg,
    };
    (flags, rest)
}

/// An opcode.
fn opcode(item: Item) -> Result<Opcode, Fault>
    ensures { result ≡ opcode_by item.what item }
{
    match item.what {
        What::Word(Word::Opcode(op)) => Ok(op),
        What::Word(_) => Err(unknown(item)),
        _ => Err(Fault::Syntax),
    }
}

/// The definitions between commas.
fn read_definitions(alloc: Global, items: &[Item]) -> Result<Vec<Definition>, Stop>
    ensures ok { IfOk result (λ found. read_all read_definition (parts_of items.now) ≡ Ok found.items) }
    ensures fault { IfErr result (IsFault (read_all read_definition (parts_of items.now))) }
{
    let mut found = Vec::new(alloc);
    let mut parts = Parts::of(items);
    while let Some(part) = parts.next() {
        push(&mut found, read_definition(part)?)?;
    }
    Ok(found)
}

/// Operands between commas. `typed` says that the first has to be the type of a constant.
fn read_operands(alloc: Global, typed: bool, items: &[Item]) -> Result<Vec<Source>, Stop>
    ensures ok { IfOk result (λ found. read_operands typed (parts_of items.now) ≡ Ok found.items) }
    ensures fault { IfErr result (IsFault (read_operands typed (parts_of items.now))) }
{
    let mut found = Vec::new(alloc);
    let mut parts = Parts::of(items);
    let mut wants_type = typed;
    while let Some(part) = parts.next() {
        push(&mut found, read_operand(wants_type, part)?)?;
        wants_type = false;
    }
    Ok(found)
}

/// The operands behind an opcode, if there are any.
fn read_sources(alloc: Global, op: Opcode, items: &[Item]) -> Result<Vec<Source>, Stop>
    ensures ok { IfOk result (λ found. read_sources op items.now ≡ Ok found.items) }
    ensures fault { IfErr result (IsFault (read_sources op items.now)) }
{
    match items {
        [] => Ok(Vec::new(alloc)),
        _ => read_operands(alloc, op == Opcode::GenericConstant, items),
    }
}

/// The memory operand behind `::`, if there is one.
fn read_memory_behind(items: Option<&[Item]>) -> Result<Option<Memory>, Fault>
    ensures { result ≡ read_memory_behind (option_copied items.entry) }
{
    match items {
        None => Ok(None),
        Some(items) => Ok(Some(read_memory(items)?)),
    }
}

/// What stands behind an opcode.
fn read_tail(
    alloc: Global,
    definitions: Vec<Definition>,
    flags: Flags,
    op: Opcode,
    items: &[Item],
) -> Result<Written, Stop>
    ensures ok { IfOk result (λ written. read_tail definitions.items flags op items.now ≡ Ok written) }
    ensures fault { IfErr result (IsFault (read_tail definitions.items flags op items.now)) }
{
    let split = split_at(Separator::Colons, items);
    let sources = read_sources(alloc, op, split.before)?;
    let memory = read_memory_behind(split.after)?;
    Ok(Written {
        definitions,
        flags,
        op,
        sources,
        memory,
    })
}

/// The flags, the opcode and what follows.
fn read_body(alloc: Global, definitions: Vec<Definition>, items: &[Item]) -> Result<Written, Stop>
    ensures ok { IfOk result (λ written. read_body definitions.items items.now ≡ Ok written) }
    ensures fault { IfErr result (IsFault (read_body definitions.items items.now)) }
{
    let (flags, rest) = read_flags(items);
    match rest {
        [] => Err(Stop::Fault(Fault::Syntax)),
        [first, tail @ ..] => {
            let op = opcode(*first)?;
            read_tail(alloc, definitions, flags, op, tail)
        }
    }
}

/// Whether the first token may begin a definition.
fn begins_definition(items: &[Item]) -> bool
    ensures { result ≡ begins_definition items.now }
{
    match items {
        [] => false,
        [first, ..] => matches!(first.what, What::Register(_) | What::Physical(_)),
    }
}

/// An instruction that begins with definitions.
fn read_defined_line(alloc: Global, items: &[Item]) -> Result<Written, Stop>
    ensures ok { IfOk result (λ written. read_defined_line (split_at Equals items.now) ≡ Ok written) }
    ensures fault { IfErr result (IsFault (read_defined_line (split_at Equals items.now))) }
{
    let split = split_at(Separator::Equals, items);
    let definitions = read_definitions(alloc, split.before)?;
    match split.after {
        None => Err(Stop::Fault(Fault::Syntax)),
        Some(rest) => read_body(alloc, definitions, rest),
    }
}

/// An instruction, from the tokens that count of its line.
pub(crate) fn read_instr(alloc: Global, items: &[Item]) -> Result<Written, Stop>
    ensures ok { IfOk result (λ written. read_instr items.now ≡ Ok written) }
    ensures fault { IfErr result (IsFault (read_instr items.now)) }
{
    if begins_definition(items) {
        read_defined_line(alloc, items)
    } else {
        read_body(alloc, Vec::new(alloc), items)
    }
}

/// Whether a token is an opcode that says nothing.
fn is_debug(items: &[Item]) -> bool
    ensures { result ≡ is_debug items.now }
{
    match items {
        [] => false,
        [first, ..] => matches!(first.what, What::Word(Word::Debug)),
    }
}

/// Whether the instruction of a line says nothing.
pub(crate) fn is_debug_line(items: &[Item]) -> bool
    ensures { result ≡ is_debug_line items.now }
{
    let split = split_at(Separator::Equals, items);
    let (_, place) = read_flags(split.after.unwrap_or(items));
    is_debug(place)
}
