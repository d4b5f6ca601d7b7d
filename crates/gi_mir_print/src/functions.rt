//! Functions and modules, written line by line at the end of a text.

ghost use Rattle.std.specs.Prelude.{◌≡◌, ◌++◌, ◌∷◌, ◌<◌, [], map, option_map, length, string_bytes, Some, OnOk};
ghost use Rattle.gi_llt.specs.Tokens.{piece_bytes};
ghost use Rattle.gi_mir.specs.Edit.{block_at};
ghost use Rattle.gi_mir.specs.Numbering.{numbered, numbered_module};
ghost use Rattle.gi_mir_print.specs.Appended.{AppendsSpelling};
ghost use Rattle.gi_spelling.specs.Spelled.{IsSpelled};
ghost use Rattle.gi_spelling.specs.There.{NamesBlocksThatAreThere};
ghost use Rattle.gi_spelling.specs.Printed.{instr_pieces, block_lines, blocks_lines, key_lines, object_line, object_lines, stack_lines, printed_lines, functions_lines, ir_lines, text_of, printed};
ghost use Rattle.gi_mir_print.specs.Shown.{kind_at, shown_block, shown_blocks, begun_lines, shown_function};
ghost use Rattle.gi_mir.specs.Names.{name_at};

use crate::blocks::push_block_lines;
use crate::instruction::push_instr;
use crate::pieces::{push, push_name, push_number};
use crate::registers::Registers;
use gi_llt::Memory;
use gi_mir::function::Function;
use gi_mir::instr::Instr;
use gi_mir::module::Module;
use gi_mir::names::Names;
use gi_mir::operand::{Kind, StackObject};

/// A line that stands where a key is true.
fn push_key(is_set: bool, line: &[u8], out: &mut Vec<u8>) -> Result<(), Memory>
    ensures { OnOk result (out.new.items ≡ out.old.items ++ text_of (key_lines is_set line.now)) }
{
    if is_set {
        push(line, out)?;
        push(b"\n", out)
    } else {
        Ok(())
    }
}

/// `  - { id: 0, size: 4, alignment: 4 }`
fn push_object(place: usize, object: StackObject, out: &mut Vec<u8>) -> Result<(), Memory>
    ensures { OnOk result (out.new.items ≡ out.old.items ++ (object_line place object ++ 10 ∷ [])) }
{
    push(b"  - { id: ", out)?;
    push_number(place as u64, out)?;
    push(b", size: ", out)?;
    push_number(object.size, out)?;
    push(b", alignment: ", out)?;
    push_number(object.align, out)?;
    push(b" }\n", out)
}

/// Stack objects, each on a line of its own.
fn push_objects(objects: &[StackObject], out: &mut Vec<u8>) -> Result<(), Memory>
    ensures { OnOk result (out.new.items ≡ out.old.items ++ text_of (object_lines 0 objects.now)) }
{
    for (place, object) in objects.iter().enumerate() {
        push_object(place, *object, out)?;
    }
    Ok(())
}

/// The stack objects, if there are any.
fn push_stack(objects: &[StackObject], out: &mut Vec<u8>) -> Result<(), Memory>
    ensures { OnOk result (out.new.items ≡ out.old.items ++ text_of (stack_lines objects.now)) }
{
    if objects.is_empty() {
        Ok(())
    } else {
        push(b"stack:\n", out)?;
        push_objects(objects, out)
    }
}

/// The name of a function and its keys.
fn push_begin(names: &Names, function: &Function, out: &mut Vec<u8>) -> Result<(), Memory>
    ensures { OnOk result (out.new.items ≡ out.old.items ++ begun_lines names.now function.now) }
{
    push(b"---\nname:            ", out)?;
    push_name(names, function.name_number(), out)?;
    push(b"\n", out)?;
    let (legalized, banked, selected) = function.keys();
    push_key(legalized, b"legalized:       true", out)?;
    push_key(banked, b"regBankSelected: true", out)?;
    push_key(selected, b"selected:        true", out)?;
    push(b"tracksRegLiveness: true\n", out)
}

/// A block of a function.
fn push_block_at(
    registers: &Registers,
    names: &Names,
    function: &Function,
    place: u32,
    out: &mut Vec<u8>,
) -> Result<(), Memory>
    requires { place < length function.now.blocks }
    ensures { OnOk result (out.new.items ≡ out.old.items ++ text_of (block_lines (kind_at registers.now) names.now place (length function.now.blocks) (shown_block registers.now (block_at function.now place)))) }
{
    let count = function.block_count();
    let block = function.block(place);
    let instrs = function.instrs(place);
    push_block_lines(registers, names, place, count, block, instrs, out)
}

/// The blocks of a function.
fn push_blocks(
    registers: &Registers,
    names: &Names,
    function: &Function,
    out: &mut Vec<u8>,
) -> Result<(), Memory>
    ensures { OnOk result (out.new.items ≡ out.old.items ++ text_of (blocks_lines (kind_at registers.now) names.now 0 (length function.now.blocks) (shown_blocks registers.now function.now.blocks))) }
{
    let mut lead: &[u8] = b"";
    for place in 0..function.block_count() {
        push(lead, out)?;
        push_block_at(registers, names, function, place, out)?;
        lead = b"\n";
    }
    Ok(())
}

/// A function, with what is known of its registers.
fn push_shown(
    registers: &Registers,
    names: &Names,
    function: &Function,
    out: &mut Vec<u8>,
) -> Result<(), Memory>
    ensures { OnOk result (out.new.items ≡ out.old.items ++ shown_function registers.now names.now function.now) }
{
    push_begin(names, function, out)?;
    push_stack(function.stack(), out)?;
    push(b"body:             |\n", out)?;
    push_blocks(registers, names, function, out)?;
    push(b"...\n", out)
}

/// A function, with its registers numbered by their first appearance.
fn push_function(names: &Names, function: &Function, out: &mut Vec<u8>) -> Result<(), Memory>
    ensures { OnOk result (out.new.items ≡ out.old.items ++ text_of (printed_lines names.now (numbered function.now))) }
{
    let registers = Registers::of(*out.allocator(), function)?;
    push_shown(&registers, names, function, out)
}

/// Functions, one after the other.
fn push_functions(names: &Names, functions: &[Function], out: &mut Vec<u8>) -> Result<(), Memory>
    ensures { OnOk result (out.new.items ≡ out.old.items ++ text_of (functions_lines names.now (map numbered functions.now))) }
{
    for function in functions {
        push_function(names, function, out)?;
    }
    Ok(())
}

/// Lines as they are.
fn push_texts(lines: &[String], out: &mut Vec<u8>) -> Result<(), Memory>
    ensures { OnOk result (out.new.items ≡ out.old.items ++ text_of (map string_bytes lines.now)) }
{
    for line in lines {
        push(line.as_bytes(), out)?;
        push(b"\n", out)?;
    }
    Ok(())
}

/// The lines of an IR block.
fn push_ir(lines: &[String], out: &mut Vec<u8>) -> Result<(), Memory>
    ensures { OnOk result (out.new.items ≡ out.old.items ++ text_of (ir_lines (Some (map string_bytes lines.now)))) }
{
    push(b"--- |\n", out)?;
    push_texts(lines, out)?;
    push(b"...\n", out)
}

/// The lines of the IR block, if there is one.
fn push_any_ir(ir: &Option<Vec<String>>, out: &mut Vec<u8>) -> Result<(), Memory>
    ensures { OnOk result (out.new.items ≡ out.old.items ++ text_of (ir_lines (option_map (λ lines. map string_bytes lines.items) ir.now))) }
{
    match ir {
        Some(lines) => push_ir(lines.as_slice(), out),
        None => Ok(()),
    }
}

/// Writes the text of a module at the end, with the registers of each function numbered from 0 in the order in
/// which they first appear.
pub fn print(module: &Module, out: &mut Vec<u8>) -> Result<(), Memory>
    ensures text { OnOk result (out.new.items ≡ out.old.items ++ printed (numbered_module «module».now)) }
    ensures spells { IsSpelled «module».now → NamesBlocksThatAreThere «module».now
        → OnOk result (AppendsSpelling (numbered_module «module».now) out.old.items out.new.items) }
{
    push_any_ir(&module.ir, out)?;
    push_functions(&module.names, module.functions.as_slice(), out)
}

/// Writes an instruction at the end, with the numbers that its registers have, and no types at its uses.
pub fn print_instr(instr: &Instr, names: &Names, out: &mut Vec<u8>) -> Result<(), Memory>
    ensures text { OnOk result (out.new.items ≡ out.old.items ++ piece_bytes (instr_pieces (λ reg. Kind.Class) names.now instr.now)) }
{
    let registers = Registers::new(*out.allocator());
    push_instr(&registers, names, instr, out)
}
