//! A function before its blocks.

ghost use Rattle.std.specs.Prelude.{◌≡◌, ◌-◌, ◌<◌, ◌^◌, [], List, true, IfOk, OnOk, fold, length};
ghost use Rattle.std.specs.Str.{is_utf8};
ghost use Rattle.gi_mir.specs.Edit.{with_stack};
ghost use Rattle.gi_spelling.specs.Documents.{read_document};
ghost use Rattle.gi_spelling.specs.Lines as spelled;
ghost use Rattle.gi_spelling.specs.Named.{Extends};
ghost use Rattle.gi_resolve.specs.Meant.{IsNumberOf};
ghost use Rattle.gi_mir_read.specs.Documents.Begun.{keyed};
ghost use Rattle.gi_mir_read.specs.Documents.Keyed.{AreFirsts, AreFirstsIn};

use crate::document::keys::Firsts;
use crate::document::objects::objects;
use crate::document::registers::registers;
use crate::document::stated::{is_key_true, list_under};
use gi_llt::Memory;
use gi_mir::function::Function;
use gi_mir::names::Names;
use gi_mir::operand::StackObject;
use gi_resolve::numbering::Classes;
use gi_spelling::token::RegisterClass;
use gi_spelling::written::Key;
use std::alloc::Global;

/// The number of a name. One that is no text has none of its own.
pub(crate) fn number_of(names: &mut Names, name: &[u8]) -> Result<u32, Memory>
    ensures named { IfOk result (λ number. is_utf8 name.now ≡ true → IsNumberOf names.new name.now number) }
    ensures grown { Extends names.old names.new }
{
    if names.count() == u32::MAX {
        return Err(Memory);
    }
    match str::from_utf8(name) {
        Ok(name) => names.number(name),
        Err(_) => Ok(0),
    }
}

/// The function of this number with the keys of a document.
pub(crate) fn keyed(
    alloc: Global,
    text: &[u8],
    firsts: &Firsts<'_>,
    number: u32,
) -> Result<Function, Memory>
    requires within { AreFirstsIn text.now firsts.now }
    requires short { length text.now < 2 ^ 32 - 1 }
    ensures keyed { IfOk result (λ f. (sections : List spelled.Section) → AreFirsts text.now sections firsts.now → f ≡ keyed number (read_document text.now sections)) }
    ensures stack { IfOk result (λ f. f.stack ≡ []) }
    ensures blocks { IfOk result (λ f. f.blocks ≡ []) }
{
    let legalized = is_key_true(alloc, text, firsts, Key::Legalized)?;
    let banked = is_key_true(alloc, text, firsts, Key::Banked)?;
    let selected = is_key_true(alloc, text, firsts, Key::Selected)?;
    let mut function = Function::new(alloc, number);
    function.set_keys(legalized, banked, selected);
    Ok(function)
}

/// Adds stack objects, and answers how many they are.
fn add_objects(function: &mut Function, objects: &[StackObject]) -> Result<u32, Memory>
    requires empty { function.old.stack ≡ [] }
    ensures added { OnOk result (function.new ≡ fold with_stack function.old objects.now) }
    ensures blocks { OnOk result (function.new.blocks ≡ function.old.blocks) }
    ensures count { IfOk result (λ count. count ≡ length objects.now) }
{
    let Ok(count) = u32::try_from(objects.len()) else {
        return Err(Memory);
    };
    for object in objects {
        function.add_stack(*object)?;
    }
    Ok(count)
}

/// Adds the stack objects of a document, and answers how many they are.
pub(crate) fn add_stack(
    alloc: Global,
    text: &[u8],
    firsts: &Firsts<'_>,
    function: &mut Function,
) -> Result<u32, Memory>
    requires within { AreFirstsIn text.now firsts.now }
    requires short { length text.now < 2 ^ 32 - 1 }
    requires empty { function.old.stack ≡ [] }
    ensures added { OnOk result ((sections : List spelled.Section) → AreFirsts text.now sections firsts.now → function.new ≡ fold with_stack function.old (read_document text.now sections).objects) }
    ensures blocks { OnOk result (function.new.blocks ≡ function.old.blocks) }
    ensures count { IfOk result (λ count. (sections : List spelled.Section) → AreFirsts text.now sections firsts.now → count ≡ length (read_document text.now sections).objects) }
{
    let lines = list_under(alloc, text, firsts, Key::Stack)?;
    let objects = objects(alloc, text, lines)?;
    add_objects(function, objects.as_slice())
}

/// The classes of these registers.
fn classes(alloc: Global, registers: &[(u32, RegisterClass)]) -> Result<Classes, Memory>
    ensures { IfOk result (λ classes. classes ≡ registers.now) }
{
    let mut classes = Classes::new(alloc);
    for (number, class) in registers {
        classes = classes.with(*number, *class)?;
    }
    Ok(classes)
}

/// The classes of the registers of a document.
pub(crate) fn classes_of(alloc: Global, text: &[u8], firsts: &Firsts<'_>) -> Result<Classes, Memory>
    requires within { AreFirstsIn text.now firsts.now }
    requires short { length text.now < 2 ^ 32 - 1 }
    ensures { IfOk result (λ classes. (sections : List spelled.Section) → AreFirsts text.now sections firsts.now → classes ≡ (read_document text.now sections).classes) }
{
    let lines = list_under(alloc, text, firsts, Key::Registers)?;
    let registers = registers(alloc, text, lines)?;
    classes(alloc, registers.as_slice())
}
