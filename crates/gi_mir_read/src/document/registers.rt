//! The entries of `registers`.

ghost use Rattle.std.specs.Prelude.{◌≡◌, ◌-◌, ◌<◌, ◌^◌, ◌++◌, [], ◌∷◌, Ok, All, IfErr, IfOk, OnOk, fold, length};
ghost use Rattle.std.specs.Option.{option_to_list};
ghost use Rattle.gi_spelling.specs.Documents.{line_entry, lower, register_by, register_wrongs, registers_in};
ghost use Rattle.gi_mir_read.specs.Texts.Placed.{IsLineIn, line_at, lines_at};
ghost use Rattle.gi_mir_read.specs.Lines.Stops.{IsFault};

use crate::document::entry::read_entry;
use crate::document::values::items_of_line;
use crate::line::stop::Stop;
use crate::list::push;
use crate::text::lines::Line;
use crate::text::wrongs::Lowest;
use gi_llt::Memory;
use gi_spelling::token::RegisterClass;
use gi_spelling::written::{EntryKind, Fault, Fields};
use std::alloc::Global;

/// The greatest number of a register.
const GREATEST: u128 = 4_294_967_294;

/// The entry of a line.
fn line_entry(alloc: Global, text: &[u8], line: Line) -> Result<Fields, Stop>
    requires line { IsLineIn text.now line }
    requires short { length text.now < 2 ^ 32 - 1 }
    ensures ok { IfOk result (λ fields. line_entry text.now (line_at text.now line) ≡ Ok fields) }
    ensures fault { IfErr result (IsFault (line_entry text.now (line_at text.now line))) }
{
    match items_of_line(alloc, text, line) {
        Ok(Some(items)) => match read_entry(EntryKind::Register, items.as_slice()) {
            Ok(fields) => Ok(fields),
            Err(fault) => Err(Stop::Fault(fault)),
        },
        Ok(None) => Err(Stop::Fault(Fault::Syntax)),
        Err(_) => Err(Stop::Memory),
    }
}

/// Notes each line that is no entry.
pub(crate) fn note_registers(
    alloc: Global,
    text: &[u8],
    lines: &[Line],
    lowest: &mut Lowest,
) -> Result<(), Memory>
    requires within { All (IsLineIn text.now) lines.now }
    requires short { length text.now < 2 ^ 32 - 1 }
    ensures { OnOk result (lowest.new ≡ fold lower lowest.old (register_wrongs text.now (lines_at text.now lines.now))) }
{
    for line in lines {
        match line_entry(alloc, text, *line) {
            Ok(_) => {}
            Err(Stop::Fault(fault)) => lowest.note(line.number, fault),
            Err(Stop::Memory) => return Err(Memory),
        }
    }
    Ok(())
}

/// The number and the class of the register that an entry is of.
fn register_of(fields: Fields) -> Option<(u32, RegisterClass)>
    ensures { result ≡ register_by (Ok fields) }
{
    let id = fields.id?;
    let class = fields.class?;
    Some((id.min(GREATEST) as u32, class))
}

/// Adds the register of an entry.
fn append(
    classes: &mut Vec<(u32, RegisterClass)>,
    register: Option<(u32, RegisterClass)>,
) -> Result<(), Memory>
    ensures { OnOk result (classes.new.items ≡ classes.old.items ++ option_to_list register) }
{
    match register {
        Some(register) => push(classes, register),
        None => Ok(()),
    }
}

/// The classes of the registers, in the order of the entries.
pub(crate) fn registers(
    alloc: Global,
    text: &[u8],
    lines: &[Line],
) -> Result<Vec<(u32, RegisterClass)>, Memory>
    requires within { All (IsLineIn text.now) lines.now }
    requires short { length text.now < 2 ^ 32 - 1 }
    ensures { IfOk result (λ classes. classes.items ≡ registers_in text.now (lines_at text.now lines.now)) }
{
    let mut classes = Vec::new(alloc);
    for line in lines {
        match line_entry(alloc, text, *line) {
            Ok(fields) => append(&mut classes, register_of(fields))?,
            Err(Stop::Fault(_)) => {}
            Err(Stop::Memory) => return Err(Memory),
        }
    }
    Ok(classes)
}
