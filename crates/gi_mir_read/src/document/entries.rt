//! The entries of a document.

ghost use Rattle.std.specs.Prelude.{◌≡◌, ◌-◌, ◌<◌, ◌^◌, ◌++◌, [], ◌∷◌, List, ℕ, None, All, IfOk, OnOk, fold, length};
ghost use Rattle.gi_spelling.specs.Documents.{entries_wrongs, entry_wrongs, fault_then, is_bar, key_wrongs, list_value, lower, name_value, object_wrongs, register_wrongs, truth_fault, under_wrongs};
ghost use Rattle.gi_spelling.specs.Items.{value_items};
ghost use Rattle.gi_spelling.specs.Lines as spelled;
ghost use Rattle.gi_spelling.specs.Lines.{behind_colon, value_bytes};
ghost use Rattle.gi_text.specs.Cutting.{slice};
ghost use Rattle.gi_mir_read.specs.Documents.Keyed.{AreFirsts};
ghost use Rattle.gi_mir_read.specs.Texts.Placed.{IsLineIn, line_at, lines_at};
ghost use Rattle.gi_mir_read.specs.Texts.Sectioned.{IsSectionIn, section_at, sections_in};
ghost use Rattle.gi_spelling.specs.declared.written.Key.TheVariants.{Name, Legalized, Banked, Selected, Registers, Stack, Body};
ghost use Rattle.gi_mir_read.specs.declared.text.sections.Mark.TheVariants.{Entry};

use crate::document::keys::{Firsts, key_spelled};
use crate::document::objects::note_objects;
use crate::document::registers::note_registers;
use crate::document::values::{is_bar, is_name, list_value, truth_fault, value_items};
use crate::text::line_bytes::{behind_colon, is_entry, key_of, value_bytes};
use crate::text::lines::Line;
use crate::text::sections::{Mark, Section};
use crate::text::wrongs::Lowest;
use gi_llt::Memory;
use gi_spelling::written::{Fault, Key, ListValue};
use std::alloc::Global;

/// The name that a line states.
pub(crate) fn name_value<'a>(text: &'a [u8], line: Line) -> &'a [u8]
    requires { IsLineIn text.now line }
    ensures { result.now ≡ value_bytes (behind_colon (slice line.start line.end text.now)) }
{
    value_bytes(behind_colon(line.bytes(text)))
}

/// Notes what is wrong with an entry of `name`.
fn note_name(text: &[u8], section: Section<'_>, lowest: &mut Lowest)
    requires { IsSectionIn text.now section }
    ensures { lowest.new ≡ fold lower lowest.old (key_wrongs text.now Name (section_at text.now section.entry)) }
{
    if is_name(name_value(text, section.head)) {
        lowest.note_under(section.under);
    } else {
        lowest.note(section.head.number, Fault::Syntax);
    }
}

/// Why the value of a line isn't `true` or `false`.
fn value_fault(alloc: Global, text: &[u8], line: Line) -> Result<Option<Fault>, Memory>
    requires line { IsLineIn text.now line }
    requires short { length text.now < 2 ^ 32 - 1 }
    ensures { IfOk result (λ fault. fault ≡ truth_fault (value_items text.now (line_at text.now line))) }
{
    match value_items(alloc, text, line)? {
        Some(items) => Ok(truth_fault(items.as_slice())),
        None => Ok(Some(Fault::Syntax)),
    }
}

/// Notes what is wrong with an entry of a key that is true or false.
fn note_truth(
    alloc: Global,
    text: &[u8],
    section: Section<'_>,
    lowest: &mut Lowest,
) -> Result<(), Memory>
    requires section { IsSectionIn text.now section }
    requires short { length text.now < 2 ^ 32 - 1 }
    ensures { OnOk result (lowest.new ≡ fold lower lowest.old (fault_then section.entry.head.number (truth_fault (value_items text.now (line_at text.now section.entry.head))) (under_wrongs (lines_at text.now section.entry.under.now)))) }
{
    match value_fault(alloc, text, section.head)? {
        Some(fault) => lowest.note(section.head.number, fault),
        None => lowest.note_under(section.under),
    }
    Ok(())
}

/// What stands behind the key of a list.
pub(crate) fn list_of(alloc: Global, text: &[u8], line: Line) -> Result<ListValue, Memory>
    requires line { IsLineIn text.now line }
    requires short { length text.now < 2 ^ 32 - 1 }
    ensures { IfOk result (λ value. value ≡ list_value (value_items text.now (line_at text.now line))) }
{
    match value_items(alloc, text, line)? {
        Some(items) => Ok(list_value(items.as_slice())),
        None => Ok(ListValue::NoList),
    }
}

/// Whether blocks stand under a line.
pub(crate) fn has_bar(alloc: Global, text: &[u8], line: Line) -> Result<bool, Memory>
    requires line { IsLineIn text.now line }
    requires short { length text.now < 2 ^ 32 - 1 }
    ensures { IfOk result (λ bar. bar ≡ is_bar (value_items text.now (line_at text.now line))) }
{
    match value_items(alloc, text, line)? {
        Some(items) => Ok(is_bar(items.as_slice())),
        None => Ok(false),
    }
}

/// Notes what is wrong with an entry of `registers`.
fn note_classes(
    alloc: Global,
    text: &[u8],
    section: Section<'_>,
    lowest: &mut Lowest,
) -> Result<(), Memory>
    requires section { IsSectionIn text.now section }
    requires short { length text.now < 2 ^ 32 - 1 }
    ensures { OnOk result (lowest.new ≡ fold lower lowest.old (key_wrongs text.now Registers (section_at text.now section.entry))) }
{
    match list_of(alloc, text, section.head)? {
        ListValue::Entries => note_registers(alloc, text, section.under, lowest)?,
        ListValue::NoEntries => lowest.note_under(section.under),
        ListValue::NoList => lowest.note(section.head.number, Fault::Syntax),
    }
    Ok(())
}

/// Notes what is wrong with an entry of `stack`.
fn note_stack(
    alloc: Global,
    text: &[u8],
    section: Section<'_>,
    lowest: &mut Lowest,
) -> Result<(), Memory>
    requires section { IsSectionIn text.now section }
    requires short { length text.now < 2 ^ 32 - 1 }
    ensures { OnOk result (lowest.new ≡ fold lower lowest.old (key_wrongs text.now Stack (section_at text.now section.entry))) }
{
    match list_of(alloc, text, section.head)? {
        ListValue::Entries => note_objects(alloc, text, section.under, lowest)?,
        ListValue::NoEntries => lowest.note_under(section.under),
        ListValue::NoList => lowest.note(section.head.number, Fault::Syntax),
    }
    Ok(())
}

/// Notes what is wrong with an entry of `body`, but for the blocks.
fn note_body(
    alloc: Global,
    text: &[u8],
    section: Section<'_>,
    lowest: &mut Lowest,
) -> Result<(), Memory>
    requires section { IsSectionIn text.now section }
    requires short { length text.now < 2 ^ 32 - 1 }
    ensures { OnOk result (lowest.new ≡ fold lower lowest.old (key_wrongs text.now Body (section_at text.now section.entry))) }
{
    if !has_bar(alloc, text, section.head)? {
        lowest.note(section.head.number, Fault::Syntax);
    }
    Ok(())
}

/// Notes what is wrong with an entry of a key that counts.
fn note_value(
    alloc: Global,
    text: &[u8],
    key: Key,
    section: Section<'_>,
    lowest: &mut Lowest,
) -> Result<(), Memory>
    requires section { IsSectionIn text.now section }
    requires short { length text.now < 2 ^ 32 - 1 }
    ensures { OnOk result (lowest.new ≡ fold lower lowest.old (key_wrongs text.now key (section_at text.now section.entry))) }
{
    match key {
        Key::Name => {
            note_name(text, section, lowest);
            Ok(())
        }
        Key::Legalized | Key::Banked | Key::Selected => note_truth(alloc, text, section, lowest),
        Key::Registers => note_classes(alloc, text, section, lowest),
        Key::Stack => note_stack(alloc, text, section, lowest),
        Key::Body => note_body(alloc, text, section, lowest),
    }
}

/// Notes what is wrong with an entry behind others, of which these are the first of each key, and keeps it if it is one.
fn note_entry<'a>(
    alloc: Global,
    text: &[u8],
    firsts: &mut Firsts<'a>,
    section: Section<'a>,
    lowest: &mut Lowest,
) -> Result<(), Memory>
    requires section { IsSectionIn text.now section }
    requires short { length text.now < 2 ^ 32 - 1 }
    requires count { length firsts.old.entries ≡ 7 }
    ensures noted { OnOk result ((earlier : List spelled.Section) → AreFirsts text.now earlier firsts.old
        → lowest.new ≡ fold lower lowest.old (entry_wrongs text.now earlier (section_at text.now section.entry))) }
    ensures firsts { OnOk result ((earlier : List spelled.Section) → AreFirsts text.now earlier firsts.old
        → AreFirsts text.now (earlier ++ section_at text.now section.entry ∷ []) firsts.new) }
{
    let line = section.head.bytes(text);
    if !is_entry(line) {
        lowest.note(section.head.number, Fault::Syntax);
        return Ok(());
    }
    let Some(key) = key_spelled(key_of(line)) else {
        return Ok(());
    };
    if firsts.first(key).is_some() {
        lowest.note(section.head.number, Fault::Syntax);
        return Ok(());
    }
    firsts.keep(key, section);
    note_value(alloc, text, key, section, lowest)
}

/// Notes what is wrong with the entries of a document, of which the lines begin with one, and answers the first of each
/// key.
pub(crate) fn entries<'a>(
    alloc: Global,
    text: &[u8],
    lines: &'a [Line],
    lowest: &mut Lowest,
) -> Result<Firsts<'a>, Memory>
    requires within { All (IsLineIn text.now) lines.now }
    requires short { length text.now < 2 ^ 32 - 1 }
    requires headed { (sections_in Entry text.now lines.now).before ≡ [] }
    ensures firsts { IfOk result (AreFirsts text.now (sections_in Entry text.now lines.now).sections) }
    ensures noted { OnOk result (lowest.new ≡ fold lower lowest.old (entries_wrongs text.now [] (sections_in Entry text.now lines.now).sections)) }
{
    let mut firsts = Firsts::new();
    let mut rest = lines;
    while let Some((section, later)) = Mark::Entry.next(text, rest) {
        note_entry(alloc, text, &mut firsts, section, lowest)?;
        rest = later;
    }
    Ok(firsts)
}
