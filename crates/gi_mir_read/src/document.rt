//! Documents.

ghost use Rattle.std.specs.Prelude.{◌≡◌, ◌-◌, ◌<◌, ◌^◌, List, ℕ, None, true, IfErr, IfOk, OnOk, fold, length};
ghost use Rattle.std.specs.Str.{is_utf8};
ghost use Rattle.gi_spelling.specs.Documents.{block_wrongs, document_wrongs, lower, lowest, read_document};
ghost use Rattle.gi_spelling.specs.Lines as spelled;
ghost use Rattle.gi_spelling.specs.Named.{Extends};
ghost use Rattle.gi_spelling.specs.Read.{IsReadAs, IsReadFunction, IsRefusal};
ghost use Rattle.gi_mir_read.specs.Documents.Keyed.{AreFirsts, AreFirstsIn};
ghost use Rattle.gi_mir_read.specs.Texts.Sectioned.{IsSectionIn, section_at};

pub(crate) mod beginning;
pub(crate) mod document_lines;
pub(crate) mod entries;
pub(crate) mod entry;
pub(crate) mod keys;
pub(crate) mod objects;
pub(crate) mod registers;
pub(crate) mod stated;
pub(crate) mod values;

use crate::document::beginning::{add_stack, classes_of, keyed, number_of};
use crate::document::document_lines::{counted, end_number, note_strays, without_line};
use crate::document::entries::entries;
use crate::document::keys::Firsts;
use crate::document::stated::{lines_under_bar, note_missing, value_of};
use crate::function::blocks::blocks;
use crate::text::refusal::settle;
use crate::text::sections::{Mark, Section};
use crate::text::wrongs::Lowest;
use gi_llt::Memory;
use gi_mir::function::Function;
use gi_mir::names::Names;
use gi_spelling::written::Key;
use gi_text::TextError;
use std::alloc::Global;

/// The function of a document with these entries. What is wrong with its blocks is noted, and nothing is known of it
/// where something is wrong.
fn function_of(
    alloc: Global,
    text: &[u8],
    names: &mut Names,
    firsts: &Firsts<'_>,
    lowest: &mut Lowest,
) -> Result<Function, Memory>
    requires within { AreFirstsIn text.now firsts.now }
    requires short { length text.now < 2 ^ 32 - 1 }
    ensures noted { OnOk result ((sections : List spelled.Section) → AreFirsts text.now sections firsts.now
        → lowest.new ≡ fold lower lowest.old (block_wrongs text.now (read_document text.now sections))) }
    ensures read { IfOk result (λ f. (sections : List spelled.Section) → AreFirsts text.now sections firsts.now
        → is_utf8 (read_document text.now sections).name ≡ true → lowest.new ≡ None → IsReadAs text.now names.new (read_document text.now sections) f) }
    ensures grown { OnOk result (Extends names.old names.new) }
{
    let number = number_of(names, value_of(text, firsts, Key::Name))?;
    let mut function = keyed(alloc, text, firsts, number)?;
    let objects = add_stack(alloc, text, firsts, &mut function)?;
    let classes = classes_of(alloc, text, firsts)?;
    let lines = lines_under_bar(alloc, text, firsts, Key::Body)?;
    blocks(
        alloc,
        text,
        names,
        &mut function,
        classes,
        objects,
        lines,
        lowest,
    )?;
    Ok(function)
}

/// The function of a document. What is wrong is noted, and nothing is known of the function where something is.
fn noted_document(
    alloc: Global,
    text: &[u8],
    names: &mut Names,
    document: Section<'_>,
    lowest: &mut Lowest,
) -> Result<Function, Memory>
    requires section { IsSectionIn text.now document }
    requires short { length text.now < 2 ^ 32 - 1 }
    ensures noted { OnOk result (lowest.new ≡ fold lower lowest.old (document_wrongs text.now (section_at text.now document.entry))) }
    ensures read { IfOk result (λ f. lowest.new ≡ None → IsReadFunction text.now names.new (section_at text.now document.entry) f) }
    ensures grown { OnOk result (Extends names.old names.new) }
{
    let (lines, rest) = Mark::End.cut(text, document.under);
    let counted = counted(alloc, text, lines)?;
    let (before, heads) = Mark::Entry.cut(text, counted.as_slice());
    lowest.note_lines(before);
    let firsts = entries(alloc, text, heads, lowest)?;
    let function = function_of(alloc, text, names, &firsts, lowest)?;
    note_missing(&firsts, end_number(document, rest), lowest);
    note_strays(text, without_line(rest), lowest);
    Ok(function)
}

/// The function that a document spells.
pub(crate) fn document(
    alloc: Global,
    text: &[u8],
    names: &mut Names,
    document: Section<'_>,
) -> Result<Function, TextError>
    requires section { IsSectionIn text.now document }
    requires short { length text.now < 2 ^ 32 - 1 }
    ensures right { OnOk result (lowest (document_wrongs text.now (section_at text.now document.entry)) ≡ None) }
    ensures read { IfOk result (IsReadFunction text.now names.new (section_at text.now document.entry)) }
    ensures refused { IfErr result (IsRefusal (lowest (document_wrongs text.now (section_at text.now document.entry)))) }
    ensures grown { OnOk result (Extends names.old names.new) }
{
    let mut found = Lowest::new();
    match noted_document(alloc, text, names, document, &mut found) {
        Ok(function) => match settle(&found) {
            Ok(()) => Ok(function),
            Err(error) => Err(error),
        },
        Err(_) => Err(TextError::Memory),
    }
}
