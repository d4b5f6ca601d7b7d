//! The module that a text spells.

ghost use Rattle.std.specs.Prelude.{ℕ, List, ◌≡◌, ◌-◌, ◌<◌, ◌^◌, [], ◌∷◌, ◌++◌, None, All, IfErr, IfOk, IfSome, OnOk, filter, length, map, option_map, string_bytes};
ghost use Rattle.std.specs.List.{AllZip};
ghost use Rattle.gi_spelling.specs.Documents.{document_wrongs, first_wrong, ir_wrongs, line_wrongs, lowest, wrong_in};
ghost use Rattle.gi_spelling.specs.Lines.{is_stray, parts_of_text};
ghost use Rattle.gi_text.specs.declared.token.TextError.TheVariants as error;
ghost use Rattle.gi_spelling.specs.Read.{IsReadFunction, IsReadModule, IsRefusal, bytes_of_line};
ghost use Rattle.gi_mir_read.specs.Texts.Parted.{IsPartsOf, block_at};
ghost use Rattle.gi_mir_read.specs.Texts.Placed.{IsLineIn, lines_at};
ghost use Rattle.gi_mir_read.specs.Texts.Sectioned.{sections_in};
ghost use Rattle.gi_mir_read.specs.Triples.{ir_number, number_at};
ghost use Rattle.gi_mir_read.specs.declared.text.sections.Mark.TheVariants.{Document};

use crate::document::document;
use crate::document::document_lines::note_strays;
use crate::text::ir::ir_texts;
use crate::text::lines::{Line, lines};
use crate::text::parts::{Parts, parts_of};
use crate::text::refusal::settle;
use crate::text::sections::Mark;
use crate::text::wrongs::Lowest;
use gi_llt::Memory;
use gi_mir::function::Function;
use gi_mir::module::Module;
use gi_mir::names::Names;
use gi_text::TextError;
use std::alloc::Global;

/// The lines of an IR block, if there is one.
fn ir(alloc: Global, text: &[u8], block: Option<&[Line]>) -> Result<Option<Vec<String>>, TextError>
    requires { IfSome block (λ lines. All (IsLineIn text.now) lines.now) }
    ensures right { OnOk result (lowest (ir_wrongs (option_map (block_at text.now) block.entry)) ≡ None) }
    ensures ir { IfOk result (λ ir. option_map (λ texts. map string_bytes texts.items) ir ≡ option_map (map bytes_of_line) (option_map (block_at text.now) block.entry)) }
    ensures refused { IfErr result (IsRefusal (lowest (ir_wrongs (option_map (block_at text.now) block.entry)))) }
{
    let Some(lines) = block else {
        return Ok(None);
    };
    let mut lowest = Lowest::new();
    match ir_texts(alloc, text, lines, &mut lowest) {
        Ok(texts) => match settle(&lowest) {
            Ok(()) => Ok(Some(texts)),
            Err(error) => Err(error),
        },
        Err(_) => Err(TextError::Memory),
    }
}

/// Refuses a text in which a line stands in no document.
fn refuse_strays(text: &[u8], lines: &[Line]) -> Result<(), TextError>
    requires { All (IsLineIn text.now) lines.now }
    ensures right { OnOk result (lowest (line_wrongs (filter is_stray (lines_at text.now lines.now))) ≡ None) }
    ensures refused { IfErr result (IsRefusal (lowest (line_wrongs (filter is_stray (lines_at text.now lines.now))))) }
{
    let mut lowest = Lowest::new();
    note_strays(text, lines, &mut lowest);
    settle(&lowest)
}

/// Adds a function.
fn append(functions: &mut Vec<Function>, function: Function) -> Result<(), TextError>
    ensures ok { OnOk result (functions.new.items ≡ functions.old.items ++ function ∷ []) }
    ensures err { IfErr result (λ why. why ≡ error.Memory) }
{
    match functions.push(function) {
        Ok(()) => Ok(()),
        Err(_) => Err(TextError::Memory),
    }
}

/// The functions of documents.
fn functions(
    alloc: Global,
    text: &[u8],
    names: &mut Names,
    documents: &[Line],
) -> Result<Vec<Function>, TextError>
    requires within { All (IsLineIn text.now) documents.now }
    requires short { length text.now < 2 ^ 32 - 1 }
    requires headed { (sections_in Document text.now documents.now).before ≡ [] }
    ensures right { OnOk result (first_wrong (map (document_wrongs text.now) (sections_in Document text.now documents.now).sections) ≡ None) }
    ensures functions { IfOk result (λ functions. AllZip (IsReadFunction text.now names.new) (sections_in Document text.now documents.now).sections functions.items) }
    ensures refused { IfErr result (IsRefusal (first_wrong (map (document_wrongs text.now) (sections_in Document text.now documents.now).sections))) }
{
    let mut functions = Vec::new(alloc);
    let mut rest = documents;
    while let Some((section, later)) = Mark::Document.next(text, rest) {
        let function = document(alloc, text, names, section)?;
        append(&mut functions, function)?;
        rest = later;
    }
    Ok(functions)
}

/// The module of a text of these parts.
fn module(alloc: Global, text: &[u8], parts: Parts<'_>) -> Result<Module, TextError>
    requires parts { IsPartsOf text.now (parts_of_text text.now) parts }
    requires short { length text.now < 2 ^ 32 - 1 }
    ensures ok { IfOk result (IsReadModule text.now) }
    ensures refused { IfErr result (IsRefusal (wrong_in text.now)) }
{
    let ir = ir(alloc, text, parts.ir)?;
    refuse_strays(text, parts.before)?;
    let mut names = Names::new(alloc);
    let functions = functions(alloc, text, &mut names, parts.documents)?;
    Ok(Module {
        ir,
        names,
        functions,
    })
}

/// The module that a text spells, or its first line that spells nothing, with the reason.
pub fn read_mir(alloc: Global, text: &[u8]) -> Result<Module, TextError>
    requires { length text.now < 2 ^ 32 - 1 }
    ensures ok { IfOk result (IsReadModule text.now) }
    ensures refused { IfErr result (IsRefusal (wrong_in text.now)) }
{
    match lines(alloc, text) {
        Ok(lines) => module(alloc, text, parts_of(text, lines.as_slice())),
        Err(_) => Err(TextError::Memory),
    }
}

/// The number of the line at a place of an IR block.
fn number_at(block: Option<&[Line]>, place: usize) -> u32
    ensures { (text : List ℕ) → result ≡ number_at (option_map (block_at text) block.entry) place }
{
    match block {
        Some(lines) => match lines.get(place) {
            Some(line) => line.number,
            None => 0,
        },
        None => 0,
    }
}

/// The number of a line of the IR block, by its place in the block.
pub fn ir_number(alloc: Global, text: &[u8], place: usize) -> Result<u32, Memory>
    requires { length text.now < 2 ^ 32 - 1 }
    ensures { IfOk result (λ number. number ≡ ir_number text.now place) }
{
    match lines(alloc, text) {
        Ok(lines) => Ok(number_at(parts_of(text, lines.as_slice()).ir, place)),
        Err(_) => Err(Memory),
    }
}
