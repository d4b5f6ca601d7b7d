//! The lines of a document that count, and those that stand in no document.

ghost use Rattle.std.specs.Prelude.{◌≡◌, ℕ, List, All, IfOk, filter, fold};
ghost use Rattle.gi_spelling.specs.Documents.{line_wrongs, lower};
ghost use Rattle.gi_spelling.specs.Lines.{counted_lines, document_end, document_lines, document_rest, document_strays, end_number, is_stray, last_number, without_line};
ghost use Rattle.gi_mir_read.specs.Texts.Placed.{IsLineIn, line_at, lines_at};
ghost use Rattle.gi_mir_read.specs.Texts.Sectioned.{IsSectionIn, section_at};

use crate::list::push;
use crate::text::line_bytes::is_dropped;
use crate::text::lines::Line;
use crate::text::sections::{Mark, Section};
use crate::text::wrongs::Lowest;
use gi_llt::Memory;
use gi_spelling::written::Fault;
use std::alloc::Global;

/// The lines that aren't passed over.
pub(crate) fn counted(alloc: Global, text: &[u8], lines: &[Line]) -> Result<Vec<Line>, Memory>
    requires { All (IsLineIn text.now) lines.now }
    ensures lines { IfOk result (λ counted. lines_at text.now counted.items ≡ counted_lines (lines_at text.now lines.now)) }
    ensures within { IfOk result (λ counted. All (IsLineIn text.now) counted.items) }
{
    let mut counted = Vec::new(alloc);
    for line in lines {
        if !is_dropped(line.bytes(text)) {
            push(&mut counted, *line)?;
        }
    }
    Ok(counted)
}

/// Notes each line that stands in no document.
pub(crate) fn note_strays(text: &[u8], lines: &[Line], lowest: &mut Lowest)
    requires { All (IsLineIn text.now) lines.now }
    ensures { lowest.new ≡ fold lower lowest.old (line_wrongs (filter is_stray (lines_at text.now lines.now))) }
{
    for line in lines {
        if !is_dropped(line.bytes(text)) {
            lowest.note(line.number, Fault::Syntax);
        }
    }
}

/// The number of the last of a line and the lines behind it.
fn last_number(line: Line, lines: &[Line]) -> u32
    ensures { (text : List ℕ) → result ≡ last_number (line_at text line) (lines_at text lines.now) }
{
    match lines.last() {
        Some(last) => last.number,
        None => line.number,
    }
}

/// The number of a document's last line, where these stand behind its lines.
pub(crate) fn end_number(document: Section<'_>, rest: &[Line]) -> u32
    ensures { (text : List ℕ) → result ≡ end_number (section_at text document.entry) (lines_at text rest.now) }
{
    match rest {
        [] => last_number(document.head, document.under),
        [end, ..] => end.number,
    }
}

/// The lines without the first.
pub(crate) fn without_line(lines: &[Line]) -> &[Line]
    ensures without { (text : List ℕ) → lines_at text result.now ≡ without_line (lines_at text lines.now) }
    ensures within { (text : List ℕ) → All (IsLineIn text) lines.now → All (IsLineIn text) result.now }
{
    match lines {
        [] => lines,
        [_, rest @ ..] => rest,
    }
}
