//! The parts of a text.

ghost use Rattle.std.specs.Prelude.{◌≡◌, [], ◌≤◌, All, IfSome, filter, length, option_map};
ghost use Rattle.gi_spelling.specs.Lines.{behind_block, block_lines_in, is_stray, past_end};
ghost use Rattle.gi_mir_read.specs.Texts.Parted.{IsPartsOf, parts_in, split_parts, block_parts};
ghost use Rattle.gi_mir_read.specs.Texts.Placed.{IsLineIn, lines_at};

use crate::text::line_bytes::{is_block_start, is_end};
use crate::text::lines::Line;
use crate::text::sections::Mark;

/// The parts of a text: the lines of its IR block if it has one, the lines behind that and before the first document,
/// and the lines from there on.
#[derive(Clone, Copy, Debug)]
pub(crate) struct Parts<'a> {
    pub ir: Option<&'a [Line]>,
    pub before: &'a [Line],
    pub documents: &'a [Line],
}

/// Without the line `...` at the front.
fn past_end<'a>(text: &[u8], lines: &'a [Line]) -> &'a [Line]
    requires { All (IsLineIn text.now) lines.now }
    ensures past { lines_at text.now result.now ≡ past_end (lines_at text.now lines.now) }
    ensures within { All (IsLineIn text.now) result.now }
{
    match lines {
        [first, rest @ ..] if is_end(first.bytes(text)) => rest,
        _ => lines,
    }
}

/// The parts, where the IR block stands before these lines.
fn in_documents<'a>(text: &[u8], ir: Option<&'a [Line]>, lines: &'a [Line]) -> Parts<'a>
    requires block { IfSome ir (λ block. All (IsLineIn text.now) block.now) }
    requires within { All (IsLineIn text.now) lines.now }
    ensures { IsPartsOf text.now (split_parts text.now ir.entry lines.now) result }
{
    let (before, documents) = Mark::Document.cut(text, lines);
    Parts {
        ir,
        before,
        documents,
    }
}

/// The parts of a text with an IR block, from the line behind the block's first.
fn behind_block_start<'a>(text: &[u8], lines: &'a [Line]) -> Parts<'a>
    requires { All (IsLineIn text.now) lines.now }
    ensures { IsPartsOf text.now (block_parts text.now lines.now) result }
{
    let (block, behind) = Mark::BlockEnd.cut(text, lines);
    in_documents(text, Some(block), past_end(text, behind))
}

/// The parts of a text of these lines.
pub(crate) fn parts_of<'a>(text: &[u8], lines: &'a [Line]) -> Parts<'a>
    requires { All (IsLineIn text.now) lines.now }
    ensures { IsPartsOf text.now (parts_in text.now lines.now) result }
{
    let (_, counted) = Mark::Counted.cut(text, lines);
    match counted {
        [first, more @ ..] if is_block_start(first.bytes(text)) => behind_block_start(text, more),
        _ => in_documents(text, None, lines),
    }
}
