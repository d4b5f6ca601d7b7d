//! The lines of a function's blocks that say something.

ghost use Rattle.std.specs.Prelude.{◌≡◌, ℕ, ◌-◌, ◌<◌, ◌≤◌, ◌^◌, List, [], ◌++◌, All, IfOk, IfSome, OnOk, MatchOption, Some, drop, filter, length, option_map, position};
ghost use Rattle.std.specs.List.{cons_option};
ghost use Rattle.gi_spelling.specs.Blocks.{is_told};
ghost use Rattle.gi_spelling.specs.Items.{kept_items};
ghost use Rattle.gi_text.specs.Cutting.{slice};
ghost use Rattle.gi_mir_read.specs.Lines.Telling.{begins_telling, tells};
ghost use Rattle.gi_mir_read.specs.Texts.Placed.{IsLineIn, line_at, lines_at};
ghost use Rattle.gi_mir_read.specs.Functions.Blocked.{IsCutAtBlock, IsNextBlock, IsToldIn, begins_block, blocks_of, told_by, told_lines_at, told_of};

use crate::line::block::head_number;
use crate::line::instr::is_debug_line;
use crate::line::items::kept_items;
use crate::list::push;
use crate::text::lines::Line;
use gi_llt::Memory;
use gi_spelling::token::Item;
use std::alloc::Global;

/// A line that says something, and the number of the block that it begins, if it begins one.
#[derive(Clone, Copy, Debug, PartialEq, Eq)]
pub(crate) struct Told {
    pub line: Line,
    pub head: Option<u32>,
}

/// The tokens that count of a line of a block, and none where it has none.
pub(crate) fn kept_of_line(
    alloc: Global,
    text: &[u8],
    line: Line,
) -> Result<Option<Vec<Item>>, Memory>
    requires line { IsLineIn text.now line }
    requires short { length text.now < 2 ^ 32 - 1 }
    ensures { IfOk result (λ found. option_map (λ items. items.items) found ≡ kept_items text.now (line_at text.now line)) }
{
    kept_items(alloc, text, line.start as usize, line.end as usize)
}

/// The line of these tokens, if it says something.
fn told_by(line: Line, items: &[Item]) -> Option<Told>
    ensures { result ≡ told_by line (Some items.now) }
{
    if is_debug_line(items) {
        return None;
    }
    let head = head_number(items);
    Some(Told { line, head })
}

/// Whether bytes begin as a debug instruction or as a block's head.
fn begins_telling(bytes: &[u8]) -> bool
    ensures { result ≡ begins_telling bytes.now }
{
    bytes.starts_with(b"DBG_") || bytes.starts_with(b"bb.")
}

/// The bytes from a place on.
fn from_place(bytes: &[u8], place: usize) -> &[u8]
    requires { place ≤ length bytes.now }
    ensures { result.now ≡ drop place bytes.now }
{
    &bytes[place..]
}

/// Whether such a word may stand somewhere in a line.
fn tells(bytes: &[u8]) -> bool
    ensures { result ≡ tells bytes.now }
{
    for k in 0..bytes.len() {
        if begins_telling(from_place(bytes, k)) {
            return true;
        }
    }
    false
}

/// Whether such a word may stand in a line of the text.
fn tells_at(text: &[u8], line: Line) -> bool
    requires line { IsLineIn text.now line }
    ensures { result ≡ tells (slice line.start line.end text.now) }
{
    tells(&text[line.start as usize..line.end as usize])
}

/// The line, if it says something. Its tokens are looked at only where a debug instruction or a block's head may stand in it.
#[tactic(auto, using(crate::proofs::Lines::TellingLemmas::plain_told))]
fn told_of(alloc: Global, text: &[u8], line: Line) -> Result<Option<Told>, Memory>
    requires line { IsLineIn text.now line }
    requires short { length text.now < 2 ^ 32 - 1 }
    ensures { IfOk result (λ found. found ≡ told_of text.now line) }
{
    if !tells_at(text, line) {
        return Ok(Some(Told { line, head: None }));
    }
    match kept_of_line(alloc, text, line)? {
        Some(items) => Ok(told_by(line, items.as_slice())),
        None => Ok(Some(Told { line, head: None })),
    }
}

/// Adds a line, if there is one.
fn add(told: &mut Vec<Told>, found: Option<Told>) -> Result<(), Memory>
    ensures { OnOk result (told.new.items ≡ told.old.items ++ cons_option found []) }
{
    match found {
        Some(line) => push(told, line),
        None => Ok(()),
    }
}

/// The lines that say something.
pub(crate) fn told_lines(alloc: Global, text: &[u8], lines: &[Line]) -> Result<Vec<Told>, Memory>
    requires lines { All (IsLineIn text.now) lines.now }
    requires short { length text.now < 2 ^ 32 - 1 }
    ensures told { IfOk result (λ told. told_lines_at text.now told.items ≡ filter (is_told text.now) (lines_at text.now lines.now)) }
    ensures within { IfOk result (λ told. All (IsToldIn text.now) told.items) }
{
    let mut told = Vec::new(alloc);
    for line in lines {
        add(&mut told, told_of(alloc, text, *line)?)?;
    }
    Ok(told)
}

/// The place of the first line that begins a block.
fn head_place(told: &[Told]) -> Option<usize>
    ensures place { result ≡ position begins_block told.now }
    ensures within { IfSome result (λ place. place < length told.now) }
{
    told.iter().position(|line| line.head.is_some())
}

/// The lines before the first block, and the lines from that on.
pub(crate) fn cut_at_block(told: &[Told]) -> (&[Told], &[Told])
    ensures cut { (text : List ℕ) → All (IsToldIn text) told.now → IsCutAtBlock text told.now result.0.now result.1.now }
    ensures shorter { length result.1.now ≤ length told.now }
{
    match head_place(told) {
        Some(place) => told.split_at(place),
        None => (told, &[]),
    }
}

/// The lines of a block: the line that begins it, and the lines under that.
#[derive(Clone, Copy, Debug)]
pub(crate) struct BlockLines<'a> {
    pub head: Told,
    pub under: &'a [Told],
}

/// The first block of lines that begin with one, and the lines behind it.
pub(crate) fn next_block<'a>(told: &'a [Told]) -> Option<(BlockLines<'a>, &'a [Told])>
    ensures next { (text : List ℕ) → All (IsToldIn text) told.now → (blocks_of text told.now).before ≡ []
        → MatchOption result ((blocks_of text told.now).sections ≡ []) (λ p. IsNextBlock text told.now p.0.head p.0.under.now p.1.now) }
    ensures shorter { IfSome result (λ p. length p.1.now < length told.now) }
{
    match told {
        [] => None,
        [head, rest @ ..] => {
            let (under, later) = cut_at_block(rest);
            let block = BlockLines { head: *head, under };
            Some((block, later))
        }
    }
}
