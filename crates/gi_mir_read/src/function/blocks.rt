//! The blocks of a function.

ghost use Rattle.std.specs.Prelude.{◌≡◌, ◌-◌, ◌<◌, ◌^◌, [], ◌∷◌, Some, if◌then◌else◌, All, fold, filter_map, length, map, IfOk, OnOk};
ghost use Rattle.gi_spelling.specs.Blocks.{block_numbers, blocks_in, is_head, list_kind_in, outer_fault, outer_wrong, wrong};
ghost use Rattle.gi_spelling.specs.Documents.{lower};
ghost use Rattle.gi_spelling.specs.Items.{kept_items};
ghost use Rattle.gi_spelling.specs.declared.written.Fault.TheVariants as fault;
ghost use Rattle.gi_mir_read.specs.Functions.Blocked.{IsToldIn, blocks_of, head_of, section_of, told_at, told_lines_at};
ghost use Rattle.gi_mir_read.specs.Functions.Noted.{with_lowest};
ghost use Rattle.gi_mir_read.specs.Texts.Placed.{IsLineIn, line_at, lines_at};
ghost use Rattle.gi_mir_read.specs.Functions.ReadBlocks.{BlocksAreRead, ReadsBlock, ReadsBlocks, head_wrongs, tables_in};

use crate::function::body::{Body, Site};
use crate::function::building::add_body;
use crate::function::notes::Notes;
use crate::function::told::{BlockLines, Told, cut_at_block, kept_of_line, next_block, told_lines};
use crate::line::block::{is_head, list_kind};
use crate::line::instr::read_instr;
use crate::line::stop::Stop;
use crate::text::lines::Line;
use crate::text::wrongs::Lowest;
use gi_llt::Memory;
use gi_mir::function::Function;
use gi_mir::names::Names;
use gi_resolve::numbering::{Classes, Numbering};
use gi_resolve::tables::Tables;
use gi_spelling::token::Item;
use gi_spelling::written::Fault;
use std::alloc::Global;

/// The numbers of the blocks, in layout.
fn numbers_of(alloc: Global, told: &[Told]) -> Result<Numbering, Memory>
    ensures { IfOk result (λ numbers. numbers ≡ filter_map head_of told.now) }
{
    let mut numbers = Numbering::new(alloc);
    for line in told {
        if let Some(number) = line.head {
            numbers = numbers.with(number)?;
        }
    }
    Ok(numbers)
}

/// Why a line that stands in no block is wrong.
fn outer_fault(alloc: Global, items: &[Item]) -> Result<Fault, Memory>
    ensures { IfOk result (λ fault. fault ≡ outer_fault (Some items.now) (list_kind_in (Some items.now))) }
{
    if list_kind(items).is_some() {
        return Ok(Fault::Syntax);
    }
    match read_instr(alloc, items) {
        Ok(_) => Ok(Fault::Syntax),
        Err(Stop::Fault(fault)) => Ok(fault),
        Err(Stop::Memory) => Err(Memory),
    }
}

/// Notes a line that stands in no block.
fn note_outer(alloc: Global, text: &[u8], notes: &mut Notes, line: Line) -> Result<(), Memory>
    requires within { IsLineIn text.now line }
    requires short { length text.now < 2 ^ 32 - 1 }
    ensures { OnOk result (notes.new ≡ with_lowest notes.old (lower notes.old.lowest (outer_wrong text.now (line_at text.now line)))) }
{
    let fault = match kept_of_line(alloc, text, line)? {
        Some(items) => outer_fault(alloc, items.as_slice())?,
        None => Fault::Syntax,
    };
    notes.note(line.number, fault);
    Ok(())
}

/// Notes the lines that stand in no block.
fn note_outers(alloc: Global, text: &[u8], notes: &mut Notes, told: &[Told]) -> Result<(), Memory>
    requires within { All (IsToldIn text.now) told.now }
    requires short { length text.now < 2 ^ 32 - 1 }
    ensures { OnOk result (notes.new ≡ with_lowest notes.old (fold lower notes.old.lowest (map (outer_wrong text.now) (told_lines_at text.now told.now)))) }
{
    for line in told {
        note_outer(alloc, text, notes, line.line)?;
    }
    Ok(())
}

/// Whether a line is a head that is spelled so.
fn is_head_line(alloc: Global, text: &[u8], line: Line) -> Result<bool, Memory>
    requires within { IsLineIn text.now line }
    requires short { length text.now < 2 ^ 32 - 1 }
    ensures { IfOk result (λ is. is ≡ is_head (kept_items text.now (line_at text.now line))) }
{
    match kept_of_line(alloc, text, line)? {
        Some(items) => Ok(is_head(items.as_slice())),
        None => Ok(false),
    }
}

/// Notes a line, unless it is right.
fn note_unless(is_right: bool, notes: &mut Notes, line: u32)
    ensures { notes.new ≡ with_lowest notes.old (fold lower notes.old.lowest (if is_right then [] else wrong line fault.Syntax ∷ [])) }
{
    if !is_right {
        notes.note(line, Fault::Syntax);
    }
}

/// Notes a head that isn't spelled so, or whose number an earlier block has.
fn note_head(site: Site<'_>, notes: &mut Notes, head: Told) -> Result<(), Memory>
    requires within { IsToldIn site.text.now head }
    requires short { length site.text.now < 2 ^ 32 - 1 }
    ensures { OnOk result (notes.new ≡ with_lowest notes.old (fold lower notes.old.lowest (head_wrongs site.entry.text.now site.entry.tables.now site.entry.place (told_at site.entry.text.now head)))) }
{
    let number = head.head.unwrap_or(0);
    let is_first = site.tables.place(number) == site.place;
    let is_spelled = is_head_line(site.alloc, site.text, head.line)?;
    note_unless(is_spelled & is_first, notes, head.line.number);
    Ok(())
}

/// Reads a block, which becomes the last of a function that has so many in the end.
fn read_block(
    site: Site<'_>,
    count: u32,
    names: &mut Names,
    notes: &mut Notes,
    function: &mut Function,
    block: BlockLines<'_>,
) -> Result<(), Memory>
    requires head { IsToldIn site.text.now block.head }
    requires under { All (IsToldIn site.text.now) block.under.now }
    requires short { length site.text.now < 2 ^ 32 - 1 }
    requires place { site.place ≡ length function.old.blocks }
    requires within { site.place < count }
    requires count { count ≡ length site.tables.now.blocks }
    ensures { OnOk result (ReadsBlock site.entry.text.now site.entry.tables.now names.old names.new site.entry.place (section_of site.entry.text.now block.entry.head block.entry.under.now) function.old function.new notes.old notes.new) }
{
    note_head(site, notes, block.head)?;
    let mut body = Body::new(site.alloc);
    body.lines(site, names, notes, block.under)?;
    add_body(site.alloc, function, site.tables, count, body)
}

/// Reads blocks one after the other.
fn read_blocks(
    alloc: Global,
    text: &[u8],
    tables: &Tables,
    names: &mut Names,
    notes: &mut Notes,
    function: &mut Function,
    told: &[Told],
) -> Result<(), Memory>
    requires told { All (IsToldIn text.now) told.now }
    requires headed { (blocks_of text.now told.now).before ≡ [] }
    requires numbered { tables.now.blocks ≡ block_numbers text.now (blocks_of text.now told.now).sections }
    requires empty { function.old.blocks ≡ [] }
    requires short { length text.now < 2 ^ 32 - 1 }
    ensures { OnOk result (ReadsBlocks text.now tables.now names.old names.new (blocks_of text.now told.now).sections function.old function.new notes.old notes.new) }
{
    let count = tables.blocks.count()?;
    let mut rest = told;
    while let Some((block, later)) = next_block(rest) {
        let place = function.block_count();
        let site = Site {
            alloc,
            text,
            tables,
            place,
        };
        read_block(site, count, names, notes, function, block)?;
        rest = later;
    }
    Ok(())
}

/// Reads the blocks of a function from the lines under `body`, and notes what is wrong with them.
pub(crate) fn blocks(
    alloc: Global,
    text: &[u8],
    names: &mut Names,
    function: &mut Function,
    classes: Classes,
    objects: u32,
    lines: &[Line],
    lowest: &mut Lowest,
) -> Result<(), Memory>
    requires lines { All (IsLineIn text.now) lines.now }
    requires short { length text.now < 2 ^ 32 - 1 }
    requires empty { function.old.blocks ≡ [] }
    ensures { OnOk result (BlocksAreRead text.now (tables_in text.now classes objects (blocks_in text.now (lines_at text.now lines.now))) (blocks_in text.now (lines_at text.now lines.now))
        names.old names.new function.old function.new lowest.old lowest.new) }
{
    let told = told_lines(alloc, text, lines)?;
    let told = told.as_slice();
    let blocks = numbers_of(alloc, told)?;
    let tables = Tables {
        classes,
        blocks,
        objects,
    };
    let (outer, rest) = cut_at_block(told);
    let mut notes = Notes::new(alloc, *lowest);
    note_outers(alloc, text, &mut notes, outer)?;
    read_blocks(alloc, text, &tables, names, &mut notes, function, rest)?;
    *lowest = notes.lowest();
    Ok(())
}
