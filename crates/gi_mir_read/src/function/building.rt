//! A block that has been read becomes the last of its function.

ghost use Rattle.std.specs.Prelude.{◌≡◌, ◌<◌, fold, length, option_map, IfOk, OnOk};
ghost use Rattle.gi_spelling.specs.Documents.{with_body, with_last};
ghost use Rattle.gi_mir_read.specs.Functions.Bodies.{AreFormed, spelled_by};
ghost use Rattle.gi_mir_read.specs.Functions.Implied.{head_by, successors_by};

use crate::function::body::{Body, Lists};
use crate::function::successors::{implied_successors, stated_successors};
use gi_llt::Memory;
use gi_mir::block::Block;
use gi_mir::function::Function;
use gi_mir::instr::Instr;
use gi_resolve::tables::Tables;
use std::alloc::Global;

/// Puts instructions at the end of a block.
fn insert_all(function: &mut Function, place: u32, instrs: Vec<Instr>) -> Result<(), Memory>
    requires within { place < length function.old.blocks }
    requires formed { AreFormed instrs.items }
    ensures { OnOk result (function.new ≡ fold (with_last place) function.old instrs.items) }
{
    for instr in instrs {
        function.insert_before(place, None, instr)?;
    }
    Ok(())
}

/// The successors of a block: those that it states, or else those that its instructions imply.
fn successors_of(
    alloc: Global,
    tables: &Tables,
    place: u32,
    count: u32,
    stated: Option<Vec<u32>>,
    instrs: &[Instr],
) -> Result<Vec<u32>, Memory>
    requires within { place < count }
    requires count { count ≡ length tables.now.blocks }
    ensures { IfOk result (λ places. places.items ≡ successors_by tables.now.blocks place (option_map (λ numbers. numbers.items) stated) instrs.now) }
{
    match stated {
        Some(numbers) => stated_successors(alloc, tables, numbers.as_slice()),
        None => implied_successors(alloc, place, count, instrs),
    }
}

/// A block without its instructions.
fn head(
    alloc: Global,
    tables: &Tables,
    place: u32,
    count: u32,
    lists: Lists,
    instrs: &[Instr],
) -> Result<Block, Memory>
    requires within { place < count }
    requires count { count ≡ length tables.now.blocks }
    ensures { IfOk result (λ head. head ≡ head_by tables.now.blocks place lists instrs.now) }
{
    let Lists {
        successors,
        liveins,
    } = lists;
    let successors = successors_of(alloc, tables, place, count, successors, instrs)?;
    let liveins = liveins.unwrap_or(Vec::new(alloc));
    Ok(Block {
        successors,
        liveins,
    })
}

/// Makes a block that has been read the last of a function that has so many in the end.
pub(crate) fn add_body(
    alloc: Global,
    function: &mut Function,
    tables: &Tables,
    count: u32,
    body: Body,
) -> Result<(), Memory>
    requires within { length function.old.blocks < count }
    requires count { count ≡ length tables.now.blocks }
    ensures { OnOk result (function.new ≡ with_body tables.now.blocks function.old (spelled_by body)) }
{
    let Body { lists, instrs, .. } = body;
    let place = function.block_count();
    let head = head(alloc, tables, place, count, lists, instrs.as_slice())?;
    function.add_block(head)?;
    insert_all(function, place, instrs)
}
