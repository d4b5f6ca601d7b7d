//! Blocks that are named: that they are there, and the entries of phis.

ghost use Rattle.std.specs.Prelude.{◌≡◌, ◌++◌, ◌∷◌, ◌<◌, [], ℕ, Some, None, OnOk, IfOk, find, length, nat_lt, not, option_map, ◌==◌};
ghost use Rattle.std.specs.List.{list_all, list_any};
ghost use Rattle.gi_meaning.specs.Runs.{entry_of, is_among};
ghost use Rattle.gi_valid.specs.Faults as faults;
ghost use Rattle.gi_verify.specs.Counted.{AreTallied};

use crate::definitions::Counted;
use gi_llt::Memory;
use gi_mir::function::Function;
use gi_mir::operand::Operand;
use gi_valid::Invalid;
use std::alloc::Global;

/// Puts a block at the end of a list.
fn push(blocks: &mut Vec<u32>, b: u32) -> Result<(), Memory>
    ensures { OnOk result (blocks.new.items ≡ blocks.old.items ++ b ∷ []) }
{
    match blocks.push(b) {
        Ok(()) => Ok(()),
        Err(_) => Err(Memory),
    }
}

/// Puts the block of an operand at the end of a list, if it is one.
fn push_block(blocks: &mut Vec<u32>, operand: Operand) -> Result<(), Memory>
    ensures { OnOk result (blocks.new.items ≡ blocks.old.items ++ faults.blocks_in (operand ∷ [])) }
{
    match operand {
        Operand::Block(b) => push(blocks, b),
        _ => Ok(()),
    }
}

/// The blocks among operands.
pub(crate) fn blocks_in(alloc: Global, operands: &[Operand]) -> Result<Vec<u32>, Memory>
    ensures { IfOk result (λ blocks. blocks.items ≡ faults.blocks_in operands.now) }
{
    let mut blocks = Vec::new(alloc);
    for operand in operands {
        push_block(&mut blocks, *operand)?;
    }
    Ok(blocks)
}

/// The first of these blocks past a count.
fn first_past(count: u32, blocks: &[u32]) -> Option<u32>
    ensures { result ≡ find (λ b. not (nat_lt b count)) blocks.now }
{
    blocks.iter().copied().find(|b| !(*b < count))
}

/// The first of these blocks that isn't there.
pub(crate) fn unknown_among(function: &Function, blocks: &[u32]) -> Option<Invalid>
    ensures { result ≡ faults.unknown_among function.now blocks.now }
{
    match first_past(function.block_count(), blocks) {
        Some(b) => Some(Invalid::UnknownBlock(b)),
        None => None,
    }
}

/// How often each block is in a list.
fn tally(alloc: Global, list: &[u32]) -> Result<Counted, Memory>
    ensures { IfOk result (λ kept. AreTallied list.now kept) }
{
    let mut kept = Counted::new(alloc);
    for b in list {
        kept.count_one(*b)?;
    }
    Ok(kept)
}

/// Whether all blocks are among others.
fn are_listed(blocks: &[u32], list: &[u32], kept: &Counted) -> bool
    requires { AreTallied list.now kept.now }
    ensures { result ≡ list_all (λ b. is_among b list.now) blocks.now }
{
    for b in blocks {
        if !kept.has(list, *b) {
            return false;
        }
    }
    true
}

/// Whether a list has each of these blocks once.
fn have_once(blocks: &[u32], list: &[u32], kept: &Counted) -> bool
    requires { AreTallied list.now kept.now }
    ensures { result ≡ list_all (λ b. faults.count_of b list.now == 1) blocks.now }
{
    for b in blocks {
        if !kept.has_once(list, *b) {
            return false;
        }
    }
    true
}

/// Whether a list has each of these blocks once.
fn have_each_once(alloc: Global, blocks: &[u32], list: &[u32]) -> Result<bool, Memory>
    ensures { IfOk result (λ t. t ≡ list_all (λ b. faults.count_of b list.now == 1) blocks.now) }
{
    let kept = tally(alloc, list)?;
    Ok(have_once(blocks, list, &kept))
}

/// Whether all blocks are among others.
fn are_all_listed(alloc: Global, blocks: &[u32], list: &[u32]) -> Result<bool, Memory>
    ensures { IfOk result (λ t. t ≡ list_all (λ b. is_among b list.now) blocks.now) }
{
    let kept = tally(alloc, list)?;
    Ok(are_listed(blocks, list, &kept))
}

/// Whether the entries of a phi are one for each predecessor.
pub(crate) fn are_entries(
    alloc: Global,
    predecessors: &[u32],
    entries: &[u32],
) -> Result<bool, Memory>
    ensures { IfOk result (λ t. t ≡ faults.are_entries predecessors.now entries.now) }
{
    if have_each_once(alloc, predecessors, entries)? {
        are_all_listed(alloc, entries, predecessors)
    } else {
        Ok(false)
    }
}

/// A register and the block that it comes from, where operands begin with the two.
pub(crate) fn entry_of(operands: &[Operand]) -> Option<(u32, u32)>
    ensures { result ≡ entry_of operands.now }
{
    match operands {
        [first, second, ..] => entry_of_two(*first, *second),
        _ => None,
    }
}

/// The register and the block of two operands.
fn entry_of_two(first: Operand, second: Operand) -> Option<(u32, u32)>
    ensures { result ≡ entry_of (first ∷ second ∷ []) }
{
    if let Operand::Use(r) = first {
        if let Operand::Block(b) = second {
            return Some((r.0, b));
        }
    }
    None
}
