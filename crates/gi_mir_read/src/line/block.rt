//! The lines at the head of a block.

ghost use Rattle.std.specs.Prelude.{◌≡◌, Ok, Some, IfOk, IfErr};
ghost use Rattle.gi_spelling.specs.Blocks.{ends_head, head_in, is_colon_alone, is_head, list_kind_in, listed_in, past_attributes, read_block, read_livein, read_liveins, read_successors};
ghost use Rattle.gi_spelling.specs.Reading.{parts_of, read_all};
ghost use Rattle.gi_mir_read.specs.Lines.Stops.{IsFault};

use crate::line::faults::at_end;
use crate::line::kept::from_place;
use crate::line::split::Parts;
use crate::line::stop::Stop;
use crate::list::push;
use gi_spelling::token::{Item, What, Word};
use gi_spelling::written::{Fault, ListKind};
use std::alloc::Global;

/// The number of the block that a line begins.
pub(crate) fn head_number(items: &[Item]) -> Option<u32>
    ensures { result ≡ head_in (Some items.now) }
{
    match items {
        [] => None,
        [first, ..] => match first.what {
            What::Word(Word::BlockHead(number)) => Some(number),
            _ => None,
        },
    }
}

/// What stands behind the closing bracket of the attributes.
fn past_attributes(items: &[Item]) -> &[Item]
    ensures { result.now ≡ past_attributes items.now }
{
    for (place, item) in items.iter().enumerate() {
        if matches!(item.what, What::Close) {
            return from_place(items, place + 1);
        }
    }
    from_place(items, items.len())
}

/// A colon and nothing more.
fn is_colon_alone(items: &[Item]) -> bool
    ensures { result ≡ is_colon_alone items.now }
{
    match items {
        [colon] => matches!(colon.what, What::Colon),
        _ => false,
    }
}

/// A colon, before which attributes in brackets may stand.
fn ends_head(items: &[Item]) -> bool
    ensures { result ≡ ends_head items.now }
{
    match items {
        [] => false,
        [first, rest @ ..] => match first.what {
            What::Open => is_colon_alone(past_attributes(rest)),
            _ => is_colon_alone(items),
        },
    }
}

/// Whether the head of a block is spelled so.
pub(crate) fn is_head(items: &[Item]) -> bool
    ensures { result ≡ is_head (Some items.now) }
{
    match items {
        [] => false,
        [_, rest @ ..] => ends_head(rest),
    }
}

/// The list that a line states.
pub(crate) fn list_kind(items: &[Item]) -> Option<ListKind>
    ensures { result ≡ list_kind_in (Some items.now) }
{
    match items {
        [] | [_] => None,
        [first, second, ..] => match second.what {
            What::Colon => match first.what {
                What::Word(Word::Successors) => Some(ListKind::Successors),
                What::Word(Word::Liveins) => Some(ListKind::Liveins),
                _ => None,
            },
            _ => None,
        },
    }
}

/// What stands behind the colon of a list.
pub(crate) fn listed(items: &[Item]) -> &[Item]
    ensures { result.now ≡ listed_in (Some items.now) }
{
    match items {
        [_, _, rest @ ..] => rest,
        _ => from_place(items, items.len()),
    }
}

/// A block of a list.
fn read_block(items: &[Item]) -> Result<u32, Fault>
    ensures { result ≡ read_block items.now }
{
    match items {
        [] => Err(Fault::Syntax),
        [first, rest @ ..] => match first.what {
            What::Block(number) => at_end(number, rest),
            _ => Err(Fault::Syntax),
        },
    }
}

/// A register of a list.
fn read_livein(items: &[Item]) -> Result<u8, Fault>
    ensures { result ≡ read_livein items.now }
{
    match items {
        [] => Err(Fault::Syntax),
        [first, rest @ ..] => match first.what {
            What::Physical(number) => at_end(number, rest),
            _ => Err(Fault::Syntax),
        },
    }
}

/// The blocks between commas.
fn read_blocks(alloc: Global, items: &[Item]) -> Result<Vec<u32>, Stop>
    ensures ok { IfOk result (λ found. read_all read_block (parts_of items.now) ≡ Ok found.items) }
    ensures fault { IfErr result (IsFault (read_all read_block (parts_of items.now))) }
{
    let mut found = Vec::new(alloc);
    let mut parts = Parts::of(items);
    while let Some(part) = parts.next() {
        push(&mut found, read_block(part)?)?;
    }
    Ok(found)
}

/// The successors that a block states, by their numbers: none or several.
pub(crate) fn successors(alloc: Global, items: &[Item]) -> Result<Vec<u32>, Stop>
    ensures ok { IfOk result (λ found. read_successors items.now ≡ Ok found.items) }
    ensures fault { IfErr result (IsFault (read_successors items.now)) }
{
    match items {
        [] => Ok(Vec::new(alloc)),
        _ => read_blocks(alloc, items),
    }
}

/// The registers that are live at the start of a block, of which there is one at least.
pub(crate) fn liveins(alloc: Global, items: &[Item]) -> Result<Vec<u8>, Stop>
    ensures ok { IfOk result (λ found. read_liveins items.now ≡ Ok found.items) }
    ensures fault { IfErr result (IsFault (read_liveins items.now)) }
{
    let mut found = Vec::new(alloc);
    let mut parts = Parts::of(items);
    while let Some(part) = parts.next() {
        push(&mut found, read_livein(part)?)?;
    }
    Ok(found)
}
