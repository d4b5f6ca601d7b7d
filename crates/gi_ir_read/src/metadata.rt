//! The metadata at the end of a line.

ghost use Rattle.std.specs.Prelude.{◌≡◌, ◌≤◌, ◌<◌, ◌+◌, ◌^◌, ◌∷◌, Some, None, reverse, drop, take, length, if◌then◌else◌, IfOk, OnOk};
ghost use Rattle.std.specs.Prelude.{List, []};
ghost use Rattle.gi_ir_spelling.specs.declared.token.Mark.{Mark as MarkData};
ghost use Rattle.gi_ir_read.specs.Groups.{outcome};
ghost use Rattle.gi_ir_spelling.specs.Reading.{begins_metadata, closer_of, closes, depth_behind, is_metadata, is_tail, may_begin_tail, tail_behind, tail_inside, tail_outside, without_metadata};

use crate::choose::is_mark;
use gi_ir_spelling::token::{Item, Mark, What};
use gi_llt::Memory;
use std::alloc::Global;

/// Whether a token is metadata.
fn is_metadata(what: What) -> bool
    ensures { result ≡ is_metadata what }
{
    match what {
        What::Metadata => true,
        _ => false,
    }
}

/// Whether the first token is metadata.
fn begins_metadata(items: &[Item]) -> bool
    ensures { result ≡ begins_metadata items.now }
{
    match items {
        [] => false,
        [item, ..] => is_metadata(item.what),
    }
}

/// The bracket that closes what a token opens.
fn closer_of(what: What) -> Option<Mark>
    ensures { result ≡ closer_of what }
{
    match what {
        What::Mark(Mark::Open) => Some(Mark::Close),
        What::Mark(Mark::OpenSquare) => Some(Mark::CloseSquare),
        What::Mark(Mark::OpenBrace) => Some(Mark::CloseBrace),
        _ => None,
    }
}

/// Whether a token is a bracket that closes.
fn closes(what: What) -> bool
    ensures { result ≡ closes what }
{
    match what {
        What::Mark(Mark::Close | Mark::CloseSquare | Mark::CloseBrace) => true,
        _ => false,
    }
}

/// What a token does to the groups that are open.
#[derive(Clone, Copy)]
pub(crate) enum Effect {
    /// Nothing.
    Stands,
    /// It opens a group that this bracket closes.
    Opens(Mark),
    /// It closes the innermost group.
    Closes,
    /// It can't stand there.
    Wrong,
}

/// What a token does outside of groups.
fn outside(what: What, metadata_follows: bool) -> Effect
    ensures { tail_outside what metadata_follows ≡ outcome [] result }
{
    match what {
        What::Metadata => Effect::Stands,
        What::Mark(Mark::Comma) => {
            if metadata_follows {
                Effect::Stands
            } else {
                Effect::Wrong
            }
        }
        What::Mark(Mark::Open) => Effect::Opens(Mark::Close),
        What::Mark(Mark::OpenBrace) => Effect::Opens(Mark::CloseBrace),
        _ => Effect::Wrong,
    }
}

/// What a token does inside a group that this bracket closes.
fn inside(end: Mark, what: What) -> Effect
    ensures { (awaited : List MarkData) → tail_inside (closer_of what) end awaited what ≡ outcome (end ∷ awaited) result }
{
    match closer_of(what) {
        Some(inner) => Effect::Opens(inner),
        None => {
            if is_mark(end, what) {
                Effect::Closes
            } else if closes(what) {
                Effect::Wrong
            } else {
                Effect::Stands
            }
        }
    }
}

/// The tokens from a place on.
fn after(items: &[Item], place: usize) -> &[Item]
    requires { place ≤ length items.now }
    ensures { result.now ≡ drop place items.now }
{
    &items[place..]
}

/// Opens a group that this bracket closes.
fn open_group(awaited: &mut Vec<Mark>, end: Mark) -> Result<(), Memory>
    ensures { OnOk result (reverse awaited.new.items ≡ end ∷ reverse awaited.old.items) }
{
    awaited.push(end).map_err(|_| Memory)
}

/// Goes on outside of groups.
fn go_on_outside(awaited: &mut Vec<Mark>, effect: Effect) -> Result<bool, Memory>
    ensures { IfOk result (λ stands. outcome (reverse awaited.old.items) effect ≡ (if stands then Some (reverse awaited.new.items) else None)) }
{
    match effect {
        Effect::Stands => Ok(true),
        Effect::Opens(end) => {
            open_group(awaited, end)?;
            Ok(true)
        }
        Effect::Closes => {
            let _ = awaited.pop();
            Ok(true)
        }
        Effect::Wrong => Ok(false),
    }
}

/// Goes on inside a group that this bracket closes, which is taken away before.
fn go_on_inside(awaited: &mut Vec<Mark>, end: Mark, effect: Effect) -> Result<bool, Memory>
    ensures { IfOk result (λ stands. outcome (end ∷ reverse awaited.old.items) effect ≡ (if stands then Some (reverse awaited.new.items) else None)) }
{
    match effect {
        Effect::Stands => {
            open_group(awaited, end)?;
            Ok(true)
        }
        Effect::Opens(inner) => {
            open_group(awaited, end)?;
            open_group(awaited, inner)?;
            Ok(true)
        }
        Effect::Closes => Ok(true),
        Effect::Wrong => Ok(false),
    }
}

/// Goes on behind a token, and says whether it can stand there.
fn go_on(awaited: &mut Vec<Mark>, what: What, metadata_follows: bool) -> Result<bool, Memory>
    ensures { IfOk result (λ stands. tail_behind (reverse awaited.old.items) what metadata_follows ≡ (if stands then Some (reverse awaited.new.items) else None)) }
{
    match awaited.pop() {
        None => go_on_outside(awaited, outside(what, metadata_follows)),
        Some(end) => go_on_inside(awaited, end, inside(end, what)),
    }
}

/// Whether tokens are metadata at the end of a line.
fn is_tail(alloc: Global, items: &[Item]) -> Result<bool, Memory>
    ensures { IfOk result (λ is_so. is_so ≡ is_tail [] items.now) }
{
    let mut awaited = Vec::new(alloc);
    for (place, item) in items.iter().enumerate() {
        let follows = begins_metadata(after(items, place + 1));
        if !go_on(&mut awaited, item.what, follows)? {
            return Ok(false);
        }
    }
    Ok(awaited.is_empty())
}

/// How many groups are open behind a token.
fn depth_behind(depth: usize, what: What) -> usize
    requires { depth < 2 ^ 63 }
    ensures depth { result ≡ depth_behind depth what }
    ensures near { result ≤ depth + 1 }
{
    match closer_of(what) {
        Some(_) => depth + 1,
        None => {
            if closes(what) {
                depth.saturating_sub(1)
            } else {
                depth
            }
        }
    }
}

/// Whether the metadata at the end may begin with a token, where these follow.
fn may_begin_tail(depth: usize, what: What, items: &[Item]) -> bool
    ensures { result ≡ may_begin_tail depth what items.now }
{
    depth == 0 && is_mark(Mark::Comma, what) && begins_metadata(items)
}

/// How many tokens stand before the metadata at the end.
pub(crate) fn count_before(alloc: Global, items: &[Item]) -> Result<usize, Memory>
    requires { length items.now < 2 ^ 63 }
    ensures count { IfOk result (λ count. take count items.now ≡ without_metadata 0 items.now) }
    ensures within { IfOk result (λ count. count ≤ length items.now) }
{
    let mut depth = 0;
    for (place, item) in items.iter().enumerate() {
        if may_begin_tail(depth, item.what, after(items, place + 1)) {
            let is_so = is_tail(alloc, after(items, place))?;
            return Ok(if is_so { place } else { items.len() });
        }
        depth = depth_behind(depth, item.what);
    }
    Ok(items.len())
}
