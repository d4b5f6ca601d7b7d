//! Lists of ids: few in one piece of memory, many in chunks.
//!
//! Where an id comes in or goes out, all that stand behind it in its piece of memory move. So many ids stand in
//! chunks of bounded length.

ghost use Rattle.std.specs.Prelude.{◌≡◌, ◌<◌, ◌≤◌, ◌∷◌, ◌++◌, [], length, true, false, drop, insert, slice_get, ◌==◌, IfOk, OnOk, OnErr};
ghost use Rattle.std.specs.Iterator.{YieldsFirst, item_count};
ghost use Rattle.std.specs.List.Sorted.{IsPartitionedBy, IsPartitionPoint};
ghost use Rattle.gi_mir.specs.InstrLists.{last_precedes, chunk_ids, filled_ids, AreFilled, AreFilledBut, ids_left};
ghost use Rattle.gi_mir.specs.Mentions.{precedes, noted, without, IsInRank};

use crate::block::InstrId;
use crate::mentions::{is_last_before, put, take_out};
use crate::place::Place;
use gi_llt::Memory;
use std::alloc::Global;
use std::marker::Model;

/// How many ids a chunk has at most, where there is memory to split it.
const CHUNK: usize = 512;

/// How many ids a chunk begins with where more are cut into chunks.
const HALF: usize = 256;

/// Ids in one piece of memory, or in chunks.
#[derive(Drop)]
pub(crate) enum Ids {
    Few(Vec<InstrId>),
    Many(Vec<Vec<InstrId>>),
}

/// A list of ids.
#[derive(Drop)]
pub(crate) struct InstrList {
    ids: Ids,
}

impl Model for InstrList {
    ghost use Rattle.std.specs.Prelude.{List};
    ghost use Rattle.gi_mir.specs.declared.block.InstrId.{InstrId};

    ghost Value = { List InstrId };

    ghost use Rattle.gi_mir.specs.InstrLists.{all_ids, IsCut};

    ghost view = { λ a. all_ids a.ids };

    ghost invariant = { λ a. IsCut a.ids };
}

/// The ids of a list that are still to come, in order.
#[derive(Clone, Copy)]
pub struct InstrIds<'a> {
    ids: &'a [InstrId],
    chunks: &'a [Vec<InstrId>],
}

/// One id in a piece of memory of its own.
fn alone(alloc: Global, id: InstrId) -> Result<Vec<InstrId>, Memory>
    ensures { IfOk result (λ ids. ids.items ≡ id ∷ []) }
{
    let mut ids = Vec::new(alloc);
    push(&mut ids, id)?;
    Ok(ids)
}

/// These ids in a piece of memory of their own.
fn copied(alloc: Global, ids: &[InstrId]) -> Result<Vec<InstrId>, Memory>
    ensures { IfOk result (λ copy. copy.items ≡ ids.now) }
{
    let mut copy = Vec::new(alloc);
    copy.extend_from_slice(ids).map_err(|_| Memory)?;
    Ok(copy)
}

/// The ids of a chunk behind its first half.
fn behind_half(ids: &[InstrId]) -> &[InstrId]
    requires { 256 ≤ length ids.now }
    ensures { result.now ≡ drop 256 ids.now }
{
    let (_, back) = ids.split_at(HALF);
    back
}

/// How many chunks come before the one to which a place belongs.
fn chunk_at(places: &[Place], chunks: &[Vec<InstrId>], spot: Place) -> usize
    requires filled { AreFilled chunks.now }
    requires sorted { IsPartitionedBy (precedes places.now spot) (chunk_ids chunks.now) }
    ensures point { IsPartitionPoint (λ c. last_precedes (precedes places.now spot) c.items ≡ true) (λ c. last_precedes (precedes places.now spot) c.items ≡ false) chunks.now result }
    ensures bound { result ≤ length chunks.now }
{
    chunks.partition_point(|ids| is_last_before(places, ids.as_slice(), spot))
}

/// Puts an id behind others.
fn push(ids: &mut Vec<InstrId>, id: InstrId) -> Result<(), Memory>
    ensures ok { OnOk result (ids.new.items ≡ ids.old.items ++ id ∷ []) }
    ensures err { OnErr result (ids.new.items ≡ ids.old.items) }
{
    ids.push(id).map_err(|_| Memory)
}

/// Puts a chunk at a place among others.
fn insert(chunks: &mut Vec<Vec<InstrId>>, at: usize, ids: Vec<InstrId>) -> Result<(), Memory>
    requires { at ≤ length chunks.old.items }
    ensures ok { OnOk result (chunks.new.items ≡ insert chunks.old.items at ids) }
    ensures err { OnErr result (chunks.new.items ≡ chunks.old.items) }
{
    chunks.insert(at, ids).map_err(|_| Memory)
}

/// Puts a chunk behind the others.
fn push_chunk(chunks: &mut Vec<Vec<InstrId>>, ids: Vec<InstrId>) -> Result<(), Memory>
    requires filled { AreFilled chunks.old.items }
    requires some { 0 < length ids.items }
    ensures ok { OnOk result (chunk_ids chunks.new.items ≡ chunk_ids chunks.old.items ++ ids.items) }
    ensures err { OnErr result (chunk_ids chunks.new.items ≡ chunk_ids chunks.old.items) }
    ensures filled { AreFilled chunks.new.items }
{
    insert(chunks, chunks.len(), ids)?;
    Ok(())
}

/// Ids in chunks that have room for more.
fn cut(alloc: Global, ids: &[InstrId]) -> Result<Vec<Vec<InstrId>>, Memory>
    ensures ids { IfOk result (λ chunks. chunk_ids chunks.items ≡ ids.now) }
    ensures filled { IfOk result (λ chunks. AreFilled chunks.items) }
{
    let mut chunks = Vec::new(alloc);
    let mut rest = ids;
    while !rest.is_empty() {
        let (front, back) = rest.split_at(rest.len().min(HALF));
        push_chunk(&mut chunks, copied(alloc, front)?)?;
        rest = back;
    }
    Ok(chunks)
}

/// Splits a chunk in two where it is too long.
fn split_long(chunks: &mut Vec<Vec<InstrId>>, alloc: Global, at: usize) -> Result<(), Memory>
    requires within { at < length chunks.old.items }
    requires filled { AreFilled chunks.old.items }
    ensures same { chunk_ids chunks.new.items ≡ chunk_ids chunks.old.items }
    ensures filled { AreFilled chunks.new.items }
{
    if chunks[at].len() <= CHUNK {
        return Ok(());
    }
    let back = copied(alloc, behind_half(chunks[at].as_slice()))?;
    insert(chunks, at + 1, back)?;
    chunks[at].truncate(HALF);
    Ok(())
}

/// Puts an instruction behind all others.
fn put_last(chunks: &mut Vec<Vec<InstrId>>, alloc: Global, id: InstrId) -> Result<(), Memory>
    requires { AreFilled chunks.old.items }
    ensures ok { OnOk result (chunk_ids chunks.new.items ≡ chunk_ids chunks.old.items ++ id ∷ []) }
    ensures err { OnErr result (chunk_ids chunks.new.items ≡ chunk_ids chunks.old.items) }
    ensures filled { AreFilled chunks.new.items }
{
    let count = chunks.len();
    if 0 < count && chunks[count - 1].len() < CHUNK {
        push(&mut chunks[count - 1], id)?;
    } else {
        push_chunk(chunks, alone(alloc, id)?)?;
    }
    Ok(())
}

/// Adds an instruction, which stands at this place, to a list in chunks unless it is there. A chunk that is too long
/// stays whole where there is no memory to split it.
fn put_among(
    chunks: &mut Vec<Vec<InstrId>>,
    alloc: Global,
    places: &[Place],
    id: InstrId,
    spot: Place,
) -> Result<(), Memory>
    requires filled { AreFilled chunks.old.items }
    requires sorted { IsPartitionedBy (precedes places.now spot) (chunk_ids chunks.old.items) }
    ensures ok { OnOk result (chunk_ids chunks.new.items ≡ noted (precedes places.now spot) id (chunk_ids chunks.old.items)) }
    ensures err { OnErr result (chunk_ids chunks.new.items ≡ chunk_ids chunks.old.items) }
    ensures filled { AreFilled chunks.new.items }
{
    let at = chunk_at(places, chunks.as_slice(), spot);
    if at < chunks.len() {
        put(&mut chunks[at], places, id, spot)?;
        let _ = split_long(chunks, alloc, at);
    } else {
        put_last(chunks, alloc, id)?;
    }
    Ok(())
}

/// Takes a chunk out where it has no id.
fn drop_empty(chunks: &mut Vec<Vec<InstrId>>, at: usize)
    requires within { at < length chunks.old.items }
    ensures same { chunk_ids chunks.new.items ≡ chunk_ids chunks.old.items }
    ensures filled { AreFilledBut at chunks.old.items → AreFilled chunks.new.items }
{
    if chunks[at].is_empty() {
        chunks.remove(at);
    }
}

/// Takes an instruction, which stands at this place, out of a list in chunks if it is there.
fn take_out_among(chunks: &mut Vec<Vec<InstrId>>, places: &[Place], id: InstrId, spot: Place)
    requires filled { AreFilled chunks.old.items }
    requires ranked { IsInRank (precedes places.now spot) id (chunk_ids chunks.old.items) }
    ensures ids { chunk_ids chunks.new.items ≡ without id (chunk_ids chunks.old.items) }
    ensures filled { AreFilled chunks.new.items }
{
    let at = chunk_at(places, chunks.as_slice(), spot);
    if at < chunks.len() {
        take_out(&mut chunks[at], places, id, spot);
        drop_empty(chunks, at);
    }
}

impl InstrList {
    /// No id.
    pub(crate) fn new(alloc: Global) -> InstrList
        ensures { result ≡ [] }
    {
        InstrList {
            ids: Ids::Few(Vec::new(alloc)),
        }
    }

    /// One id.
    pub(crate) fn one(alloc: Global, id: InstrId) -> Result<InstrList, Memory>
        ensures { IfOk result (λ list. list ≡ id ∷ []) }
    {
        Ok(InstrList {
            ids: Ids::Few(alone(alloc, id)?),
        })
    }

    /// These ids.
    pub(crate) fn from_ids(alloc: Global, ids: Vec<InstrId>) -> Result<InstrList, Memory>
        ensures { IfOk result (λ list. list ≡ ids.items) }
    {
        if ids.len() <= CHUNK {
            return Ok(InstrList { ids: Ids::Few(ids) });
        }
        Ok(InstrList {
            ids: Ids::Many(cut(alloc, ids.as_slice())?),
        })
    }

    /// The ids in order.
    pub(crate) fn ids(&self) -> InstrIds<'_>
        ensures { ids_left result ≡ self.now }
    {
        match &self.ids {
            Ids::Few(ids) => InstrIds::new(ids.as_slice(), &[]),
            Ids::Many(chunks) => InstrIds::new(&[], chunks.as_slice()),
        }
    }

    /// Cuts ids into chunks where they are too many for one. Without memory for it they stay in one.
    fn cut_long(&mut self, alloc: Global)
        ensures { self.new ≡ self.old }
    {
        if let Ids::Few(ids) = &self.ids {
            if CHUNK < ids.len() {
                if let Ok(chunks) = cut(alloc, ids.as_slice()) {
                    self.ids = Ids::Many(chunks);
                }
            }
        }
    }

    /// Adds an instruction, which stands at this place, unless it is there.
    pub(crate) fn put(
        &mut self,
        alloc: Global,
        places: &[Place],
        id: InstrId,
        spot: Place,
    ) -> Result<(), Memory>
        requires { IsPartitionedBy (precedes places.now spot) self.old }
        ensures ok { OnOk result (self.new ≡ noted (precedes places.now spot) id self.old) }
        ensures err { OnErr result (self.new ≡ self.old) }
    {
        match &mut self.ids {
            Ids::Few(ids) => put(ids, places, id, spot)?,
            Ids::Many(chunks) => put_among(chunks, alloc, places, id, spot)?,
        }
        self.cut_long(alloc);
        Ok(())
    }

    /// Takes an instruction, which stands at this place, out if it is there.
    pub(crate) fn take_out(&mut self, places: &[Place], id: InstrId, spot: Place)
        requires { IsInRank (precedes places.now spot) id self.old }
        ensures { self.new ≡ without id self.old }
    {
        match &mut self.ids {
            Ids::Few(ids) => take_out(ids, places, id, spot),
            Ids::Many(chunks) => take_out_among(chunks, places, id, spot),
        }
    }
}

impl<'a> InstrIds<'a> {
    /// Those of a piece of memory, and of chunks behind it up to one without ids.
    fn new(ids: &'a [InstrId], chunks: &'a [Vec<InstrId>]) -> InstrIds<'a>
        ensures { ids_left result ≡ ids.entry.now ++ filled_ids chunks.entry.now }
    {
        InstrIds { ids, chunks }
    }

    /// No id.
    pub(crate) fn none() -> InstrIds<'a>
        ensures { ids_left result ≡ [] }
    {
        InstrIds::new(&[], &[])
    }

    /// The first of them.
    pub fn first(self) -> Option<InstrId>
        ensures { result ≡ slice_get (ids_left self.entry) 0 }
    {
        let mut ids = self;
        ids.next()
    }

    /// Whether there is none.
    pub fn is_empty(self) -> bool
        ensures { result ≡ (length (ids_left self.entry) == 0) }
    {
        self.first().is_none()
    }

    /// A copy in one piece of memory.
    pub(crate) fn copied(self, alloc: Global) -> Result<Vec<InstrId>, Memory>
        ensures { IfOk result (λ ids. ids.items ≡ ids_left self.entry) }
    {
        let mut ids = Vec::new(alloc);
        for id in self {
            push(&mut ids, id)?;
        }
        Ok(ids)
    }
}

impl<'a> Iterator for InstrIds<'a> {
    type Item = InstrId;

    ghost next_gives = { YieldsFirst ids_left };

    ghost remaining = { item_count ids_left };

    fn next(&mut self) -> Option<InstrId> {
        if let Some((id, rest)) = self.ids.split_first() {
            self.ids = rest;
            return Some(*id);
        }
        let (chunk, chunks) = self.chunks.split_first()?;
        let (id, rest) = chunk.as_slice().split_first()?;
        self.ids = rest;
        self.chunks = chunks;
        Some(*id)
    }
}
