//! Which instructions mention a register: which define it, and which use it, in layout order.

ghost use Rattle.std.specs.Prelude.{◌≡◌, ◌≢◌, ℕ, ◌+◌, [], ◌∷◌, ◌++◌, ◌<◌, ◌≤◌, length, drop, insert, slice_get, slice_index_or, None, ◌/◌, ◌-◌, true, false, IfOk, OnOk, OnErr};
ghost use Rattle.std.specs.List.{list_any};
ghost use Rattle.std.specs.BTreeMap.{get};
ghost use Rattle.std.specs.Ordering.{nat_cmp};
ghost use Rattle.std.specs.List.Sorted.{IsPartitionedBy, IsPartitionPoint};
ghost use Rattle.gi_mir.specs.declared.block.InstrId.{InstrId};
ghost use Rattle.gi_mir.specs.InstrLists.{ids_left, last_precedes};
ghost use Rattle.gi_mir.specs.Mentions.{definition_key, use_key, mention_of, is_mention, precedes, has_at, noted, without, listed, IsInRank, stands_before, merged, IsListed, HasSameLists, IsSorted, AreInRank, Lacks, IsNoted, IsForgotten, AreUsersMoved};

use crate::block::InstrId;
use crate::instr_list::{InstrIds, InstrList};
use crate::operand::{Operand, Reg};
use crate::page::{PAGE, Page};
use crate::place::Place;
use gi_llt::Memory;
use std::alloc::Global;
use std::collections::BTreeMap;

/// The instructions that mention each register, in layout order, each once. A register's definitions and its
/// uses have a key each.
#[derive(Drop)]
pub(crate) struct Mentions {
    alloc: Global,
    pages: BTreeMap<u64, Page>,
}

/// The key of the definitions of a register.
pub(crate) fn definition_key(reg: Reg) -> u64
    ensures { result ≡ definition_key reg.0 }
{
    2 * reg.0 as u64
}

/// The key of the uses of a register.
pub(crate) fn use_key(reg: Reg) -> u64
    ensures { result ≡ use_key reg.0 }
{
    2 * reg.0 as u64 + 1
}

impl Operand {
    /// The key under which the instruction of this operand is listed.
    pub(crate) fn mention(self) -> Option<u64>
        ensures { result ≡ mention_of self }
    {
        match self {
            Operand::Def(reg, _) => Some(definition_key(reg)),
            Operand::Use(reg) => Some(use_key(reg)),
            _ => None,
        }
    }
}

/// Whether an operand is listed under a key.
fn is_mention(x: Operand, key: u64) -> bool
    ensures { result ≡ is_mention key x }
{
    match x.mention() {
        Some(mentioned) => mentioned == key,
        None => false,
    }
}

/// Whether one of the operands is listed under a key.
pub(crate) fn any_mentions(operands: &[Operand], key: u64) -> bool
    ensures { result ≡ list_any (is_mention key) operands.now }
{
    operands.iter().any(|x| is_mention(*x, key))
}

/// Whether the place of an instruction comes before another.
fn precedes(places: &[Place], id: InstrId, spot: Place) -> bool
    ensures { result ≡ precedes places.now spot id }
{
    match places.get(id.0).copied() {
        Some(place) => place.is_before(spot),
        None => false,
    }
}

/// Whether the last instruction of a list stands before a place. It does where instructions come in layout order.
#[tactic(auto, using(crate::proofs::Paged::last_precedes_none, crate::proofs::Paged::last_precedes_some))]
pub(crate) fn is_last_before(places: &[Place], ids: &[InstrId], spot: Place) -> bool
    ensures { result ≡ last_precedes (precedes places.now spot) ids.now }
{
    let count = ids.len();
    0 < count && precedes(places, ids[count - 1], spot)
}

/// How many instructions of a list stand before a place.
#[tactic(auto, using(crate::proofs::Paged::all_before))]
fn rank(places: &[Place], ids: &[InstrId], spot: Place) -> usize
    requires { IsPartitionedBy (precedes places.now spot) ids.now }
    ensures point { IsPartitionPoint (λ id. precedes places.now spot id ≡ true) (λ id. precedes places.now spot id ≡ false) ids.now result }
    ensures bound { result ≤ length ids.now }
{
    if is_last_before(places, ids, spot) {
        ids.len()
    } else {
        ids.partition_point(|id| precedes(places, *id, spot))
    }
}

/// Whether a list has an instruction at this index.
fn has_at(ids: &[InstrId], at: usize, id: InstrId) -> bool
    ensures { result ≡ has_at ids.now at id }
{
    match ids.get(at) {
        Some(there) => there.0 == id.0,
        None => false,
    }
}

/// Puts an instruction into a list.
fn insert(ids: &mut Vec<InstrId>, at: usize, id: InstrId) -> Result<(), Memory>
    requires { at ≤ length ids.old.items }
    ensures ok { OnOk result (ids.new.items ≡ insert ids.old.items at id) }
    ensures err { OnErr result (ids.new.items ≡ ids.old.items) }
{
    ids.insert(at, id).map_err(|_| Memory)
}

/// Adds an instruction, which stands at this place, to a list unless it is there.
pub(crate) fn put(
    ids: &mut Vec<InstrId>,
    places: &[Place],
    id: InstrId,
    spot: Place,
) -> Result<(), Memory>
    requires { IsPartitionedBy (precedes places.now spot) ids.old.items }
    ensures ok { OnOk result (ids.new.items ≡ noted (precedes places.now spot) id ids.old.items) }
    ensures err { OnErr result (ids.new.items ≡ ids.old.items) }
{
    let at = rank(places, ids.as_slice(), spot);
    if has_at(ids.as_slice(), at, id) {
        Ok(())
    } else {
        insert(ids, at, id)
    }
}

/// Takes an instruction, which stands at this place, out of a list if it is there.
pub(crate) fn take_out(ids: &mut Vec<InstrId>, places: &[Place], id: InstrId, spot: Place)
    requires { IsInRank (precedes places.now spot) id ids.old.items }
    ensures { ids.new.items ≡ without id ids.old.items }
{
    let at = rank(places, ids.as_slice(), spot);
    if has_at(ids.as_slice(), at, id) {
        ids.remove(at);
    }
}

/// Whether the place of an instruction comes before that of another.
fn stands_before(places: &[Place], id: InstrId, other: InstrId) -> bool
    ensures { result ≡ stands_before places.now id other }
{
    match places.get(other.0).copied() {
        Some(spot) => precedes(places, id, spot),
        None => false,
    }
}

/// How far a merge of two lists has come in each.
#[derive(Clone, Copy)]
struct Heads {
    left: usize,
    right: usize,
}

impl Heads {
    fn new(left: usize, right: usize) -> Heads
        ensures left { result.left ≡ left }
        ensures right { result.right ≡ right }
    {
        Heads { left, right }
    }
}

/// The next id of a merge of two lists, and how far it has come then.
fn next_merged(places: &[Place], xs: &[InstrId], ys: &[InstrId], at: Heads) -> (InstrId, Heads)
    requires left { at.left < length xs.now }
    requires right { at.right < length ys.now }
    ensures next { merged (stands_before places.now) (drop at.left xs.now) (drop at.right ys.now) ≡ result.0 ∷ merged (stands_before places.now) (drop result.1.left xs.now) (drop result.1.right ys.now) }
    ensures within { (result.1.left ≤ length xs.now) × (result.1.right ≤ length ys.now) }
    ensures further { at.left + at.right < result.1.left + result.1.right }
{
    let Heads { left, right } = at;
    let x = xs[left];
    let y = ys[right];
    if stands_before(places, y, x) {
        (y, Heads::new(left, right + 1))
    } else if y.0 == x.0 {
        (x, Heads::new(left + 1, right + 1))
    } else {
        (x, Heads::new(left + 1, right))
    }
}

/// Adds the rest of a list behind another.
fn append(ids: &mut Vec<InstrId>, more: &[InstrId]) -> Result<(), Memory>
    ensures { OnOk result (ids.new.items ≡ ids.old.items ++ more.now) }
{
    ids.extend_from_slice(more).map_err(|_| Memory)
}

/// The ids of two lists in layout order, each once.
fn merge(
    alloc: Global,
    places: &[Place],
    xs: &[InstrId],
    ys: &[InstrId],
) -> Result<Vec<InstrId>, Memory>
    ensures { IfOk result (λ ids. ids.items ≡ merged (stands_before places.now) xs.now ys.now) }
{
    let mut ids = Vec::new(alloc);
    let mut at = Heads::new(0, 0);
    while at.left < xs.len() && at.right < ys.len() {
        let (id, next) = next_merged(places, xs, ys, at);
        ids.push(id).map_err(|_| Memory)?;
        at = next;
    }
    append(&mut ids, &xs[at.left..])?;
    append(&mut ids, &ys[at.right..])?;
    Ok(ids)
}

impl Mentions {
    /// No mention.
    pub(crate) fn new(alloc: Global) -> Mentions
        ensures { (key : ℕ) → listed result key ≡ [] }
    {
        Mentions {
            alloc,
            pages: BTreeMap::new(alloc),
        }
    }

    /// The instructions that are listed under a key.
    pub(crate) fn of(&self, key: u64) -> InstrIds<'_>
        ensures { ids_left result ≡ listed self.now key }
    {
        match self.pages.get(&(key / PAGE)) {
            Some(page) => page.at((key % PAGE) as usize),
            None => InstrIds::none(),
        }
    }

    /// Puts a page in on which there is one list, where there was no page.
    fn put_page(&mut self, key: u64, ids: InstrList) -> Result<(), Memory>
        requires { get nat_cmp self.old.pages (key / 128) ≡ None }
        ensures ok { OnOk result (IsListed self.old self.new key ids) }
        ensures err { OnErr result (HasSameLists self.old self.new) }
    {
        let mut page = Page::new(self.alloc);
        page.set(self.alloc, (key % PAGE) as usize, ids)?;
        self.pages.insert(key / PAGE, page).map_err(|_| Memory)?;
        Ok(())
    }

    /// Puts a list under a key.
    fn set(&mut self, key: u64, ids: InstrList) -> Result<(), Memory>
        ensures ok { OnOk result (IsListed self.old self.new key ids) }
        ensures err { OnErr result (HasSameLists self.old self.new) }
    {
        match self.pages.get_mut(&(key / PAGE)) {
            Some(page) => page.set(self.alloc, (key % PAGE) as usize, ids),
            None => self.put_page(key, ids),
        }
    }

    /// Takes all instructions out of the list under a key.
    fn clear(&mut self, key: u64)
        ensures { IsListed self.old self.new key [] }
    {
        if let Some(page) = self.pages.get_mut(&(key / PAGE)) {
            page.clear(self.alloc, (key % PAGE) as usize);
        }
    }

    /// Begins a page with one instruction.
    fn begin(&mut self, key: u64, id: InstrId) -> Result<(), Memory>
        requires { get nat_cmp self.old.pages (key / 128) ≡ None }
        ensures ok { OnOk result (IsListed self.old self.new key (id ∷ [])) }
        ensures err { OnErr result (HasSameLists self.old self.new) }
    {
        let ids = InstrList::one(self.alloc, id)?;
        self.put_page(key, ids)
    }

    /// Lists an instruction, which stands at this place, under a key unless it is there.
    fn note(&mut self, places: &[Place], key: u64, id: InstrId, spot: Place) -> Result<(), Memory>
        requires { IsPartitionedBy (precedes places.now spot) (listed self.old key) }
        ensures ok { OnOk result (IsListed self.old self.new key (noted (precedes places.now spot) id (listed self.old key))) }
        ensures err { OnErr result (HasSameLists self.old self.new) }
    {
        match self.pages.get_mut(&(key / PAGE)) {
            Some(page) => page.note(self.alloc, places, (key % PAGE) as usize, id, spot),
            None => self.begin(key, id),
        }
    }

    /// Takes an instruction, which stands at this place, out of the list under a key.
    fn forget(&mut self, places: &[Place], key: u64, id: InstrId, spot: Place)
        requires { IsInRank (precedes places.now spot) id (listed self.old key) }
        ensures { IsListed self.old self.new key (without id (listed self.old key)) }
    {
        if let Some(page) = self.pages.get_mut(&(key / PAGE)) {
            page.forget(places, (key % PAGE) as usize, id, spot);
        }
    }

    /// Lists an instruction under the key that an operand mentions.
    pub(crate) fn note_operand(
        &mut self,
        places: &[Place],
        operand: Operand,
        id: InstrId,
        spot: Place,
    ) -> Result<(), Memory>
        requires { IsSorted places.now spot self.old }
        ensures ok { OnOk result (IsNoted self.old self.new (precedes places.now spot) (operand ∷ []) id) }
        ensures err { OnErr result (HasSameLists self.old self.new) }
    {
        match operand.mention() {
            Some(key) => self.note(places, key, id, spot),
            None => Ok(()),
        }
    }

    /// Takes an instruction, which stands at this place, out of the list under the key that an operand mentions.
    pub(crate) fn forget_operand(
        &mut self,
        places: &[Place],
        operand: Operand,
        id: InstrId,
        spot: Place,
    )
        requires { AreInRank places.now spot id self.old }
        ensures { IsForgotten self.old self.new (operand ∷ []) id }
    {
        if let Some(key) = operand.mention() {
            self.forget(places, key, id, spot);
        }
    }

    /// Lists a new instruction under the keys that its operands mention. Where memory runs out, the lists are
    /// as they were.
    pub(crate) fn note_all(
        &mut self,
        places: &[Place],
        operands: &[Operand],
        id: InstrId,
        spot: Place,
    ) -> Result<(), Memory>
        requires sorted { IsSorted places.now spot self.old }
        requires fresh { Lacks self.old id }
        requires own { precedes places.now spot id ≡ false }
        ensures ok { OnOk result (IsNoted self.old self.new (precedes places.now spot) operands.now id) }
        ensures err { OnErr result (HasSameLists self.old self.new) }
    {
        for x in operands {
            match self.note_operand(places, *x, id, spot) {
                Ok(()) => {}
                Err(_) => {
                    self.forget_all(places, operands, id, spot);
                    return Err(Memory);
                }
            }
        }
        Ok(())
    }

    /// Lists the users of a register as users of another, and answers them. Where memory runs out, the lists are
    /// as they were.
    pub(crate) fn replace(
        &mut self,
        places: &[Place],
        old: Reg,
        new: Reg,
    ) -> Result<Vec<InstrId>, Memory>
        requires { old.0 ≢ new.0 }
        ensures users { IfOk result (λ ids. ids.items ≡ listed self.old (use_key old.0)) }
        ensures ok { OnOk result (AreUsersMoved self.old self.new places.now old.0 new.0) }
        ensures err { OnErr result (HasSameLists self.old self.new) }
    {
        let from = use_key(old);
        let to = use_key(new);
        let olds = self.of(from).copied(self.alloc)?;
        let news = self.of(to).copied(self.alloc)?;
        let ids = merge(self.alloc, places, olds.as_slice(), news.as_slice())?;
        let joined = InstrList::from_ids(self.alloc, ids)?;
        self.set(to, joined)?;
        self.clear(from);
        Ok(olds)
    }

    /// Takes an instruction, which stands at this place, out of the lists under the keys that its operands mention.
    pub(crate) fn forget_all(
        &mut self,
        places: &[Place],
        operands: &[Operand],
        id: InstrId,
        spot: Place,
    )
        requires { AreInRank places.now spot id self.old }
        ensures { IsForgotten self.old self.new operands.now id }
    {
        for x in operands {
            self.forget_operand(places, *x, id, spot);
        }
    }
}
