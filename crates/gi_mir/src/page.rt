//! Pages of lists: the lists of numbers that stand near each other.

ghost use Rattle.std.specs.Prelude.{◌≡◌, ℕ, ◌<◌, [], length, true, OnOk, OnErr};
ghost use Rattle.std.specs.List.Sorted.{IsPartitionedBy};
ghost use Rattle.gi_mir.specs.InstrLists.{ids_left};
ghost use Rattle.gi_mir.specs.Mentions.{precedes, noted, without, IsInRank};
ghost use Rattle.gi_mir.specs.Pages.{list_at, listed_at, AreAlike, IsPageWritten};

use crate::block::InstrId;
use crate::instr_list::{InstrIds, InstrList};
use crate::place::Place;
use gi_llt::Memory;
use std::alloc::Global;

/// How many lists a page has at most.
pub(crate) const PAGE: u64 = 128;

/// The lists at the first places of a page. At the others none has an instruction.
#[derive(Drop)]
pub(crate) struct Page {
    lists: Vec<InstrList>,
}

/// Adds lists without instructions until there is one at this place.
#[tactic(auto, using(crate::proofs::Paged::same_with_empty))]
fn make_room(lists: &mut Vec<InstrList>, alloc: Global, at: usize) -> Result<(), Memory>
    ensures same { (k : ℕ) → list_at lists.new.items k ≡ list_at lists.old.items k }
    ensures there { OnOk result (at < length lists.new.items) }
{
    while lists.len() <= at {
        lists.push(InstrList::new(alloc)).map_err(|_| Memory)?;
    }
    Ok(())
}

impl Page {
    /// A page on which no list has an instruction.
    pub(crate) fn new(alloc: Global) -> Page
        ensures { (k : ℕ) → listed_at result k ≡ [] }
    {
        Page {
            lists: Vec::new(alloc),
        }
    }

    /// The list at a place.
    pub(crate) fn at(&self, at: usize) -> InstrIds<'_>
        ensures { ids_left result ≡ listed_at self.now at }
    {
        match self.lists.get(at) {
            Some(list) => list.ids(),
            None => InstrIds::none(),
        }
    }

    /// Puts a list at a place.
    pub(crate) fn set(&mut self, alloc: Global, at: usize, ids: InstrList) -> Result<(), Memory>
        ensures ok { OnOk result (IsPageWritten self.old self.new at ids) }
        ensures err { OnErr result (AreAlike self.old self.new) }
    {
        make_room(&mut self.lists, alloc, at)?;
        self.lists[at] = ids;
        Ok(())
    }

    /// Takes all instructions out of the list at a place.
    pub(crate) fn clear(&mut self, alloc: Global, at: usize)
        ensures { IsPageWritten self.old self.new at [] }
    {
        if let Some(list) = self.lists.get_mut(at) {
            *list = InstrList::new(alloc);
        }
    }

    /// Adds an instruction, which stands at this place of the function, to a list unless it is there.
    pub(crate) fn note(
        &mut self,
        alloc: Global,
        places: &[Place],
        at: usize,
        id: InstrId,
        spot: Place,
    ) -> Result<(), Memory>
        requires { IsPartitionedBy (precedes places.now spot) (listed_at self.old at) }
        ensures ok { OnOk result (IsPageWritten self.old self.new at (noted (precedes places.now spot) id (listed_at self.old at))) }
        ensures err { OnErr result (AreAlike self.old self.new) }
    {
        make_room(&mut self.lists, alloc, at)?;
        self.lists[at].put(alloc, places, id, spot)
    }

    /// Takes an instruction, which stands at this place of the function, out of a list if it is there.
    pub(crate) fn forget(&mut self, places: &[Place], at: usize, id: InstrId, spot: Place)
        requires { IsInRank (precedes places.now spot) id (listed_at self.old at) }
        ensures { IsPageWritten self.old self.new at (without id (listed_at self.old at)) }
    {
        if let Some(list) = self.lists.get_mut(at) {
            list.take_out(places, id, spot);
        }
    }
}
