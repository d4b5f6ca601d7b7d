//! The instructions of a block, one after the other.

ghost use Rattle.std.specs.Prelude.{◌≡◌, length, take};
ghost use Rattle.std.specs.Iterator.{YieldsFirstRef, item_count};
ghost use Rattle.gi_mir.specs.Arena.{chain};
ghost use Rattle.gi_mir.specs.Instrs.{left};

use crate::block::{InstrId, Numbered, Slot};

/// The instructions of a block that are still to come, in order.
#[derive(Clone, Copy)]
pub struct Instrs<'a> {
    slots: &'a [Slot],
    next: Option<InstrId>,
    count: usize,
}

/// How many instructions are met from one on, at most so many.
fn chain_length(slots: &[Slot], next: Option<InstrId>, count: usize) -> usize
    ensures { result ≡ length (chain slots.now count next) }
{
    let mut length = 0;
    for numbered in (Instrs { slots, next, count }) {
        let _ = numbered;
        length += 1;
    }
    length
}

impl<'a> Instrs<'a> {
    /// Those from an instruction on, at most so many.
    pub(crate) fn new(slots: &'a [Slot], next: Option<InstrId>, count: usize) -> Instrs<'a>
        ensures { left result ≡ chain slots.entry.now count next }
    {
        Instrs { slots, next, count }
    }

    /// How many there are.
    #[tactic(auto, unfolding(crate::specs::Instrs::left))]
    pub fn len(self) -> usize
        ensures { result ≡ length (left self.entry) }
    {
        chain_length(self.slots, self.next, self.count)
    }

    /// Those that come first, at most so many.
    pub fn first(self, count: usize) -> Instrs<'a>
        ensures { left result ≡ take count (left self.entry) }
    {
        Instrs {
            slots: self.slots,
            next: self.next,
            count: count.min(self.count),
        }
    }
}

impl<'a> Iterator for Instrs<'a> {
    type Item = &'a Numbered;

    ghost next_gives = { YieldsFirstRef left };

    ghost remaining = { item_count left };

    fn next(&mut self) -> Option<&'a Numbered> {
        if self.count == 0 {
            return None;
        }
        let id = self.next?;
        let slot = self.slots.get(id.0)?;
        let entry = slot.entry.as_ref()?;
        self.count -= 1;
        self.next = slot.next;
        Some(entry)
    }
}
