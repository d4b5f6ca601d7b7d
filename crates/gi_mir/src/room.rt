//! Room for one more label between two instructions.

ghost use Rattle.std.specs.Prelude.{◌≡◌, ◌<◌, IfOk, IfSome, Some, length, slice_get, true};
ghost use Rattle.gi_mir.specs.Arena.{blocks_of, is_in, FitsGap, HasGap, IsStored};
ghost use Rattle.gi_mir.specs.Labels.{label_or, with_label, BeginsAt, FillsSpan, HasRoom, IsRun};
ghost use Rattle.gi_mir.specs.declared.block.Slot.{Slot};
ghost use Rattle.gi_mir.specs.declared.place.Place.{Place};

use crate::block::InstrId;
use crate::labels::{END, Run, Span, between};
use crate::layout::Layout;
use gi_llt::Memory;

/// A gap of a block: the instructions that stand around it.
#[derive(Clone, Copy)]
pub(crate) struct Gap {
    pub(crate) block: u32,
    pub(crate) previous: Option<InstrId>,
    pub(crate) next: Option<InstrId>,
}

impl Layout {
    /// The label of an instruction.
    fn label_of(&self, id: InstrId) -> usize
        requires { id.0 < length self.now.places.items }
        ensures { (p : Place) → slice_get self.now.places.items id.0 ≡ Some p → result ≡ p.at }
    {
        self.places[id.0].at
    }

    /// The instruction before another.
    fn previous_of(&self, id: InstrId) -> Option<InstrId>
        requires { id.0 < length self.now.slots.items }
        ensures { (s : Slot) → slice_get self.now.slots.items id.0 ≡ Some s → result ≡ s.previous }
    {
        self.slots[id.0].previous
    }

    /// The instruction behind another.
    fn next_of(&self, id: InstrId) -> Option<InstrId>
        requires { id.0 < length self.now.slots.items }
        ensures { (s : Slot) → slice_get self.now.slots.items id.0 ≡ Some s → result ≡ s.next }
    {
        self.slots[id.0].next
    }

    /// Gives an instruction another label.
    fn set_label(&mut self, id: InstrId, label: usize)
        requires { id.0 < length self.old.places.items }
        ensures bodies { self.new.bodies ≡ self.old.bodies }
        ensures slots { self.new.slots ≡ self.old.slots }
        ensures mentions { self.new.mentions ≡ self.old.mentions }
        ensures places { self.new.places.items ≡ with_label self.old.places.items id.0 label }
    {
        self.places[id.0].at = label;
    }

    /// The label of the instruction that is named, or this one where none is.
    fn label_or(&self, id: Option<InstrId>, label: usize) -> usize
        requires { IfSome id (λ i. i.0 < length self.now.places.items) }
        ensures { result ≡ label_or self.now.places.items id label }
    {
        match id {
            Some(there) => self.label_of(there),
            None => label,
        }
    }

    /// A label that is free in a gap.
    fn label_in(&self, gap: Gap) -> Option<usize>
        requires stored { IsStored self.now }
        requires gap { HasGap (blocks_of self.now) gap }
        ensures { IfSome result (λ label. FitsGap self.now.places.items gap label) }
    {
        between(self.label_or(gap.previous, 0), self.label_or(gap.next, END))
    }

    /// A run that takes in those before it whose labels are this one or a higher one.
    fn widened_back(&self, run: Run, low: usize) -> Run
        requires stored { IsStored self.now }
        requires run { IsRun (blocks_of self.now) run }
        ensures { BeginsAt self.now.places.items (blocks_of self.now) low result }
    {
        let mut wide = run;
        while let Some(previous) = self.previous_of(wide.first) {
            if self.label_of(previous) < low {
                return wide;
            }
            wide.first = previous;
            wide.count += 1;
        }
        wide
    }

    /// A run that takes in those around it whose labels are in a span.
    fn widened(&self, run: Run, span: Span) -> Run
        requires stored { IsStored self.now }
        requires run { IsRun (blocks_of self.now) run }
        ensures { FillsSpan self.now.places.items (blocks_of self.now) span result }
    {
        let mut wide = self.widened_back(run, span.low);
        while let Some(next) = self.next_of(wide.last) {
            if self.label_of(next) >= span.end {
                return wide;
            }
            wide.last = next;
            wide.count += 1;
        }
        wide
    }

    /// The smallest span of labels around an instruction that few enough share, and those that do. A span of 2^n
    /// labels may have some 1.5^n instructions: of two such halves the whole is filled to three quarters of what it
    /// may have.
    fn sparse_span(&self, id: InstrId) -> Option<(Run, Span)>
        requires stored { IsStored self.now }
        requires stands { is_in (blocks_of self.now) id.0 ≡ true }
        ensures { IfSome result (λ found. FillsSpan self.now.places.items (blocks_of self.now) found.1 found.0 × HasRoom found.1 found.0) }
    {
        let label = self.label_of(id);
        let mut run = Run::of(id);
        let mut limit = 3;
        for bits in 3..62u32 {
            let span = Span::around(label, bits);
            run = self.widened(run, span);
            if run.count <= limit {
                return Some((run, span));
            }
            limit += limit / 2;
        }
        None
    }

    /// Spreads the labels of a run over a span.
    fn spread(&mut self, run: Run, span: Span)
        requires stored { IsStored self.old }
        requires fills { FillsSpan self.old.places.items (blocks_of self.old) span run }
        requires room { HasRoom span run }
        ensures bodies { self.new.bodies ≡ self.old.bodies }
        ensures slots { self.new.slots ≡ self.old.slots }
        ensures mentions { self.new.mentions ≡ self.old.mentions }
        ensures stored { IsStored self.new }
    {
        let step = (span.end - span.low) / (run.count + 1);
        let mut id = run.first;
        for k in 0..run.count {
            self.set_label(id, span.low + (k + 1) * step);
            id = self.next_of(id).unwrap_or(id);
        }
    }

    /// Spreads the labels around an instruction, so that some are free on both of its sides.
    fn make_room(&mut self, id: InstrId) -> Result<(), Memory>
        requires stored { IsStored self.old }
        requires stands { is_in (blocks_of self.old) id.0 ≡ true }
        ensures bodies { self.new.bodies ≡ self.old.bodies }
        ensures slots { self.new.slots ≡ self.old.slots }
        ensures mentions { self.new.mentions ≡ self.old.mentions }
        ensures stored { IsStored self.new }
    {
        let (run, span) = self.sparse_span(id).ok_or(Memory)?;
        self.spread(run, span);
        Ok(())
    }

    /// A label between those of the neighbours. Where none is free, the labels around are spread first.
    pub(crate) fn free_label(&mut self, gap: Gap) -> Result<usize, Memory>
        requires stored { IsStored self.old }
        requires gap { HasGap (blocks_of self.old) gap }
        ensures bodies { self.new.bodies ≡ self.old.bodies }
        ensures slots { self.new.slots ≡ self.old.slots }
        ensures mentions { self.new.mentions ≡ self.old.mentions }
        ensures stored { IsStored self.new }
        ensures fits { IfOk result (λ label. FitsGap self.new.places.items gap label) }
    {
        if let Some(label) = self.label_in(gap) {
            return Ok(label);
        }
        let id = gap.next.or(gap.previous).ok_or(Memory)?;
        self.make_room(id)?;
        self.label_in(gap).ok_or(Memory)
    }
}
