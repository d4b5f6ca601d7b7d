//! The instructions of a function in one arena by id, and what is written down so that nothing has to be looked for.
//!
//! A block has its first and its last instruction, and each instruction its neighbours, so an insertion and a removal
//! touch these alone. For the order of two instructions of one block each has a number, its label, which rises along the
//! block: it stands in `Place::at`. A new label lies between those of its neighbours. Where none is free there, the
//! labels around are spread over the smallest span of labels that few enough share, so that n insertions, wherever
//! they are, write down some n * log n labels. A list of those that mention a register is searched by halving, as its
//! ids are in layout order.
//!
//! What these say is one list of blocks, `blocks_in`: the instructions of a block are those met from its first one
//! on. All that is proved is proved of that list: `IsStored` says that each id of the list has the neighbours that it
//! has there, that labels rise along it, and that the lists of mentions are those of its instructions.

ghost use Rattle.std.specs.List.{list_any};
ghost use Rattle.std.specs.Prelude.{◌≡◌, ◌↔◌, IsTrue, ◌≢◌, map, ◌<◌, ◌≤◌, ◌+◌, ◌-◌, Contains, true, false, ◌++◌, ◌∷◌, [], length, OnOk, OnErr, IfOk, IfSome, Some, option_map, slice_get};
ghost use Rattle.gi_mir.specs.Arena.{blocks_of, spot_of, is_in, IsStored, AreUsers, slot_changed, gap_at, id_named, operands_in, slot_between, next_set, previous_set};
ghost use Rattle.gi_mir.specs.Edit.{head_of, block_with, with_operand, with_kind, ids_of, id_at, HasDefAt, spot_in};
ghost use Rattle.gi_mir.specs.Formed.{is_formed};
ghost use Rattle.gi_mir.specs.Mentions.{HasSameLists, IsNoted, IsSorted, Lacks, precedes};
ghost use Rattle.gi_mir.specs.Places.{body_at, place, comes_before, with_inserted, with_removed, with_changed_at};
ghost use Rattle.gi_mir.specs.Uses.{instr_replaced, block_replaced};

use crate::block::{Block, Body, InstrId, Numbered, Slot};
use crate::instr::Instr;
use crate::mentions::Mentions;
use crate::operand::{Kind, Operand, Reg};
use crate::place::Place;
use crate::room::Gap;
use gi_llt::Memory;
use std::alloc::Global;

/// Makes each use of a register one of another, given the ids of all instructions that use it.
fn replace_among(slots: &mut [Slot], users: &[InstrId], old: Reg, new: Reg)
    requires users { AreUsers slots.old old.0 users.now }
    requires apart { old.0 ≢ new.0 }
    ensures { slots.new ≡ map (slot_changed (instr_replaced old.0 new.0)) slots.old }
{
    for id in users {
        let slot = &mut slots[id.0];
        slot.replace_reg(old, new);
    }
}

/// Blocks, the arena, the place of each id, and those that mention each register.
#[derive(Drop)]
pub(crate) struct Layout {
    pub(crate) bodies: Vec<Body>,
    pub(crate) slots: Vec<Slot>,
    pub(crate) places: Vec<Place>,
    pub(crate) mentions: Mentions,
}

impl Layout {
    /// No block.
    pub(crate) fn new(alloc: Global) -> Layout
        ensures blocks { blocks_of result ≡ [] }
        ensures given { result.slots.items ≡ [] }
        ensures stored { IsStored result }
    {
        Layout {
            bodies: Vec::new(alloc),
            slots: Vec::new(alloc),
            places: Vec::new(alloc),
            mentions: Mentions::new(alloc),
        }
    }

    /// Adds a block with no instruction.
    pub(crate) fn add_block(&mut self, block: Block) -> Result<(), Memory>
        requires { IsStored self.old }
        ensures ok { OnOk result (blocks_of self.new ≡ blocks_of self.old ++ block_with block ∷ []) }
        ensures err { OnErr result (blocks_of self.new ≡ blocks_of self.old) }
        ensures given { self.new.slots ≡ self.old.slots }
        ensures stored { IsStored self.new }
    {
        self.bodies.push(Body::new(block)).map_err(|_| Memory)?;
        Ok(())
    }

    /// The first instruction of a block.
    pub(crate) fn first_in(&self, block: u32) -> Option<InstrId>
        requires stored { IsStored self.now }
        requires within { block < length (blocks_of self.now) }
        ensures { option_map (λ id. id.0) result ≡ id_at (body_at (blocks_of self.now) block) 0 }
    {
        self.bodies[block as usize].first
    }

    /// The last instruction of a block.
    pub(crate) fn last_in(&self, block: u32) -> Option<InstrId>
        requires stored { IsStored self.now }
        requires within { block < length (blocks_of self.now) }
        ensures { option_map (λ id. id.0) result ≡ id_at (body_at (blocks_of self.now) block) (length (body_at (blocks_of self.now) block).instrs - 1) }
    {
        self.bodies[block as usize].last
    }

    /// Whether the instruction with this id is in a block.
    pub(crate) fn has(&self, id: InstrId) -> bool
        requires { IsStored self.now }
        ensures { result ≡ is_in (blocks_of self.now) id.0 }
    {
        match self.slots.as_slice().get(id.0) {
            Some(slot) => slot.entry.is_some(),
            None => false,
        }
    }

    /// The place of the block that has this instruction.
    pub(crate) fn block_of(&self, id: InstrId) -> u32
        requires stored { IsStored self.now }
        requires stands { is_in (blocks_of self.now) id.0 ≡ true }
        ensures home { result ≡ (spot_of (blocks_of self.now) id.0).block }
        ensures within { result < length (blocks_of self.now) }
    {
        self.places[id.0].block
    }

    /// Whether one instruction stands before another in layout.
    pub(crate) fn before(&self, a: InstrId, b: InstrId) -> bool
        requires stored { IsStored self.now }
        requires first { is_in (blocks_of self.now) a.0 ≡ true }
        requires second { is_in (blocks_of self.now) b.0 ≡ true }
        ensures { result ≡ comes_before (spot_of (blocks_of self.now) a.0) (spot_of (blocks_of self.now) b.0) }
    {
        self.places[a.0].is_before(self.places[b.0])
    }

    /// The gap before the instruction that is named in this block, or at its end.
    fn gap(&self, block: u32, before: Option<InstrId>) -> Gap
        requires stored { IsStored self.now }
        requires within { block < length (blocks_of self.now) }
        requires stands { IfSome before (λ id. Contains (ids_of (body_at (blocks_of self.now) block)) id.0) }
        ensures { result ≡ gap_at (blocks_of self.now) (place block (spot_in (body_at (blocks_of self.now) block).instrs before)) }
    {
        match before {
            Some(next) => Gap {
                block,
                previous: self.slots[next.0].previous,
                next: before,
            },
            None => Gap {
                block,
                previous: self.bodies[block as usize].last,
                next: None,
            },
        }
    }

    /// Writes down the place of an id, and what its instruction mentions.
    fn note(&mut self, id: InstrId, spot: Place) -> Result<(), Memory>
        requires within { id.0 < length self.old.slots.items }
        requires sorted { IsSorted (self.old.places.items ++ spot ∷ []) spot self.old.mentions }
        requires fresh { Lacks self.old.mentions id }
        requires own { precedes (self.old.places.items ++ spot ∷ []) spot id ≡ false }
        ensures ok { OnOk result (self.new.places.items ≡ self.old.places.items ++ spot ∷ []) }
        ensures noted { OnOk result (IsNoted self.old.mentions self.new.mentions (precedes (self.old.places.items ++ spot ∷ []) spot) (operands_in self.old.slots.items id.0) id) }
        ensures err { OnErr result (self.new.places.items ≡ self.old.places.items) }
        ensures same { OnErr result (HasSameLists self.old.mentions self.new.mentions) }
        ensures bodies { self.new.bodies ≡ self.old.bodies }
        ensures slots { self.new.slots ≡ self.old.slots }
    {
        self.places.push(spot).map_err(|_| Memory)?;
        let operands = self.slots[id.0].operands();
        match self
            .mentions
            .note_all(self.places.as_slice(), operands, id, spot)
        {
            Ok(()) => Ok(()),
            Err(_) => {
                let _ = self.places.pop();
                Err(Memory)
            }
        }
    }

    /// Takes an instruction into the arena, which stands in no block as yet.
    fn enter(&mut self, instr: Instr, spot: Place, gap: Gap) -> Result<InstrId, Memory>
        requires formed { is_formed instr ≡ true }
        requires sorted { IsSorted (self.old.places.items ++ spot ∷ []) spot self.old.mentions }
        requires fresh { Lacks self.old.mentions (id_named (length self.old.slots.items)) }
        requires own { precedes (self.old.places.items ++ spot ∷ []) spot (id_named (length self.old.slots.items)) ≡ false }
        ensures id { IfOk result (λ id. id.0 ≡ length self.old.slots.items) }
        ensures ok { OnOk result (self.new.slots.items ≡ self.old.slots.items ++ slot_between gap (length self.old.slots.items, instr) ∷ []) }
        ensures places { OnOk result (self.new.places.items ≡ self.old.places.items ++ spot ∷ []) }
        ensures noted { OnOk result (IsNoted self.old.mentions self.new.mentions (precedes (self.old.places.items ++ spot ∷ []) spot) instr.operands (id_named (length self.old.slots.items))) }
        ensures err { OnErr result (self.new.slots.items ≡ self.old.slots.items) }
        ensures same_places { OnErr result (self.new.places.items ≡ self.old.places.items) }
        ensures same_lists { OnErr result (HasSameLists self.old.mentions self.new.mentions) }
        ensures bodies { self.new.bodies ≡ self.old.bodies }
    {
        let id = InstrId(self.slots.len());
        let slot = Slot {
            entry: Some(Numbered { id, instr }),
            previous: gap.previous,
            next: gap.next,
        };
        self.slots.push(slot).map_err(|_| Memory)?;
        match self.note(id, spot) {
            Ok(()) => Ok(id),
            Err(_) => {
                let _ = self.slots.pop();
                Err(Memory)
            }
        }
    }

    /// Makes an instruction the one behind another.
    fn set_next(&mut self, id: Option<InstrId>, next: Option<InstrId>)
        requires { IfSome id (λ there. there.0 < length self.old.slots.items) }
        ensures slots { self.new.slots.items ≡ next_set id next self.old.slots.items }
        ensures bodies { self.new.bodies ≡ self.old.bodies }
        ensures places { self.new.places ≡ self.old.places }
        ensures mentions { self.new.mentions ≡ self.old.mentions }
    {
        if let Some(there) = id {
            let slot = &mut self.slots[there.0];
            slot.next = next;
        }
    }

    /// Makes an instruction the one before another.
    fn set_previous(&mut self, id: Option<InstrId>, previous: Option<InstrId>)
        requires { IfSome id (λ there. there.0 < length self.old.slots.items) }
        ensures slots { self.new.slots.items ≡ previous_set id previous self.old.slots.items }
        ensures bodies { self.new.bodies ≡ self.old.bodies }
        ensures places { self.new.places ≡ self.old.places }
        ensures mentions { self.new.mentions ≡ self.old.mentions }
    {
        if let Some(there) = id {
            let slot = &mut self.slots[there.0];
            slot.previous = previous;
        }
    }

    /// Puts an instruction into a block, before the one that is named or last, and answers its id.
    pub(crate) fn insert(
        &mut self,
        block: u32,
        before: Option<InstrId>,
        instr: Instr,
    ) -> Result<InstrId, Memory>
        requires stored { IsStored self.old }
        requires within { block < length (blocks_of self.old) }
        requires stands { IfSome before (λ id. Contains (ids_of (body_at (blocks_of self.old) block)) id.0) }
        requires formed { is_formed instr ≡ true }
        ensures ok { OnOk result (blocks_of self.new ≡ with_inserted (blocks_of self.old) (place block (spot_in (body_at (blocks_of self.old) block).instrs before)) (length self.old.slots.items, instr)) }
        ensures id { IfOk result (λ id. id.0 ≡ length self.old.slots.items) }
        ensures given { OnOk result (length self.new.slots.items ≡ length self.old.slots.items + 1) }
        ensures err { OnErr result (blocks_of self.new ≡ blocks_of self.old) }
        ensures same_given { OnErr result (length self.new.slots.items ≡ length self.old.slots.items) }
        ensures stored { IsStored self.new }
    {
        let gap = self.gap(block, before);
        let at = self.free_label(gap)?;
        let id = self.enter(instr, Place { block, at }, gap)?;
        self.set_next(gap.previous, Some(id));
        self.set_previous(gap.next, Some(id));
        let body = &mut self.bodies[block as usize];
        body.gain(gap.previous, gap.next, id);
        Ok(id)
    }

    /// Takes an instruction out.
    pub(crate) fn remove(&mut self, id: InstrId) -> Instr
        requires stored { IsStored self.old }
        requires stands { is_in (blocks_of self.old) id.0 ≡ true }
        ensures taken { slice_get (body_at (blocks_of self.old) (spot_of (blocks_of self.old) id.0).block).instrs (spot_of (blocks_of self.old) id.0).at ≡ Some (id.0, result) }
        ensures formed { is_formed result ≡ true }
        ensures rest { blocks_of self.new ≡ with_removed (blocks_of self.old) (spot_of (blocks_of self.old) id.0) }
        ensures given { length self.new.slots.items ≡ length self.old.slots.items }
        ensures stored { IsStored self.new }
    {
        let spot = self.places[id.0];
        let slot = &mut self.slots[id.0];
        let previous = slot.previous;
        let next = slot.next;
        let instr = slot.take();
        self.set_next(previous, next);
        self.set_previous(next, previous);
        let body = &mut self.bodies[spot.block as usize];
        body.lose(previous, next);
        self.mentions.forget_all(self.places.as_slice(), instr.operands.as_slice(), id, spot);
        instr
    }

    /// Puts another operand into an instruction.
    pub(crate) fn set_operand(&mut self, id: InstrId, k: usize, new: Operand) -> Result<(), Memory>
        requires stored { IsStored self.old }
        requires stands { is_in (blocks_of self.old) id.0 ≡ true }
        requires can { IfSome (slice_get (body_at (blocks_of self.old) (spot_of (blocks_of self.old) id.0).block).instrs (spot_of (blocks_of self.old) id.0).at) (λ p. (k < length p.1.operands) × (is_formed (with_operand p.1 k new) ≡ true)) }
        ensures ok { OnOk result (blocks_of self.new ≡ with_changed_at (λ i. with_operand i k new) (blocks_of self.old) (spot_of (blocks_of self.old) id.0)) }
        ensures err { OnErr result (blocks_of self.new ≡ blocks_of self.old) }
        ensures given { length self.new.slots.items ≡ length self.old.slots.items }
        ensures stored { IsStored self.new }
    {
        let spot = self.places[id.0];
        self.mentions
            .note_operand(self.places.as_slice(), new, id, spot)?;
        let slot = &mut self.slots[id.0];
        let old = slot.set_operand(k, new);
        if !slot.mentions(old) {
            self.mentions
                .forget_operand(self.places.as_slice(), old, id, spot);
        }
        Ok(())
    }

    /// Makes each use of a register one of another. Where memory runs out, nothing is changed.
    pub(crate) fn replace_reg(&mut self, old: Reg, new: Reg) -> Result<(), Memory>
        requires { IsStored self.old }
        ensures ok { OnOk result (blocks_of self.new ≡ map (block_replaced old.0 new.0) (blocks_of self.old)) }
        ensures err { OnErr result (blocks_of self.new ≡ blocks_of self.old) }
        ensures given { length self.new.slots.items ≡ length self.old.slots.items }
        ensures stored { IsStored self.new }
    {
        if old.0 == new.0 {
            return Ok(());
        }
        let users = self.mentions.replace(self.places.as_slice(), old, new)?;
        replace_among(self.slots.as_mut_slice(), users.as_slice(), old, new);
        Ok(())
    }

    /// Gives a definition of an instruction another kind.
    pub(crate) fn set_kind(&mut self, id: InstrId, k: usize, kind: Kind)
        requires stored { IsStored self.old }
        requires stands { is_in (blocks_of self.old) id.0 ≡ true }
        requires can { HasDefAt (option_map (λ p. p.1) (slice_get (body_at (blocks_of self.old) (spot_of (blocks_of self.old) id.0).block).instrs (spot_of (blocks_of self.old) id.0).at)) k }
        ensures blocks { blocks_of self.new ≡ with_changed_at (λ i. with_kind i k kind) (blocks_of self.old) (spot_of (blocks_of self.old) id.0) }
        ensures given { length self.new.slots.items ≡ length self.old.slots.items }
        ensures stored { IsStored self.new }
    {
        let slot = &mut self.slots[id.0];
        slot.set_kind(k, kind);
    }
}
