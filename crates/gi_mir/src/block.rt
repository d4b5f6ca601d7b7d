//! Blocks of numbered instructions.

ghost use Rattle.std.specs.Prelude.{◌≡◌, ◌<◌, ◌-◌, ◌^◌, IsTrue, is_some, length, slice_get, option_map, IfSome, None, Some, true};
ghost use Rattle.gi_mir.specs.Arena.{body_with, body_gained, body_lost, slot_changed};
ghost use Rattle.gi_mir.specs.Formed.{is_formed};
ghost use Rattle.gi_mir.specs.Edit.{with_operand, with_kind, HasDefAt};
ghost use Rattle.gi_mir.specs.Mentions.{is_mentioned, operands_of};
ghost use Rattle.gi_mir.specs.Uses.{instr_replaced};

use crate::instr::Instr;
use crate::mentions::any_mentions;
use crate::operand::{Kind, Operand, Reg};
use std::marker::Model;

/// Names an instruction of a function. None is given twice.
#[derive(Clone, Copy, Debug, PartialEq, Eq)]
pub struct InstrId(pub usize);

/// A block without its instructions: the places of its successors, and the physical registers that are live
/// at its start.
#[derive(Drop)]
pub struct Block {
    pub successors: Vec<u32>,
    pub liveins: Vec<u8>,
}

impl Model for Block {
    ghost use Rattle.gi_mir.specs.Edit.{HeadData};

    ghost Value = { HeadData };

    ghost view = { λ a. record { successors = a.successors.items; liveins = a.liveins.items } };
}

/// An instruction of a function, which is formed, and its id.
#[derive(Drop)]
pub struct Numbered {
    pub id: InstrId,
    pub instr: Instr,
}

impl Model for Numbered {
    ghost use Rattle.std.specs.Prelude.{◌≡◌, ◌+◌, ℕ, true};
    ghost use Rattle.gi_mir.specs.Data.{InstrData};
    ghost use Rattle.gi_mir.specs.Formed.{is_formed};

    ghost Value = { ℕ × InstrData };

    ghost view = { λ a. (a.id.0, a.instr) };

    ghost invariant = { λ a. is_formed a.instr ≡ true };
}

/// A block, the first and the last of its instructions, and how many they are. They stand in the function's arena.
#[derive(Drop)]
pub(crate) struct Body {
    pub(crate) head: Block,
    pub(crate) first: Option<InstrId>,
    pub(crate) last: Option<InstrId>,
    pub(crate) count: usize,
}

/// The place of an id in the arena: its instruction, unless it was taken out, and its neighbours in its block.
#[derive(Drop)]
pub(crate) struct Slot {
    pub(crate) entry: Option<Numbered>,
    pub(crate) previous: Option<InstrId>,
    pub(crate) next: Option<InstrId>,
}

impl Body {
    /// A block with no instruction.
    pub(crate) fn new(head: Block) -> Body
        ensures { result ≡ body_with head }
    {
        Body {
            head,
            first: None,
            last: None,
            count: 0,
        }
    }

    /// Counts an instruction that came in between two, and makes it the first or the last where there is none.
    pub(crate) fn gain(&mut self, previous: Option<InstrId>, next: Option<InstrId>, id: InstrId)
        requires { self.old.count < 2 ^ 64 - 1 }
        ensures { self.new ≡ body_gained previous next id self.old }
    {
        if previous.is_none() {
            self.first = Some(id);
        }
        if next.is_none() {
            self.last = Some(id);
        }
        self.count += 1;
    }

    /// Counts one less, which stood between two, and makes these the first and the last where it was.
    pub(crate) fn lose(&mut self, previous: Option<InstrId>, next: Option<InstrId>)
        requires { 0 < self.old.count }
        ensures { self.new ≡ body_lost previous next self.old }
    {
        if previous.is_none() {
            self.first = next;
        }
        if next.is_none() {
            self.last = previous;
        }
        self.count -= 1;
    }
}

impl Slot {
    /// The operands of the instruction, if there is one.
    pub(crate) fn operands(&self) -> &[Operand]
        ensures { result.now ≡ operands_of self.now.entry }
    {
        match &self.entry {
            Some(n) => n.instr.operands.as_slice(),
            None => &[],
        }
    }

    /// Whether the instruction mentions what an operand does.
    pub(crate) fn mentions(&self, x: Operand) -> bool
        ensures { result ≡ is_mentioned x (operands_of self.now.entry) }
    {
        match x.mention() {
            Some(key) => any_mentions(self.operands(), key),
            None => false,
        }
    }

    /// The instruction.
    pub(crate) fn instr(&self) -> &Instr
        requires { IsTrue (is_some self.now.entry) }
        ensures value { option_map (λ p. p.1) self.now.entry ≡ Some result.now }
        ensures formed { is_formed result.now ≡ true }
    {
        let entry = self.entry.as_ref().unwrap();
        &entry.instr
    }

    /// Puts another operand into the instruction, and answers the old one.
    pub(crate) fn set_operand(&mut self, place: usize, new: Operand) -> Operand
        requires there { IsTrue (is_some self.old.entry) }
        requires can { IfSome (option_map (λ p. p.1) self.old.entry) (λ i. (place < length i.operands) × (is_formed (with_operand i place new) ≡ true)) }
        ensures changed { self.new ≡ slot_changed (λ i. with_operand i place new) self.old }
        ensures old { slice_get (operands_of self.old.entry) place ≡ Some result }
    {
        let old = self.operands()[place];
        let entry = self.entry.as_mut().unwrap();
        entry.set_operand(place, new);
        old
    }

    /// Makes each use of a register in the instruction, if there is one, one of another.
    pub(crate) fn replace_reg(&mut self, old: Reg, new: Reg)
        ensures { self.new ≡ slot_changed (instr_replaced old.0 new.0) self.old }
    {
        if let Some(entry) = self.entry.as_mut() {
            entry.replace_reg(old, new);
        }
    }

    /// Gives a definition of the instruction another kind.
    pub(crate) fn set_kind(&mut self, place: usize, kind: Kind)
        requires there { IsTrue (is_some self.old.entry) }
        requires can { HasDefAt (option_map (λ p. p.1) self.old.entry) place }
        ensures { self.new ≡ slot_changed (λ i. with_kind i place kind) self.old }
    {
        let entry = self.entry.as_mut().unwrap();
        entry.set_kind(place, kind);
    }

    /// Takes the instruction out.
    pub(crate) fn take(&mut self) -> Instr
        requires { IsTrue (is_some self.old.entry) }
        ensures taken { option_map (λ p. p.1) self.old.entry ≡ Some result }
        ensures rest { self.new.entry ≡ None }
        ensures formed { is_formed result ≡ true }
    {
        let Numbered { id: _, instr } = self.entry.take().unwrap();
        instr
    }
}

impl Numbered {
    fn set_operand(&mut self, place: usize, new: Operand)
        requires within { place < length self.old.1.operands }
        requires formed { is_formed (with_operand self.old.1 place new) ≡ true }
        ensures { self.new ≡ (self.old.0, with_operand self.old.1 place new) }
    {
        let instr = &mut self.instr;
        instr.set_operand(place, new);
    }

    fn set_kind(&mut self, place: usize, kind: Kind)
        requires { place < length self.old.1.operands }
        ensures { self.new ≡ (self.old.0, with_kind self.old.1 place kind) }
    {
        let instr = &mut self.instr;
        instr.set_kind(place, kind);
    }

    fn replace_reg(&mut self, old: Reg, new: Reg)
        ensures { self.new ≡ (self.old.0, instr_replaced old.0 new.0 self.old.1) }
    {
        let instr = &mut self.instr;
        instr.replace_reg(old, new);
    }
}
