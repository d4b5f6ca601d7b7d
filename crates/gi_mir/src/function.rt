//! Functions: blocks of numbered instructions.

ghost use Rattle.std.specs.List.{list_any};
ghost use Rattle.std.specs.Prelude.{◌≡◌, ◌↔◌, IsTrue, ◌-◌, ◌^◌, ◌<◌, ◌≤◌, true, length, Contains, OnOk, OnErr, IfOk, IfSome, Some, map, option_map};
ghost use Rattle.gi_mir.specs.Edit.{block_at, head_of, ids_of, empty_function, register_above, above_registers, with_block, with_stack, with_keys, spot_in, with_instr, home_of, place_in_block, IsLive, StandsBefore, instr_of, id_at, id_after, id_before, without_instr, with_new_reg, CanSetOperand, with_operand_of, IsDefAt, with_changed, with_kind, definition_of, users_of, uses, all_instrs};
ghost use Rattle.gi_mir.specs.Formed.{is_formed};
ghost use Rattle.gi_mir.specs.Ids.{AreOwnIds};
ghost use Rattle.gi_mir.specs.InstrLists.{ids_left};
ghost use Rattle.gi_mir.specs.Instrs.{left};
ghost use Rattle.gi_mir.specs.Registers.{kind_in_operand, kind_in_operands, kind_of};
ghost use Rattle.gi_mir.specs.Uses.{with_reg_replaced};

use crate::block::{Block, InstrId};
use crate::instr::Instr;
use crate::instr_list::InstrIds;
use crate::instrs::Instrs;
use crate::layout::Layout;
use crate::mentions::{definition_key, use_key};
use crate::operand::{Kind, Operand, Reg, StackObject};
use gi_llt::Memory;
use std::alloc::Global;
use std::marker::Model;

impl Operand {
    /// One more than the number of the virtual register that stands here, and 0 where there is none.
    fn register_above(self) -> u64
        ensures { result ≡ register_above self }
    {
        match self {
            Operand::Def(reg, _) => reg.0 as u64 + 1,
            Operand::Use(reg) => reg.0 as u64 + 1,
            _ => 0,
        }
    }
}

/// The kind of a register, if this operand defines it.
fn defined_kind(operand: Operand, reg: Reg) -> Option<Kind>
    ensures { result ≡ kind_in_operand reg.0 operand }
{
    match operand {
        Operand::Def(defined, kind) => { if defined.0 == reg.0 { Some(kind) } else { None } }
        _ => None,
    }
}

/// The kind of a register at its first definition among operands.
fn kind_among(operands: &[Operand], reg: Reg) -> Option<Kind>
    ensures { result ≡ kind_in_operands reg.0 operands.now }
{
    for operand in operands {
        if let Some(kind) = defined_kind(*operand, reg) {
            return Some(kind);
        }
    }
    None
}

/// The greatest of `least` and of one more than each virtual register's number.
fn above_registers(least: u64, operands: &[Operand]) -> u64
    ensures { result ≡ above_registers least operands.now }
{
    operands
        .iter()
        .fold(least, |above, x| above.max(x.register_above()))
}

/// A function: its name, three keys, its stack objects and its blocks.
#[derive(Drop)]
pub struct Function {
    name: u32,
    legalized: bool,
    banked: bool,
    selected: bool,
    stack: Vec<StackObject>,
    layout: Layout,
    next_reg: u64,
}

impl Model for Function {
    ghost use Rattle.std.specs.Prelude.{◌^◌, ◌<◌, length};
    ghost use Rattle.gi_mir.specs.Data.{FunctionData};
    ghost use Rattle.gi_mir.specs.Arena.{blocks_of, IsStored};

    ghost Value = { FunctionData };

    ghost view = { λ a. record { name = a.name; legalized = a.legalized; banked = a.banked; selected = a.selected; stack = a.stack.items; blocks = blocks_of a.layout; next_reg = a.next_reg; next_id = length a.layout.slots.items } };

    ghost invariant = { λ a. (length (blocks_of a.layout) < 2 ^ 32) × IsStored a.layout };
}

impl Function {
    /// A function with this name, three false keys and nothing in it.
    pub fn new(alloc: Global, name: u32) -> Function
        ensures { result ≡ empty_function name }
    {
        Function {
            name,
            legalized: false,
            banked: false,
            selected: false,
            stack: Vec::new(alloc),
            layout: Layout::new(alloc),
            next_reg: 0,
        }
    }

    /// Adds a block with no instruction, and answers its place in layout.
    pub fn add_block(&mut self, block: Block) -> Result<u32, Memory>
        requires { length self.old.blocks < 2 ^ 32 - 1 }
        ensures ok { OnOk result (self.new ≡ with_block self.old block) }
        ensures place { IfOk result (λ place. place ≡ length self.old.blocks) }
        ensures err { OnErr result (self.new ≡ self.old) }
    {
        let place = self.layout.bodies.len() as u32;
        self.layout.add_block(block)?;
        Ok(place)
    }

    /// Sets the three keys.
    pub fn set_keys(&mut self, legalized: bool, banked: bool, selected: bool)
        ensures { self.new ≡ with_keys self.old legalized banked selected }
    {
        self.legalized = legalized;
        self.banked = banked;
        self.selected = selected;
    }

    /// The number of the name.
    pub fn name_number(&self) -> u32
        ensures { result ≡ self.now.name }
    {
        self.name
    }

    /// The three keys: legalized, banked, selected.
    pub fn keys(&self) -> (bool, bool, bool)
        ensures legalized { result.0 ≡ self.now.legalized }
        ensures banked { result.1 ≡ self.now.banked }
        ensures selected { result.2 ≡ self.now.selected }
    {
        (self.legalized, self.banked, self.selected)
    }

    /// How many blocks there are.
    pub fn block_count(&self) -> u32
        ensures count { result ≡ length self.now.blocks }
        ensures small { length self.now.blocks < 2 ^ 32 }
    {
        self.layout.bodies.len() as u32
    }

    /// The block at this place, without its instructions.
    pub fn block(&self, block: u32) -> &Block
        requires { block < length self.now.blocks }
        ensures { result.now ≡ head_of (block_at self.now block) }
    {
        let body = &self.layout.bodies[block as usize];
        &body.head
    }

    /// The instructions of a block, in order.
    pub fn instrs(&self, block: u32) -> Instrs<'_>
        requires { block < length self.now.blocks }
        ensures { left result ≡ (block_at self.now block).instrs }
    {
        let body = &self.layout.bodies[block as usize];
        Instrs::new(self.layout.slots.as_slice(), body.first, body.count)
    }

    /// Puts an instruction before the one that is named in this block, or last, and answers its id.
    pub fn insert_before(
        &mut self,
        block: u32,
        before: Option<InstrId>,
        instr: Instr,
    ) -> Result<InstrId, Memory>
        requires within { block < length self.old.blocks }
        requires stands { IfSome before (λ id. Contains (ids_of (block_at self.old block)) id.0) }
        requires formed { is_formed instr ≡ true }
        ensures ok { OnOk result (self.new ≡ with_instr self.old block before instr) }
        ensures id { IfOk result (λ id. id.0 ≡ self.old.next_id) }
        ensures err { OnErr result (self.new ≡ self.old) }
    {
        let above = above_registers(self.next_reg, instr.operands.as_slice());
        let id = self.layout.insert(block, before, instr)?;
        self.next_reg = above;
        Ok(id)
    }

    /// Adds a stack object, and answers its place.
    pub fn add_stack(&mut self, object: StackObject) -> Result<u32, Memory>
        requires { length self.old.stack < 2 ^ 32 - 1 }
        ensures ok { OnOk result (self.new ≡ with_stack self.old object) }
        ensures place { IfOk result (λ place. place ≡ length self.old.stack) }
        ensures err { OnErr result (self.new ≡ self.old) }
    {
        let place = self.stack.len() as u32;
        match self.stack.push(object) {
            Ok(()) => Ok(place),
            Err(_) => Err(Memory),
        }
    }

    /// The stack objects.
    pub fn stack(&self) -> &[StackObject]
        ensures { result.now ≡ self.now.stack }
    {
        self.stack.as_slice()
    }

    /// A virtual register that the function has not had.
    pub fn new_reg(&mut self) -> Reg
        requires { self.old.next_reg < 2 ^ 32 - 1 }
        ensures reg { result.0 ≡ self.old.next_reg }
        ensures next { self.new ≡ with_new_reg self.old }
    {
        let reg = Reg(self.next_reg as u32);
        self.next_reg += 1;
        reg
    }

    /// The first instruction of a block.
    pub fn first_in(&self, block: u32) -> Option<InstrId>
        requires { block < length self.now.blocks }
        ensures { option_map (λ id. id.0) result ≡ id_at (block_at self.now block) 0 }
    {
        self.layout.first_in(block)
    }

    /// The last instruction of a block.
    pub fn last_in(&self, block: u32) -> Option<InstrId>
        requires { block < length self.now.blocks }
        ensures { option_map (λ id. id.0) result ≡ id_at (block_at self.now block) (length (block_at self.now block).instrs - 1) }
    {
        self.layout.last_in(block)
    }

    /// Each id belongs to one instruction at most, and the next one to none.
    pub fn own_ids(&self)
        ensures { AreOwnIds self.now.blocks self.now.next_id }
    {
        let _layout = &self.layout;
    }

    /// Whether the instruction with this id is in the function.
    pub fn is_live(&self, id: InstrId) -> bool
        ensures { IsTrue result ↔ IsLive self.now id.0 }
    {
        self.layout.has(id)
    }

    /// The number of the next virtual register.
    pub fn next_reg(&self) -> u64
        ensures { result ≡ self.now.next_reg }
    {
        self.next_reg
    }

    /// The place of the block that has this instruction.
    pub fn block_of(&self, id: InstrId) -> u32
        requires { IsLive self.now id.0 }
        ensures home { result ≡ home_of self.now id.0 }
        ensures within { result < length self.now.blocks }
    {
        self.layout.block_of(id)
    }

    /// The instruction with this id.
    pub fn instr(&self, id: InstrId) -> &Instr
        requires { IsLive self.now id.0 }
        ensures value { instr_of self.now id.0 ≡ Some result.now }
        ensures formed { is_formed result.now ≡ true }
    {
        self.layout.slots[id.0].instr()
    }

    /// The next instruction of the same block.
    pub fn following(&self, id: InstrId) -> Option<InstrId>
        requires { IsLive self.now id.0 }
        ensures { option_map (λ next. next.0) result ≡ id_after self.now id.0 }
    {
        self.layout.slots[id.0].next
    }

    /// The previous instruction of the same block.
    pub fn preceding(&self, id: InstrId) -> Option<InstrId>
        requires { IsLive self.now id.0 }
        ensures { option_map (λ previous. previous.0) result ≡ id_before self.now id.0 }
    {
        self.layout.slots[id.0].previous
    }

    /// Whether one instruction stands before another in layout.
    pub fn before(&self, a: InstrId, b: InstrId) -> bool
        requires first { IsLive self.now a.0 }
        requires second { IsLive self.now b.0 }
        ensures { IsTrue result ↔ StandsBefore self.now a.0 b.0 }
    {
        self.layout.before(a, b)
    }

    /// Takes an instruction out.
    pub fn erase(&mut self, id: InstrId) -> Instr
        requires { IsLive self.old id.0 }
        ensures taken { instr_of self.old id.0 ≡ Some result }
        ensures rest { self.new ≡ without_instr self.old id.0 }
        ensures formed { is_formed result ≡ true }
    {
        self.layout.remove(id)
    }

    /// Puts another operand into an instruction.
    pub fn set_operand(&mut self, id: InstrId, k: usize, new: Operand) -> Result<(), Memory>
        requires live { IsLive self.old id.0 }
        requires can { CanSetOperand self.old id.0 k new }
        ensures ok { OnOk result (self.new ≡ with_operand_of self.old id.0 k new) }
        ensures err { OnErr result (self.new ≡ self.old) }
    {
        self.layout.set_operand(id, k, new)?;
        self.next_reg = self.next_reg.max(new.register_above());
        Ok(())
    }

    /// Sets the kind of a definition.
    pub fn set_kind(&mut self, id: InstrId, k: usize, kind: Kind)
        requires live { IsLive self.old id.0 }
        requires definition { IsDefAt self.old id.0 k }
        ensures { self.new ≡ with_changed (λ i. with_kind i k kind) self.old id.0 }
    {
        self.layout.set_kind(id, k, kind);
    }

    /// The first instruction in layout order that defines this register.
    pub fn def_of(&self, reg: Reg) -> Option<InstrId>
        ensures { option_map (λ id. id.0) result ≡ definition_of self.now reg.0 }
    {
        self.layout.mentions.of(definition_key(reg)).first()
    }

    /// The kind of a register: the one at its first definition in layout order, and `Class` where it has none.
    pub fn kind_of(&self, reg: Reg) -> Kind
        ensures { result ≡ kind_of self.now reg.0 }
    {
        match self.layout.mentions.of(definition_key(reg)).first() {
            Some(id) => kind_among(self.instr(id).operands.as_slice(), reg).unwrap_or(Kind::Class),
            None => Kind::Class,
        }
    }

    /// The instructions that use this register, each once, in layout order.
    pub fn uses_of(&self, reg: Reg) -> InstrIds<'_>
        ensures { map (λ id. id.0) (ids_left result) ≡ users_of self.now reg.0 }
    {
        self.layout.mentions.of(use_key(reg))
    }

    /// Whether an instruction uses this register.
    fn is_used(&self, reg: Reg) -> bool
        ensures { result ≡ list_any (uses reg.0) (all_instrs self.now.blocks) }
    {
        !self.uses_of(reg).is_empty()
    }

    /// Makes each use of a register one of another. Where memory runs out, nothing is changed.
    pub fn replace_reg(&mut self, old: Reg, new: Reg) -> Result<(), Memory>
        ensures ok { OnOk result (self.new ≡ with_reg_replaced old.0 new.0 self.old) }
        ensures err { OnErr result (self.new ≡ self.old) }
    {
        if !self.is_used(old) {
            return Ok(());
        }
        self.layout.replace_reg(old, new)?;
        self.next_reg = self.next_reg.max(new.0 as u64 + 1);
        Ok(())
    }
}
