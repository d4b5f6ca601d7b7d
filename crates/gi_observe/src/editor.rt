//! Edits of a function that tell each change.

ghost use Rattle.std.specs.Prelude.{◌≡◌, ◌⊎◌, ◌<◌, ◌-◌, ◌^◌, [], ◌∷◌, ◌++◌, IsTrue, length, Contains, IfOk, IfSome, OnOk, OnErr, Some, true};
ghost use Rattle.gi_mir.specs.Edit.{IsLive, block_at, ids_of, instr_of, with_instr, with_new_reg, without_instr};
ghost use Rattle.gi_mir.specs.Formed.{is_formed};
ghost use Rattle.gi_mir.specs.Uses.{with_reg_replaced};
ghost use Rattle.gi_observe.specs.Replay.{IsReplay, TellsPart, change_of, replacement, replacements};

use crate::change::{Change, ChangeKind};
use crate::observer::ChangeObserver;
use crate::pass::Pass;
use gi_llt::Memory;
use gi_mir::block::InstrId;
use gi_mir::function::Function;
use gi_mir::instr::Instr;
use gi_mir::operand::Reg;

/// Edits a function in a pass, and tells an observer each change.
#[derive(Drop)]
pub struct Editor<'a, O: ChangeObserver> {
    function: &'a mut Function,
    pass: Pass,
    observer: &'a mut O,
}

impl<'a, O: ChangeObserver> Editor<'a, O> {
    /// An editor of this function.
    pub fn new(function: &'a mut Function, pass: Pass, observer: &'a mut O) -> Editor<'a, O>
        ensures same_function { result.function.ghost_name ≡ function.entry.ghost_name }
        ensures function { result.function.now ≡ function.old }
        ensures pass { result.pass ≡ pass }
        ensures same_observer { result.observer.ghost_name ≡ observer.entry.ghost_name }
        ensures observer { result.observer.now ≡ observer.old }
    {
        Editor {
            function,
            pass,
            observer,
        }
    }

    /// The function as it is.
    pub fn function(&self) -> &Function
        ensures { result.now ≡ self.now.function.now }
    {
        self.function
    }

    /// A virtual register that the function has not had. Nothing is told.
    pub fn new_reg(&mut self) -> Reg
        requires { self.old.function.now.next_reg < 2 ^ 32 - 1 }
        ensures same_function { self.new.function.ghost_name ≡ self.old.function.ghost_name }
        ensures same_observer { self.new.observer.ghost_name ≡ self.old.observer.ghost_name }
        ensures pass { self.new.pass ≡ self.old.pass }
        ensures reg { result.0 ≡ self.old.function.now.next_reg }
        ensures next { self.new.function.now ≡ with_new_reg self.old.function.now }
        ensures untold { self.new.observer.now ≡ self.old.observer.now }
        ensures replay { IsReplay [] self.old.function.now self.new.function.now }
    {
        self.function.new_reg()
    }

    /// Puts an instruction before the one that is named in this block, or last, and answers its id. Where memory
    /// runs out nothing is told, and the instruction may stand there.
    pub fn create(
        &mut self,
        block: u32,
        before: Option<InstrId>,
        instr: Instr,
    ) -> Result<InstrId, Memory>
        requires within { block < length self.old.function.now.blocks }
        requires stands { IfSome before (λ id. Contains (ids_of (block_at self.old.function.now block)) id.0) }
        requires formed { is_formed instr ≡ true }
        ensures same_function { self.new.function.ghost_name ≡ self.old.function.ghost_name }
        ensures same_observer { self.new.observer.ghost_name ≡ self.old.observer.ghost_name }
        ensures pass { self.new.pass ≡ self.old.pass }
        ensures ok { OnOk result (self.new.function.now ≡ with_instr self.old.function.now block before instr) }
        ensures id { IfOk result (λ id. id.0 ≡ self.old.function.now.next_id) }
        ensures tells_stays { O.tells self.new.observer.now ≡ O.tells self.old.observer.now }
        ensures told { IfOk result (λ id. IsTrue (O.tells self.old.observer.now) → O.seen self.new.observer.now ≡ O.seen self.old.observer.now ++ change_of self.old.function.now.name self.old.pass (ChangeKind.Created id block before instr) ∷ []) }
        ensures replay { IfOk result (λ id. IsReplay (change_of self.old.function.now.name self.old.pass (ChangeKind.Created id block before instr) ∷ []) self.old.function.now self.new.function.now) }
        ensures err { OnErr result ((self.new.function.now ≡ self.old.function.now) ⊎ (self.new.function.now ≡ with_instr self.old.function.now block before instr)) }
        ensures untold { OnErr result (IsTrue (O.tells self.old.observer.now) → O.seen self.new.observer.now ≡ O.seen self.old.observer.now) }
    {
        let copied = instr.copy()?;
        let id = self.function.insert_before(block, before, instr)?;
        self.tell(ChangeKind::Created {
            id,
            block,
            before,
            instr: copied,
        })?;
        Ok(id)
    }

    /// Takes an instruction out. Where memory runs out nothing is told.
    pub fn erase(&mut self, id: InstrId) -> Result<(), Memory>
        requires { IsLive self.old.function.now id.0 }
        ensures same_function { self.new.function.ghost_name ≡ self.old.function.ghost_name }
        ensures same_observer { self.new.observer.ghost_name ≡ self.old.observer.ghost_name }
        ensures pass { self.new.pass ≡ self.old.pass }
        ensures rest { self.new.function.now ≡ without_instr self.old.function.now id.0 }
        ensures tells_stays { O.tells self.new.observer.now ≡ O.tells self.old.observer.now }
        ensures told { OnOk result (IfSome (instr_of self.old.function.now id.0) (λ instr. IsTrue (O.tells self.old.observer.now) → O.seen self.new.observer.now ≡ O.seen self.old.observer.now ++ change_of self.old.function.now.name self.old.pass (ChangeKind.Erased id instr) ∷ [])) }
        ensures replay { IfSome (instr_of self.old.function.now id.0) (λ instr. IsReplay (change_of self.old.function.now.name self.old.pass (ChangeKind.Erased id instr) ∷ []) self.old.function.now self.new.function.now) }
        ensures untold { OnErr result (IsTrue (O.tells self.old.observer.now) → O.seen self.new.observer.now ≡ O.seen self.old.observer.now) }
    {
        let instr = self.function.erase(id);
        self.tell(ChangeKind::Erased { id, instr })
    }

    /// Makes each use of a register one of another. Where memory runs out, the function is as it was, and a front
    /// part of the changes may be told.
    pub fn replace(&mut self, old: Reg, new: Reg) -> Result<(), Memory>
        ensures same_function { self.new.function.ghost_name ≡ self.old.function.ghost_name }
        ensures same_observer { self.new.observer.ghost_name ≡ self.old.observer.ghost_name }
        ensures pass { self.new.pass ≡ self.old.pass }
        ensures ok { OnOk result (self.new.function.now ≡ with_reg_replaced old.0 new.0 self.old.function.now) }
        ensures tells_stays { O.tells self.new.observer.now ≡ O.tells self.old.observer.now }
        ensures told { OnOk result (IsTrue (O.tells self.old.observer.now) → O.seen self.new.observer.now ≡ O.seen self.old.observer.now ++ replacements self.old.function.now self.old.pass old.0 new.0) }
        ensures replay { OnOk result (IsReplay (replacements self.old.function.now self.old.pass old.0 new.0) self.old.function.now self.new.function.now) }
        ensures err { OnErr result (self.new.function.now ≡ self.old.function.now) }
        ensures told_in_part { OnErr result (IsTrue (O.tells self.old.observer.now) → TellsPart (replacements self.old.function.now self.old.pass old.0 new.0) (O.seen self.old.observer.now) (O.seen self.new.observer.now)) }
    {
        self.function.own_ids();
        tell_replacements(self.function, self.pass, self.observer, old, new)?;
        self.function.replace_reg(old, new)
    }

    /// Tells a change of the function.
    fn tell(&mut self, kind: ChangeKind) -> Result<(), Memory>
        ensures same_function { self.new.function.ghost_name ≡ self.old.function.ghost_name }
        ensures same_observer { self.new.observer.ghost_name ≡ self.old.observer.ghost_name }
        ensures pass { self.new.pass ≡ self.old.pass }
        ensures function { self.new.function.now ≡ self.old.function.now }
        ensures tells_stays { O.tells self.new.observer.now ≡ O.tells self.old.observer.now }
        ensures told { OnOk result (IsTrue (O.tells self.old.observer.now) → O.seen self.new.observer.now ≡ O.seen self.old.observer.now ++ change_of self.old.function.now.name self.old.pass kind ∷ []) }
        ensures untold { OnErr result (IsTrue (O.tells self.old.observer.now) → O.seen self.new.observer.now ≡ O.seen self.old.observer.now) }
    {
        let change = Change {
            function: self.function.name_number(),
            pass: self.pass,
            kind,
        };
        self.observer.told(&change)
    }
}

/// Tells, in layout order, what becomes of each instruction that uses a register where it uses another.
fn tell_replacements<O: ChangeObserver>(
    function: &Function,
    pass: Pass,
    observer: &mut O,
    old: Reg,
    new: Reg,
) -> Result<(), Memory>
    ensures tells_stays { O.tells observer.new ≡ O.tells observer.old }
    ensures told { OnOk result (IsTrue (O.tells observer.old) → O.seen observer.new ≡ O.seen observer.old ++ replacements function.now pass old.0 new.0) }
    ensures told_in_part { OnErr result (IsTrue (O.tells observer.old) → TellsPart (replacements function.now pass old.0 new.0) (O.seen observer.old) (O.seen observer.new)) }
{
    function.own_ids();
    for id in function.uses_of(old) {
        tell_replacement(function, pass, observer, id, old, new)?;
    }
    Ok(())
}

/// Tells what becomes of an instruction that uses a register where it uses another.
fn tell_replacement<O: ChangeObserver>(
    function: &Function,
    pass: Pass,
    observer: &mut O,
    id: InstrId,
    old: Reg,
    new: Reg,
) -> Result<(), Memory>
    requires { IsLive function.now id.0 }
    ensures tells_stays { O.tells observer.new ≡ O.tells observer.old }
    ensures told { OnOk result (IfSome (instr_of function.now id.0) (λ instr. IsTrue (O.tells observer.old) → O.seen observer.new ≡ O.seen observer.old ++ replacement function.now.name pass old.0 new.0 (id.0, instr) ∷ [])) }
    ensures untold { OnErr result (IsTrue (O.tells observer.old) → O.seen observer.new ≡ O.seen observer.old) }
{
    let change = replacement(function, pass, id, old, new)?;
    observer.told(&change)
}

/// What becomes of an instruction where it uses one register in another's place.
fn replacement(
    function: &Function,
    pass: Pass,
    id: InstrId,
    old: Reg,
    new: Reg,
) -> Result<Change, Memory>
    requires { IsLive function.now id.0 }
    ensures { IfOk result (λ change. IfSome (instr_of function.now id.0) (λ instr. change ≡ replacement function.now.name pass old.0 new.0 (id.0, instr))) }
{
    let instr = function.instr(id);
    let before = instr.copy()?;
    let mut after = instr.copy()?;
    after.replace_reg(old, new);
    Ok(Change {
        function: function.name_number(),
        pass,
        kind: ChangeKind::Changed {
            id,
            old: before,
            new: after,
        },
    })
}
