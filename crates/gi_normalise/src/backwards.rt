//! Rewriting from the last instruction backwards.

ghost use Rattle.std.specs.Prelude.{◌≡◌, ◌+◌, ◌-◌, ◌≤◌, ◌<◌, ℕ, Bool, None, IfOk, IfSome, OnOk, length, option_map};
ghost use Rattle.gi_mir.specs.Edit.{IsLive, block_at, home_of, id_after};
ghost use Rattle.gi_normalise.specs.Gaps.{IsClear, IsClearBehind, IsClearFrom};
ghost use Rattle.gi_normalise.specs.Layout.{last_generic, last_generic_in};
ghost use Rattle.gi_normalise.specs.NormalForms.{IsNormalForm, fits};
ghost use Rattle.gi_normalise.specs.Tables.{IsNormalised, TellsAll};

use crate::steps::Steps;
use crate::table::{LocalTable, RuleTable};
use crate::trying::try_at;
use gi_llt::Memory;
use gi_mir::block::InstrId;
use gi_mir::function::Function;
use gi_observe::{ChangeObserver, Editor, Pass};
use std::sync::ledger::Ledger;

/// A gap of a block: before the instruction that is named, or at the end.
#[derive(Clone, Copy, Debug, PartialEq, Eq)]
pub(crate) struct Gap {
    pub(crate) block: u32,
    pub(crate) behind: Option<InstrId>,
}

impl Gap {
    /// The end of a block.
    fn end(block: u32) -> Gap
        ensures block { result.block ≡ block }
        ensures end { result.behind ≡ None }
    {
        Gap {
            block,
            behind: None,
        }
    }

    /// The gap behind an instruction.
    fn after(function: &Function, id: InstrId) -> Gap
        requires { IsLive function.now id.0 }
        ensures block { result.block ≡ home_of function.now id.0 }
        ensures behind { option_map (λ next. next.0) result.behind ≡ id_after function.now id.0 }
    {
        Gap {
            block: function.block_of(id),
            behind: function.following(id),
        }
    }

    /// The instruction before the gap in its block.
    fn ahead(self, function: &Function) -> Option<InstrId>
        requires within { self.block < length function.now.blocks }
        requires clear { IsClearFrom (block_at function.now self.block).instrs self.behind }
        ensures { IsClearBehind (block_at function.now self.block).instrs result }
    {
        function.own_ids();
        match self.behind {
            Some(id) => function.preceding(id),
            None => function.last_in(self.block),
        }
    }
}

/// The last generic instruction of a block, where none stands behind the gap.
fn generic_in(function: &Function, gap: Gap) -> Option<InstrId>
    requires within { gap.block < length function.now.blocks }
    requires clear { IsClearFrom (block_at function.now gap.block).instrs gap.behind }
    ensures { option_map (λ id. id.0) result ≡ last_generic_in (block_at function.now gap.block).instrs }
{
    function.own_ids();
    let mut ahead = gap.ahead(function);
    while let Some(id) = ahead {
        if function.instr(id).op.is_generic() {
            return Some(id);
        }
        ahead = function.preceding(id);
    }
    None
}

/// The last generic instruction, where none stands behind the gap.
fn generic_before(function: &Function, gap: Gap) -> Option<InstrId>
    requires { IsClear function.now gap }
    ensures last { (fits : ℕ → Bool) → option_map (λ id. id.0) result ≡ last_generic fits function.now }
    ensures live { IfSome result (λ id. IsLive function.now id.0) }
{
    let mut gap = gap;
    loop {
        if let Some(id) = generic_in(function, gap) {
            return Some(id);
        }
        if gap.block == 0 {
            return None;
        }
        gap = Gap::end(gap.block - 1);
    }
}

/// Rewrites at the last generic instruction until there is none or no row fits there. It never goes back behind an
/// instruction that stays.
fn rewrite_backwards<T: LocalTable, O: ChangeObserver, L: Ledger>(
    table: &T,
    edit: &mut Editor<'_, O>,
    steps: &mut Steps<L>,
) -> Result<(), Memory>
    requires { T.is_fit table.now edit.old.function.now }
    ensures same_function { edit.new.function.ghost_name ≡ edit.old.function.ghost_name }
    ensures same_observer { edit.new.observer.ghost_name ≡ edit.old.observer.ghost_name }
    ensures pass { edit.new.pass ≡ edit.old.pass }
    ensures tells_stays { O.tells edit.new.observer.now ≡ O.tells edit.old.observer.now }
    ensures normalised { OnOk result (IsNormalised last_generic (T.rows table.now) (T.is_fit table.now) (T.refines table.now) (T.weight table.now) (steps.new - steps.old) edit.old.function.now edit.new.function.now) }
    ensures told { OnOk result (TellsAll edit.old.pass (O.tells edit.old.observer.now) (O.seen edit.old.observer.now) (O.seen edit.new.observer.now) edit.old.function.now edit.new.function.now) }
    ensures counted { steps.old ≤ steps.new }
{
    let blocks = edit.function().block_count();
    if blocks == 0 {
        return Ok(());
    }
    let mut gap = Gap::end(blocks - 1);
    while let Some(at) = generic_before(edit.function(), gap) {
        gap = Gap::after(edit.function(), at);
        edit.function().own_ids();
        if !try_at(table, edit, at, steps)? {
            return Ok(());
        }
    }
    Ok(())
}

/// Makes of a function its normal form by a table, at the last generic instruction: from the last instruction of the last
/// block backwards, once.
pub fn normalise_backwards<T: LocalTable, O: ChangeObserver, L: Ledger>(
    table: &T,
    function: &mut Function,
    pass: Pass,
    observer: &mut O,
    steps: &mut Steps<L>,
) -> Result<(), Memory>
    requires { T.is_fit table.now function.old }
    ensures normal_form { OnOk result (IsNormalForm last_generic (T.rows table.now) (T.weight table.now function.old) function.old function.new) }
    ensures counted { OnOk result (IsNormalForm last_generic (T.rows table.now) (steps.new - steps.old) function.old function.new) }
    ensures fit { OnOk result (T.is_fit table.now function.new) }
    ensures refines { OnOk result (T.refines table.now function.old function.new) }
    ensures registers { OnOk result (function.new.next_reg + T.weight table.now function.new ≤ function.old.next_reg + T.weight table.now function.old) }
    ensures tells_stays { O.tells observer.new ≡ O.tells observer.old }
    ensures told { OnOk result (TellsAll pass (O.tells observer.old) (O.seen observer.old) (O.seen observer.new) function.old function.new) }
    ensures steps { steps.old ≤ steps.new }
{
    let mut edit = Editor::new(function, pass, observer);
    rewrite_backwards(table, &mut edit, steps)
}
