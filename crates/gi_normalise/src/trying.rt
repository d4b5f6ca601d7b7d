//! Trying a table at an instruction.

ghost use Rattle.std.specs.Prelude.{◌≡◌, ◌+◌, false, IfOk, None, Some, if◌then◌else◌};
ghost use Rattle.gi_mir.specs.Edit.{IsLive};
ghost use Rattle.gi_normalise.specs.NormalForms.{first_fit};
ghost use Rattle.gi_normalise.specs.Tables.{TellsAll};

use crate::steps::Steps;
use crate::table::RuleTable;
use gi_llt::Memory;
use gi_mir::block::InstrId;
use gi_observe::{ChangeObserver, Editor};
use std::sync::ledger::Ledger;

/// Tries the table at an instruction. This is the one way to do so, and counts one step.
pub(crate) fn try_at<T: RuleTable, O: ChangeObserver, L: Ledger>(
    table: &T,
    edit: &mut Editor<'_, O>,
    at: InstrId,
    steps: &mut Steps<L>,
) -> Result<bool, Memory>
    requires live { IsLive edit.old.function.now at.0 }
    requires fit { T.is_fit table.now edit.old.function.now }
    ensures same_function { edit.new.function.ghost_name ≡ edit.old.function.ghost_name }
    ensures same_observer { edit.new.observer.ghost_name ≡ edit.old.observer.ghost_name }
    ensures pass { edit.new.pass ≡ edit.old.pass }
    ensures first { IfOk result (λ fits. first_fit (T.rows table.now) edit.old.function.now at.0 ≡ (if fits then Some edit.new.function.now else None)) }
    ensures unchanged { IfOk result (λ fits. fits ≡ false → edit.new.function.now ≡ edit.old.function.now) }
    ensures tells_stays { O.tells edit.new.observer.now ≡ O.tells edit.old.observer.now }
    ensures told { IfOk result (λ fits. TellsAll edit.old.pass (O.tells edit.old.observer.now) (O.seen edit.old.observer.now) (O.seen edit.new.observer.now) edit.old.function.now edit.new.function.now) }
    ensures counted { steps.new ≡ steps.old + 1 }
{
    steps.tick();
    table.apply_first(edit, at)
}
