//! Rewriting at the first instruction in layout at which a row fits.

ghost use Rattle.std.specs.Prelude.{◌≡◌, ◌-◌, ◌+◌, ◌≤◌, ◌<◌, true, false, None, Some, IfOk, OnOk, if◌then◌else◌, length};
ghost use Rattle.gi_mir.specs.Edit.{block_at, ids_of};
ghost use Rattle.gi_normalise.specs.Layout.{first_in, first_place};
ghost use Rattle.gi_normalise.specs.NormalForms.{IsNormalForm, next_by};
ghost use Rattle.gi_normalise.specs.Tables.{IsNormalised, TellsAll};

use crate::steps::Steps;
use crate::table::RuleTable;
use crate::trying::try_at;
use gi_llt::Memory;
use gi_mir::function::Function;
use gi_observe::{ChangeObserver, Editor, Pass};
use std::sync::ledger::Ledger;

/// Tries the table at the instructions of a block, in order, until a row fits.
fn apply_in<T: RuleTable, O: ChangeObserver, L: Ledger>(
    table: &T,
    edit: &mut Editor<'_, O>,
    block: u32,
    steps: &mut Steps<L>,
) -> Result<bool, Memory>
    requires within { block < length edit.old.function.now.blocks }
    requires fit { T.is_fit table.now edit.old.function.now }
    ensures same_function { edit.new.function.ghost_name ≡ edit.old.function.ghost_name }
    ensures same_observer { edit.new.observer.ghost_name ≡ edit.old.observer.ghost_name }
    ensures pass { edit.new.pass ≡ edit.old.pass }
    ensures first { IfOk result (λ fits. first_in (T.rows table.now) edit.old.function.now (ids_of (block_at edit.old.function.now block)) ≡ (if fits then Some edit.new.function.now else None)) }
    ensures unchanged { IfOk result (λ fits. fits ≡ false → edit.new.function.now ≡ edit.old.function.now) }
    ensures tells_stays { O.tells edit.new.observer.now ≡ O.tells edit.old.observer.now }
    ensures told { IfOk result (λ fits. TellsAll edit.old.pass (O.tells edit.old.observer.now) (O.seen edit.old.observer.now) (O.seen edit.new.observer.now) edit.old.function.now edit.new.function.now) }
    ensures counted { IfOk result (λ fits. fits ≡ true → steps.old + 1 ≤ steps.new) }
    ensures steps { steps.old ≤ steps.new }
{
    let mut at = edit.function().first_in(block);
    while let Some(id) = at {
        edit.function().own_ids();
        if try_at(table, edit, id, steps)? {
            return Ok(true);
        }
        at = edit.function().following(id);
    }
    Ok(false)
}

/// Tries the table at all instructions, in layout order, until a row fits. How the place is found is this function's own: what
/// it leaves is the same for any way.
fn apply_somewhere<T: RuleTable, O: ChangeObserver, L: Ledger>(
    table: &T,
    edit: &mut Editor<'_, O>,
    steps: &mut Steps<L>,
) -> Result<bool, Memory>
    requires { T.is_fit table.now edit.old.function.now }
    ensures same_function { edit.new.function.ghost_name ≡ edit.old.function.ghost_name }
    ensures same_observer { edit.new.observer.ghost_name ≡ edit.old.observer.ghost_name }
    ensures pass { edit.new.pass ≡ edit.old.pass }
    ensures next { IfOk result (λ fits. next_by first_place (T.rows table.now) edit.old.function.now ≡ (if fits then Some edit.new.function.now else None)) }
    ensures unchanged { IfOk result (λ fits. fits ≡ false → edit.new.function.now ≡ edit.old.function.now) }
    ensures tells_stays { O.tells edit.new.observer.now ≡ O.tells edit.old.observer.now }
    ensures told { IfOk result (λ fits. TellsAll edit.old.pass (O.tells edit.old.observer.now) (O.seen edit.old.observer.now) (O.seen edit.new.observer.now) edit.old.function.now edit.new.function.now) }
    ensures counted { IfOk result (λ fits. fits ≡ true → steps.old + 1 ≤ steps.new) }
    ensures steps { steps.old ≤ steps.new }
{
    for block in 0..edit.function().block_count() {
        if apply_in(table, edit, block, steps)? {
            return Ok(true);
        }
    }
    Ok(false)
}

/// Rewrites at the first place in layout until no row fits anywhere.
fn rewrite_forwards<T: RuleTable, O: ChangeObserver, L: Ledger>(
    table: &T,
    edit: &mut Editor<'_, O>,
    steps: &mut Steps<L>,
) -> Result<(), Memory>
    requires { T.is_fit table.now edit.old.function.now }
    ensures same_function { edit.new.function.ghost_name ≡ edit.old.function.ghost_name }
    ensures same_observer { edit.new.observer.ghost_name ≡ edit.old.observer.ghost_name }
    ensures pass { edit.new.pass ≡ edit.old.pass }
    ensures tells_stays { O.tells edit.new.observer.now ≡ O.tells edit.old.observer.now }
    ensures normalised { OnOk result (IsNormalised first_place (T.rows table.now) (T.is_fit table.now) (T.refines table.now) (T.weight table.now) (steps.new - steps.old) edit.old.function.now edit.new.function.now) }
    ensures told { OnOk result (TellsAll edit.old.pass (O.tells edit.old.observer.now) (O.seen edit.old.observer.now) (O.seen edit.new.observer.now) edit.old.function.now edit.new.function.now) }
    ensures counted { steps.old ≤ steps.new }
{
    loop {
        if !apply_somewhere(table, edit, steps)? {
            return Ok(());
        }
    }
}

/// Makes of a function its normal form by a table, at the first instruction in layout at which a row fits.
pub fn normalise_forwards<T: RuleTable, O: ChangeObserver, L: Ledger>(
    table: &T,
    function: &mut Function,
    pass: Pass,
    observer: &mut O,
    steps: &mut Steps<L>,
) -> Result<(), Memory>
    requires { T.is_fit table.now function.old }
    ensures normal_form { OnOk result (IsNormalForm first_place (T.rows table.now) (T.weight table.now function.old) function.old function.new) }
    ensures counted { OnOk result (IsNormalForm first_place (T.rows table.now) (steps.new - steps.old) function.old function.new) }
    ensures fit { OnOk result (T.is_fit table.now function.new) }
    ensures refines { OnOk result (T.refines table.now function.old function.new) }
    ensures registers { OnOk result (function.new.next_reg + T.weight table.now function.new ≤ function.old.next_reg + T.weight table.now function.old) }
    ensures tells_stays { O.tells observer.new ≡ O.tells observer.old }
    ensures told { OnOk result (TellsAll pass (O.tells observer.old) (O.seen observer.old) (O.seen observer.new) function.old function.new) }
    ensures steps { steps.old ≤ steps.new }
{
    let mut edit = Editor::new(function, pass, observer);
    rewrite_forwards(table, &mut edit, steps)
}
