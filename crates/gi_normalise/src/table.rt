//! Tables of rows.

ghost use Rattle.std.specs.Prelude.{◌≡◌, false, IfOk, IsTrue, List, None, Some, if◌then◌else◌, ℕ};
ghost use Rattle.gi_mir.specs.Data.{FunctionData};
ghost use Rattle.gi_mir.specs.Edit.{IsLive};
ghost use Rattle.gi_normalise.specs.NormalForms.{Row, first_fit};
ghost use Rattle.gi_normalise.specs.Tables.{IsLocal, IsSound, TellsAll};

use gi_llt::Memory;
use gi_mir::block::InstrId;
use gi_observe::{ChangeObserver, Editor};

/// A table of rows, of which the first that fits at an instruction is applied there.
pub trait RuleTable {
    // The rows, in the order in which they are tried.
    ghost rows: { Self → List Row };

    // What a function has to be for a row to be applied to it: good at the pass's stage, with register numbers left.
    ghost is_fit: { Self → FunctionData → Type 0 };

    // Whether a function stands for another: what it does, the other may do.
    ghost refines: { Self → FunctionData → FunctionData → Type 0 };

    // A number that each rewriting lowers.
    ghost weight: { Self → FunctionData → ℕ };

    /// Applies the first row that fits at an instruction, and tells each change. Answers whether one fits: where none
    /// does, nothing is changed or told.
    fn apply_first<O: ChangeObserver>(
        &self,
        edit: &mut Editor<'_, O>,
        at: InstrId,
    ) -> Result<bool, Memory>
        requires live { IsLive edit.old.function.now at.0 }
        requires fit { is_fit self.now edit.old.function.now }
        ensures same_function { edit.new.function.ghost_name ≡ edit.old.function.ghost_name }
        ensures same_observer { edit.new.observer.ghost_name ≡ edit.old.observer.ghost_name }
        ensures pass { edit.new.pass ≡ edit.old.pass }
        ensures first { IfOk result (λ fits. first_fit (rows self.now) edit.old.function.now at.0 ≡ (if fits then Some edit.new.function.now else None)) }
        ensures unchanged { IfOk result (λ fits. fits ≡ false → edit.new.function.now ≡ edit.old.function.now) }
        ensures tells_stays { O.tells edit.new.observer.now ≡ O.tells edit.old.observer.now }
        ensures told { IfOk result (λ fits. TellsAll edit.old.pass (O.tells edit.old.observer.now) (O.seen edit.old.observer.now) (O.seen edit.new.observer.now) edit.old.function.now edit.new.function.now) }
        ensures untold { IfOk result (λ fits. fits ≡ false → IsTrue (O.tells edit.old.observer.now) → O.seen edit.new.observer.now ≡ O.seen edit.old.observer.now) };

    // Each step by the first fitting row keeps a function fit, refines it and lowers the weight.
    ghost sound: { (table : Self) → IsSound (rows table) (is_fit table) (refines table) (weight table) };
}

/// A table each of whose rows puts instructions into the root's place, and changes nothing else of the blocks.
pub trait LocalTable: RuleTable {
    ghost local: { (table : Self) → IsLocal (Self.rows table) (Self.is_fit table) };
}
