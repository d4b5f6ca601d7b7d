//! What is promised of normal forms.

ghost use Rattle.std.specs.Prelude.{◌≡◌, ◌+◌, ℕ, List, Some};
ghost use Rattle.gi_mir.specs.Data.{FunctionData, InstrData};
ghost use Rattle.gi_mir.specs.Edit.{IsLive, instr_of};
ghost use Rattle.gi_normalise.specs.Layout.{IsStanding, first_place, last_generic};
ghost use Rattle.gi_normalise.specs.NormalForms.{Choice, IsNormalForm, Row};
ghost use Rattle.gi_normalise.specs.Tables.{IsInPlace, IsNormalised};
ghost use Rattle.gi_normalise.specs.Weights.{list_weight, total_weight};

use crate::table::RuleTable;

/// A function has one normal form at most, however the place is chosen.
pub fn normal_form_is_one()
    ensures { (choose : Choice) (rows : List Row) (m n : ℕ) (f g h : FunctionData) → IsNormalForm choose rows m f g → IsNormalForm choose rows n f h → g ≡ h }
{}

/// By any table a function that is fit has one: it is fit and refines the function, and its registers are within the weight.
pub fn normal_form_is_there<T: RuleTable>()
    ensures { (table : T) (choose : Choice) (f : FunctionData) → IsStanding choose → T.is_fit table f
        → (g : FunctionData) × IsNormalised choose (T.rows table) (T.is_fit table) (T.refines table) (T.weight table) (T.weight table f) f g }
{}

/// Both choices are of an instruction in the function.
pub fn choices_stand()
    ensures last { IsStanding last_generic }
    ensures first { IsStanding first_place }
{}

/// A rewriting in place adds to a weight what the new instructions weigh, and takes from it what the old one did.
pub fn rewriting_is_weighed()
    ensures { (size : InstrData → ℕ) (f g : FunctionData) (id : ℕ) (i : InstrData) → IsLive f id → instr_of f id ≡ Some i → (local : IsInPlace f id g)
        → total_weight size g + size i ≡ total_weight size f + list_weight size local.instrs }
{}
