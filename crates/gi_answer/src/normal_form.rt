//! The law of the normal form.

ghost use Rattle.std.specs.Prelude.{◌≡◌, List};
ghost use Rattle.gi_mir.specs.Data.{FunctionData};
ghost use Rattle.gi_answer.specs.NormalForm.{IsNormalForm};
ghost use Rattle.gi_answer.specs.Rows.{Row};

/// A function has one normal form at most, whatever the table of rows.
pub fn normal_form_is_one()
    ensures { (rows : List Row) (f g h : FunctionData) → IsNormalForm rows f g → IsNormalForm rows f h → g ≡ h }
{}
