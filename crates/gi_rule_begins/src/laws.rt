//! What is promised of a module that was read and checked.

ghost use Rattle.std.specs.Prelude.{◌≡◌, ◌⊎◌, List, [], Some, ℕ, slice_get};
ghost use Rattle.gi_llt.specs.declared.Llt.TheVariants.{Scalar};
ghost use Rattle.gi_mir.specs.Data.{FunctionData, ModuleData};
ghost use Rattle.gi_mir.specs.declared.opcode.Opcode.TheVariants.{GenericAdd};
ghost use Rattle.gi_mir.specs.declared.operand.Kind.TheVariants.{Banked};
ghost use Rattle.gi_spelling.specs.AddExample.{function_of, generic_module, stated_text};
ghost use Rattle.gi_spelling.specs.Read.{IsReadModule};
ghost use Rattle.gi_valid.specs.Typing.{Typed};
ghost use Rattle.gi_rule_refines.specs.Stages.{IsGoodAt, phase_at};
ghost use Rattle.gi_rule_refines.specs.declared.stages.RuleStage.TheVariants as at;
ghost use Rattle.gi_rule_refines.specs.declared.stages.RuleStage.{RuleStage};
ghost use Rattle.gi_rule_begins.specs.Checked.{AreCheckedAt};

/// Each function of a module that a text is read as is good at its stage, where the checks take the module: its functions are valid
/// (gi_verify), no instruction is told as one that doesn't fit the stage (gi_rules), and its keys are those of the stage.
pub fn checked_module_is_good()
    ensures { (x : ℕ) (stage : RuleStage) (names : List (List ℕ)) (text : List ℕ) (m : ModuleData) (place : ℕ) (f : FunctionData) → (x ≡ 32) ⊎ (x ≡ 64)
        → phase_at stage ≡ Typed → IsReadModule text m → AreCheckedAt x stage m → slice_get m.functions place ≡ Some f
        → IsGoodAt x stage names f }
{}

/// A text with a sum in banks is read and checked, and so its function is good.
pub fn example_is_good()
    ensures reads { IsReadModule stated_text generic_module }
    ensures checked { AreCheckedAt 32 at.Banked generic_module }
    ensures good { IsGoodAt 32 at.Banked [] (function_of (Banked (Scalar 32)) GenericAdd) }
{}
