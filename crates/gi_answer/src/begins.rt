//! What is promised of a module that passes the checks.

ghost use Rattle.std.specs.Prelude.{◌≡◌, List, Some, ℕ, slice_get};
ghost use Rattle.gi_mir.specs.Data.{FunctionData, ModuleData};
ghost use Rattle.gi_observe.specs.declared.pass.Pass.{Pass};
ghost use Rattle.gi_options.specs.Machine.{width_of};
ghost use Rattle.gi_options.specs.Options.{OptionsData};
ghost use Rattle.gi_options.specs.declared.machine.Machine.{Machine};
ghost use Rattle.gi_valid.specs.Typing.{Typed};
ghost use Rattle.gi_rule_refines.specs.Stages.{IsGoodAt, phase_at};
ghost use Rattle.gi_answer.specs.Answers.{IsChecked};
ghost use Rattle.gi_answer.specs.RuleStages.{rule_stage_after};

/// Each function of a module that passes the checks is good at the stage behind the start, if that is before selection: rules may
/// run on it.
pub fn passing_module_is_good()
    ensures { (options : OptionsData) (read : List ℕ) (start : Pass) (machine : Machine) (m : ModuleData) (names : List (List ℕ)) (place : ℕ) (f : FunctionData)
        → IsChecked options read start machine m → phase_at (rule_stage_after start) ≡ Typed → slice_get m.functions place ≡ Some f
        → IsGoodAt (width_of machine) (rule_stage_after start) names f }
{}
