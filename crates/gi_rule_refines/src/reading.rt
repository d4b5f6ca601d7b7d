//! What is promised of a function that was read.

ghost use Rattle.std.specs.Prelude.{◌≡◌, ◌⊎◌, List, [], Some, true, ℕ, slice_get};
ghost use Rattle.gi_mir.specs.Data.{FunctionData, ModuleData};
ghost use Rattle.gi_rules.specs.Fitting.{illegal_in};
ghost use Rattle.gi_spelling.specs.Read.{IsReadModule};
ghost use Rattle.gi_spelling.specs.There.{NamesBlocksThatAreThere};
ghost use Rattle.gi_valid.specs.Typing.{Typed};
ghost use Rattle.gi_valid.specs.Valid.{IsValid};
ghost use Rattle.gi_change_refines.specs.Numbered.{is_numbered};
ghost use Rattle.gi_rule_refines.specs.Stages.{IsGoodAt, are_accepted, has_banks, phase_at, registers_of};
ghost use Rattle.gi_rule_refines.specs.declared.stages.RuleStage.{RuleStage};

/// A function of a module that a text is read as is good at its stage where the verifier takes it, each instruction fits its
/// stage, and each of its types alone is among its opcode's.
pub fn read_function_is_good()
    ensures { (x : ℕ) (stage : RuleStage) (names : List (List ℕ)) (text : List ℕ) (m : ModuleData) (place : ℕ) (f : FunctionData) → (x ≡ 32) ⊎ (x ≡ 64)
        → phase_at stage ≡ Typed → IsReadModule text m → NamesBlocksThatAreThere m → slice_get m.functions place ≡ Some f
        → IsValid x Typed f → illegal_in x (registers_of stage) f ≡ [] → are_accepted x Typed f ≡ true
        → is_numbered f ≡ true → f.banked ≡ has_banks stage
        → IsGoodAt x stage names f }
{}
