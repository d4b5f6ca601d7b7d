//! What is promised at each stage at which rules run.

ghost use Rattle.std.specs.Prelude.{◌≡◌, ◌⊎◌, List, false, true, ℕ};
ghost use Rattle.gi_mir.specs.Data.{FunctionData, no_flags};
ghost use Rattle.gi_mir.specs.declared.opcode.Opcode.TheVariants as op;
ghost use Rattle.gi_refine.specs.Refinement.{RefinesUnchecked};
ghost use Rattle.gi_valid.specs.Typing.{Typed};
ghost use Rattle.gi_valid.specs.Valid.{IsValid};
ghost use Rattle.gi_change_refines.specs.Sized.{are_formed};
ghost use Rattle.gi_change_refines.specs.Numbered.{is_numbered};
ghost use Rattle.gi_rule_values.specs.Combining.{mul_to_shl};
ghost use Rattle.gi_rule_values.specs.Data.{RewriteData};
ghost use Rattle.gi_rule_values.specs.Selecting.{select_two};
ghost use Rattle.gi_rule_valid.specs.Keeping.{gives_types};
ghost use Rattle.gi_rule_valid.specs.Using.{UseData, rewritten_at};
ghost use Rattle.gi_rule_refines.specs.Good.{after_all};
ghost use Rattle.gi_rule_refines.specs.Stages.{AreMadeAt, IsGoodAt, IsGoodRewriteAt, IsMadeAt, has_banks, may_be_made, phase_at, stand_at};
ghost use Rattle.gi_rule_refines.specs.declared.stages.RuleStage.TheVariants as at;
ghost use Rattle.gi_rule_refines.specs.declared.stages.RuleStage.{RuleStage};

/// A stage at which rules run: before legalisation, legalised, with banks, while selection goes on, and selected.
#[derive(Clone, Copy, Debug, PartialEq, Eq)]
pub enum RuleStage {
    Before,
    Legalized,
    Banked,
    Selecting,
    Selected,
}

/// A good rewrite that may be made at a stage makes a function that is good there, and refines the one before.
pub fn good_rewrite_refines_at()
    ensures { (x : ℕ) (stage : RuleStage) (names : List (List ℕ)) (f : FunctionData) (id : ℕ) (u : UseData) → (x ≡ 32) ⊎ (x ≡ 64)
        → gives_types (phase_at stage) ≡ true → IsGoodAt x stage names f → IsMadeAt x stage f id u
        → IsGoodAt x stage names (rewritten_at f id u) × RefinesUnchecked x names f (rewritten_at f id u) }
{}

/// So do any number of them, one after another.
pub fn good_rewrites_refine_at()
    ensures { (x : ℕ) (stage : RuleStage) (names : List (List ℕ)) (f : FunctionData) (us : List (ℕ × UseData)) → (x ≡ 32) ⊎ (x ≡ 64)
        → gives_types (phase_at stage) ≡ true → IsGoodAt x stage names f → AreMadeAt x stage f us
        → IsGoodAt x stage names (after_all f us) × RefinesUnchecked x names f (after_all f us) }
{}

/// A row of the selector may be made while selection goes on alone, and one of the combiners no longer when all is selected.
pub fn stages_tell_apart()
    ensures selecting { may_be_made 32 at.Selecting (select_two op.GenericAdd op.Add no_flags 32) ≡ true }
    ensures banked { may_be_made 32 at.Banked (select_two op.GenericAdd op.Add no_flags 32) ≡ false }
    ensures word_on_32 { may_be_made 32 at.Selecting (select_two op.GenericAdd op.AddWord no_flags 32) ≡ false }
    ensures word_on_64 { may_be_made 64 at.Selecting (select_two op.GenericAdd op.AddWord no_flags 32) ≡ true }
    ensures before { may_be_made 32 at.Before (mul_to_shl no_flags no_flags 32 3) ≡ true }
    ensures selected { may_be_made 32 at.Selected (mul_to_shl no_flags no_flags 32 3) ≡ false }
{}

/// A valid function whose instructions are formed and stand in a stage before selection is good there.
pub fn checked_function_is_good()
    ensures { (x : ℕ) (stage : RuleStage) (names : List (List ℕ)) (f : FunctionData) → (x ≡ 32) ⊎ (x ≡ 64) → phase_at stage ≡ Typed
        → IsValid x Typed f → is_numbered f ≡ true → are_formed f ≡ true
        → f.banked ≡ has_banks stage → stand_at x stage f ≡ true
        → IsGoodAt x stage names f }
{}

/// A rewrite that is good before legalisation is good at each stage before selection.
pub fn good_rewrite_stays_good()
    ensures { (x : ℕ) (stage : RuleStage) (rewrite : RewriteData) → phase_at stage ≡ Typed → IsGoodRewriteAt x at.Before rewrite → IsGoodRewriteAt x stage rewrite }
{}

/// A function that is good with banks is good when selection begins.
pub fn selection_begins()
    ensures { (x : ℕ) (names : List (List ℕ)) (f : FunctionData) → IsGoodAt x at.Banked names f → IsGoodAt x at.Selecting names f }
{}
