//! What is promised of functions in which dead instructions are erased.

ghost use Rattle.std.specs.Prelude.{◌≡◌, ◌∷◌, List, [], false, true, ℕ};
ghost use Rattle.gi_mir.specs.Data.{FunctionData, InstrData};
ghost use Rattle.gi_mir.specs.Edit.{IsLive, without_instr};
ghost use Rattle.gi_mir.specs.Formed.{is_formed};
ghost use Rattle.gi_refine.specs.Refinement.{RefinesUnchecked};
ghost use Rattle.gi_valid.specs.Definitions.{is_erasable};
ghost use Rattle.gi_valid.specs.Typing.{Phase, Typed};
ghost use Rattle.gi_rule_refines.specs.Dead.{AreDead, can_go, is_dead, wastes, wastes_less, without_all};
ghost use Rattle.gi_rule_refines.specs.Good.{IsGood};
ghost use Rattle.gi_rule_refines.specs.Stages.{IsGoodAt};
ghost use Rattle.gi_rule_refines.specs.declared.stages.RuleStage.{RuleStage};

/// A good function without a dead instruction is good, and refines the one before: whatever the instruction computes, loads,
/// joins or copies, at every width and in every phase.
pub fn dead_instruction_erased()
    ensures good { (x : ℕ) (phase : Phase) (names : List (List ℕ)) (f : FunctionData) (id : ℕ)
        → IsGood x phase names f → IsLive f id → is_dead f id ≡ true → IsGood x phase names (without_instr f id) }
    ensures refines { (x : ℕ) (phase : Phase) (names : List (List ℕ)) (f : FunctionData) (id : ℕ)
        → IsGood x phase names f → IsLive f id → is_dead f id ≡ true → RefinesUnchecked x names f (without_instr f id) }
{}

/// So is it without any number of them, one after another.
pub fn dead_instructions_erased()
    ensures good { (x : ℕ) (phase : Phase) (names : List (List ℕ)) (f : FunctionData) (ids : List ℕ)
        → IsGood x phase names f → AreDead f ids → IsGood x phase names (without_all f ids) }
    ensures refines { (x : ℕ) (phase : Phase) (names : List (List ℕ)) (f : FunctionData) (ids : List ℕ)
        → IsGood x phase names f → AreDead f ids → RefinesUnchecked x names f (without_all f ids) }
{}

/// And it goes on to be good at its stage.
pub fn dead_instructions_erased_at()
    ensures { (x : ℕ) (stage : RuleStage) (names : List (List ℕ)) (f : FunctionData) (ids : List ℕ)
        → IsGoodAt x stage names f → AreDead f ids → IsGoodAt x stage names (without_all f ids) }
{}

/// A formed instruction that defines virtual registers alone, and is no call, does nothing else: only whether what it defines is used
/// tells whether it is dead.
pub fn erasable_instructions_go()
    ensures { (i : InstrData) → is_formed i ≡ true → can_go i ≡ is_erasable i }
{}

/// Copies of physical registers, a load, a phi, and what is dead without them; but no phi that takes its own value, no register that
/// is used, and no branch. The function is good, and so the one without them refines it.
pub fn example_is_emptied()
    ensures good { IsGood 32 Typed [] wastes }
    ensures refines { RefinesUnchecked 32 [] wastes wastes_less }
    ensures dead { AreDead wastes (8 ∷ 10 ∷ 9 ∷ 12 ∷ 14 ∷ []) }
    ensures left { without_all wastes (8 ∷ 10 ∷ 9 ∷ 12 ∷ 14 ∷ []) ≡ wastes_less }
    ensures used { is_dead wastes 9 ≡ false }
    ensures taken { is_dead wastes 14 ≡ false }
    ensures own { is_dead wastes_less 13 ≡ false }
    ensures branch { is_dead wastes_less 15 ≡ false }
{}
