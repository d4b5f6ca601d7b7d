//! What is promised of functions in which copies are propagated.

ghost use Rattle.std.specs.Prelude.{◌≡◌, List, [], ℕ};
ghost use Rattle.gi_mir.specs.Data.{FunctionData};
ghost use Rattle.gi_refine.specs.Refinement.{RefinesUnchecked};
ghost use Rattle.gi_valid.specs.Typing.{Phase};
ghost use Rattle.gi_rule_refines.specs.Copies.{AreCopies, CopyData, IsCopy, all_propagated, copies_in_loop, propagated, reads_the_sum};
ghost use Rattle.gi_rule_refines.specs.Good.{IsGood};
ghost use Rattle.gi_rule_refines.specs.Stages.{IsGoodAt};
ghost use Rattle.gi_rule_refines.specs.declared.stages.RuleStage.TheVariants.{Before};
ghost use Rattle.gi_rule_refines.specs.declared.stages.RuleStage.{RuleStage};

/// A good function in which each use of a copy's result is one of its source, and the copy is gone, is good, and refines the one
/// before: at every width and in every phase, where both registers are of one kind.
pub fn copy_propagated()
    ensures good { (x : ℕ) (phase : Phase) (names : List (List ℕ)) (f : FunctionData) (id d s : ℕ)
        → IsGood x phase names f → IsCopy f id d s → IsGood x phase names (propagated f id d s) }
    ensures refines { (x : ℕ) (phase : Phase) (names : List (List ℕ)) (f : FunctionData) (id d s : ℕ)
        → IsGood x phase names f → IsCopy f id d s → RefinesUnchecked x names f (propagated f id d s) }
{}

/// And it goes on to be good at its stage.
pub fn copy_propagated_at()
    ensures { (x : ℕ) (stage : RuleStage) (names : List (List ℕ)) (f : FunctionData) (id d s : ℕ)
        → IsGoodAt x stage names f → IsCopy f id d s → IsGoodAt x stage names (propagated f id d s) }
{}

/// So it is with any number of copies, one after another.
pub fn copies_propagated()
    ensures good { (x : ℕ) (phase : Phase) (names : List (List ℕ)) (f : FunctionData) (cs : List CopyData)
        → IsGood x phase names f → AreCopies f cs → IsGood x phase names (all_propagated f cs) }
    ensures good_at { (x : ℕ) (stage : RuleStage) (names : List (List ℕ)) (f : FunctionData) (cs : List CopyData)
        → IsGoodAt x stage names f → AreCopies f cs → IsGoodAt x stage names (all_propagated f cs) }
    ensures refines { (x : ℕ) (phase : Phase) (names : List (List ℕ)) (f : FunctionData) (cs : List CopyData)
        → IsGood x phase names f → AreCopies f cs → RefinesUnchecked x names f (all_propagated f cs) }
{}

/// In a loop a copy is read behind it, and by the phi before it in the next round: both read its source after it, which is another
/// value in each round. Each premise is computed.
pub fn example_copy_is_propagated()
    ensures copy { IsCopy copies_in_loop 14 4 3 }
    ensures good { IsGoodAt 32 Before [] copies_in_loop }
    ensures left { propagated copies_in_loop 14 4 3 ≡ reads_the_sum }
    ensures good_after { IsGoodAt 32 Before [] reads_the_sum }
    ensures refines { RefinesUnchecked 32 [] copies_in_loop reads_the_sum }
{}
