//! Where a premise of the law that lifts rules on values is broken, and no other, what it concludes fails.

ghost use Rattle.std.specs.Prelude.{◌≡◌, ℕ, ◌∷◌, [], Bool, List, false};
ghost use Rattle.gi_mir.specs.Data.{InstrData};
ghost use Rattle.gi_refine.specs.Agreement.{Agree, AgreeAt};
ghost use Rattle.gi_refine.specs.Examples.{s32, constant_in};
ghost use Rattle.gi_refine_cases.specs.IdleValues.{AgreeOfAnySize, AllBut, Followed, IsGoodUse, Premise, all_32, bytes_32, chosen_twice, clobbering, constant_made, constant_placed, copy_late, copy_of, copy_placed, copy_same, copy_summand, difference_in, extend_same, extension_of, first_of_8, first_two, free_in, free_placed, is_same_premise, quiet, sum_of, summand_alone, summand_placed, words_32};
ghost use Rattle.gi_refine_cases.specs.IdleValues.Premise.{Covered, NewFresh, NewPure, NewShown, NewWidths, OldFresh, OldPure, OldShown, OldWidths, Seen, Sound};
ghost use Rattle.gi_refine_cases.specs.IdleValuesMore.{AgreeUnread, copy_made, count_of, count_same, input_kept, load_in, load_placed, new_copy_placed, overwriting, store_dropped, store_in, store_made, store_placed};
ghost use Rattle.gi_refine.specs.Lifting.{IsReady, Placing};
ghost use Rattle.gi_refine.specs.OnePlace.{only_virtual, nothing, only};
ghost use Rattle.gi_refine.specs.Simulation.{IsFollowed};
ghost use Rattle.gi_refine.specs.Values.{Rule};

/// No premise of `values_follow` is idle.
pub fn no_premise_of_values_is_idle()
    // Where `AllBut` leaves a premise out, it asks for all others: two that leave out two premises ask for all together.
    ensures one_is_left_out { (p q : Premise) (width width' : ℕ → ℕ) (rule : Rule) (placing : Placing) (before after : ℕ → Bool) (old new : List (ℕ × InstrData))
        → is_same_premise p q ≡ false → AllBut p width width' rule placing before after old new → AllBut q width width' rule placing before after old new
        → IsGoodUse width width' rule placing before after old new }
    ensures no_more_is_asked { (p : Premise) (width width' : ℕ → ℕ) (rule : Rule) (placing : Placing) (before after : ℕ → Bool) (old new : List (ℕ × InstrData))
        → IsGoodUse width width' rule placing before after old new → AllBut p width width' rule placing before after old new }
    // The new code writes to a register that it reads later: all else holds.
    ensures clobbering_else { AllBut NewFresh all_32 all_32 copy_late clobbering nothing (only 0) (copy_of 0 ∷ []) (constant_in 0 32 0 s32 ∷ copy_of 0 ∷ []) }
    ensures clobbering { Followed words_32 words_32 copy_late clobbering nothing (only 0) (copy_of 0 ∷ []) (constant_in 0 32 0 s32 ∷ copy_of 0 ∷ []) → ⊥ }
    // The rule isn't sound: a free choice is made twice.
    ensures choices_else { AllBut Sound all_32 all_32 chosen_twice free_placed nothing first_two
        (free_in 0 ∷ difference_in 0 0 ∷ []) (free_in 0 ∷ free_in 1 ∷ difference_in 0 1 ∷ []) }
    ensures choices { Followed words_32 words_32 chosen_twice free_placed nothing first_two
        (free_in 0 ∷ difference_in 0 0 ∷ []) (free_in 0 ∷ free_in 1 ∷ difference_in 0 1 ∷ []) → ⊥ }
    // A register doesn't hold the constant that the rule's fact says.
    ensures facts_else { IsGoodUse all_32 all_32 copy_summand summand_placed nothing nothing (sum_of ∷ []) (copy_of 0 ∷ []) }
    ensures facts { Followed words_32 words_32 summand_alone summand_placed nothing nothing (sum_of ∷ []) (copy_of 0 ∷ []) → ⊥ }
    // A value doesn't fit its width: the use is that of the facts.
    ensures sizes { IsFollowed words_32 words_32 quiet (AgreeOfAnySize words_32 words_32 copy_summand (0 ∷ 1 ∷ []) nothing) (Agree words_32 words_32 (only_virtual nothing))
        (AgreeAt words_32 words_32 (λ b. only_virtual nothing)) (sum_of ∷ []) (copy_of 0 ∷ []) → ⊥ }
    // An input is hidden.
    ensures hidden_else { AllBut Seen all_32 all_32 copy_same copy_placed (only 0) (only 0) (copy_of 0 ∷ []) (copy_of 0 ∷ []) }
    ensures hidden { Followed words_32 words_32 copy_same copy_placed (only 0) (only 0) (copy_of 0 ∷ []) (copy_of 0 ∷ []) → ⊥ }
    // A result isn't hidden after.
    ensures covered_else { AllBut Covered all_32 all_32 constant_made constant_placed nothing nothing [] (constant_in 0 32 0 s32 ∷ []) }
    ensures covered { Followed words_32 words_32 constant_made constant_placed nothing nothing [] (constant_in 0 32 0 s32 ∷ []) → ⊥ }
    // An input has another width in the new function.
    ensures new_widths_else { AllBut NewWidths first_of_8 all_32 extend_same copy_placed nothing nothing (extension_of 0 ∷ []) (extension_of 0 ∷ []) }
    ensures new_widths { Followed bytes_32 words_32 extend_same copy_placed nothing nothing (extension_of 0 ∷ []) (extension_of 0 ∷ []) → ⊥ }
    // An old operation changes memory.
    ensures old_pure_else { AllBut OldPure all_32 all_32 store_dropped store_placed nothing nothing (store_in ∷ []) [] }
    ensures old_pure { Followed words_32 words_32 store_dropped store_placed nothing nothing (store_in ∷ []) [] → ⊥ }
    // A new operation changes memory.
    ensures new_pure_else { AllBut NewPure all_32 all_32 store_made load_placed nothing (only 2) (load_in ∷ []) (store_in ∷ []) }
    ensures new_pure { Followed words_32 words_32 store_made load_placed nothing (only 2) (load_in ∷ []) (store_in ∷ []) → ⊥ }
    // The old instructions are others than the rule's operations.
    ensures old_shown_else { AllBut OldShown all_32 all_32 copy_same copy_placed nothing nothing (constant_in 2 32 0 s32 ∷ []) (copy_of 0 ∷ []) }
    ensures old_shown { Followed words_32 words_32 copy_same copy_placed nothing nothing (constant_in 2 32 0 s32 ∷ []) (copy_of 0 ∷ []) → ⊥ }
    // The new instructions are others than the rule's operations.
    ensures new_shown_else { AllBut NewShown all_32 all_32 copy_same copy_placed nothing nothing (copy_of 0 ∷ []) (constant_in 2 32 0 s32 ∷ []) }
    ensures new_shown { Followed words_32 words_32 copy_same copy_placed nothing nothing (copy_of 0 ∷ []) (constant_in 2 32 0 s32 ∷ []) → ⊥ }
    // An old result overwrites an input that the rule keeps.
    ensures old_fresh_else { AllBut OldFresh all_32 all_32 input_kept overwriting nothing nothing (constant_in 0 32 0 s32 ∷ []) [] }
    ensures old_fresh { Followed words_32 words_32 input_kept overwriting nothing nothing (constant_in 0 32 0 s32 ∷ []) [] → ⊥ }
    // An input has another width in the old function.
    ensures old_widths_else { AllBut OldWidths first_of_8 all_32 count_same copy_placed nothing nothing (count_of 0 ∷ []) (count_of 0 ∷ []) }
    ensures old_widths { Followed bytes_32 words_32 count_same copy_placed nothing nothing (count_of 0 ∷ []) (count_of 0 ∷ []) → ⊥ }
    // An input has no value, and only the new instructions read it.
    ensures values_else { IsGoodUse all_32 all_32 copy_made new_copy_placed nothing (only 2) [] (copy_of 0 ∷ []) }
    ensures values { IsFollowed words_32 words_32 quiet (AgreeUnread words_32 words_32 copy_made nothing) (Agree words_32 words_32 (only_virtual (only 2)))
        (AgreeAt words_32 words_32 (λ b. only_virtual (only 2))) [] (copy_of 0 ∷ []) → ⊥ }
    // The states don't agree.
    ensures agreement_else { IsGoodUse all_32 all_32 copy_same copy_placed nothing nothing (copy_of 0 ∷ []) (copy_of 0 ∷ []) }
    ensures agreement { IsFollowed words_32 words_32 quiet (λ old new. IsReady words_32 quiet copy_same (0 ∷ []) old) (Agree words_32 words_32 (only_virtual nothing))
        (AgreeAt words_32 words_32 (λ b. only_virtual nothing)) (copy_of 0 ∷ []) (copy_of 0 ∷ []) → ⊥ }
{}
