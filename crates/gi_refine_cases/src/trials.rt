//! Rules of several kinds, sound on values at all widths, and used in whole functions.

ghost use Rattle.std.specs.Prelude.{◌≡◌, true, ℕ, ◌+◌, ◌<◌, List, [], ◌∷◌};
ghost use Rattle.gi_mir.specs.declared.operand.Flags.{Flags};
ghost use Rattle.gi_mir.specs.declared.opcode.Opcode.{Opcode};
ghost use Rattle.gi_meaning.specs.Argument.{Argument, Value};
ghost use Rattle.gi_meaning.specs.Given.{Given, IsGiven};
ghost use Rattle.gi_meaning.specs.Meaning.{Generic, meaning_of};
ghost use Rattle.gi_meaning.specs.Runs.{setting_of};
ghost use Rattle.gi_meaning.specs.State.{World};
ghost use Rattle.gi_refine.specs.Constants.{only_constant};
ghost use Rattle.gi_refine.specs.Examples.{names};
ghost use Rattle.gi_refine.specs.Fitting.{blocks_fit};
ghost use Rattle.gi_refine.specs.Refinement.{RefinesUnchecked};
ghost use Rattle.gi_refine_cases.specs.Examples.{chooses};
ghost use Rattle.gi_refine_cases.specs.TrialFunctions.{adds_zero, bytes_loaded, gives_summand, gives_zero, half_loaded, on_address, on_chosen, on_doubles, on_parts, product_by_eight, shift_by_three, subtracts_itself, sum_by_words, sum_of_doubles, sum_of_parts, wide_sum};
ghost use Rattle.gi_refine_cases.specs.TrialRules.{fold_constants, multiply_to_shift, narrow_add, split_load, widen_add};
ghost use Rattle.gi_refine.specs.Values.{IsSound};

/// Each of these rules is sound, at every width and with all flags (a product by the power of two that is the sign
/// aside, whose flags mean another thing as a shift).
pub fn trial_rules_hold()
    ensures fold_constants { (x : ℕ) (w : World) (op : Opcode) (flags : Flags) (gives : List ℕ → List Argument → Given) (l a m b n value : ℕ) → meaning_of flags op ≡ Generic gives
        → IsGiven (gives (n ∷ []) (Value l a ∷ Value m b ∷ [])) (value ∷ []) → IsSound x w (fold_constants op flags l a m b n value) }
    ensures multiply_to_shift { (x : ℕ) (w : World) (flags : Flags) (n k : ℕ) → k + 1 < n → IsSound x w (multiply_to_shift flags n k) }
    ensures widen_add { (x : ℕ) (w : World) (flags : Flags) (n y : ℕ) → IsSound x w (widen_add flags n y) }
    ensures narrow_add { (x : ℕ) (w : World) (flags : Flags) (n : ℕ) → IsSound x w (narrow_add flags n) }
    ensures split_load { (x : ℕ) (w : World) → IsSound x w (split_load x) }
{}

/// Rules on values used in whole functions.
pub fn trial_uses_refine()
    ensures folded { RefinesUnchecked 32 names subtracts_itself gives_zero }
    ensures replaced { RefinesUnchecked 32 names adds_zero gives_summand }
    // A sum of n bits by one of words of y + n bits, and one of twice a word's bits by sums of words.
    ensures widened { (n y : ℕ) → RefinesUnchecked (y + n) names (on_parts (y + n) n (sum_of_parts n)) (on_parts (y + n) n (wide_sum (y + n) n)) }
    ensures narrowed { (x : ℕ) → RefinesUnchecked x names (on_doubles x (sum_of_doubles x)) (on_doubles x (sum_by_words x)) }
    // A load of 16 bits from any address by two loads of bytes.
    ensures split { (x : ℕ) → RefinesUnchecked x names (on_address half_loaded) (on_address (bytes_loaded x)) }
    // A product by 8 as a shift, behind a phi and with the constant in another block.
    ensures shifted { RefinesUnchecked 32 names (on_chosen product_by_eight) (on_chosen shift_by_three) }
{}

/// Tests on which uses of rules rest pass: values fit their widths in a function with a sum and in one
/// with branches and a phi, and nothing but a constant defines the zero of the sum.
pub fn tests_pass()
    ensures sums_fit { blocks_fit (setting_of 32 names adds_zero) adds_zero.blocks ≡ true }
    ensures branches_fit { blocks_fit (setting_of 32 names chooses) chooses.blocks ≡ true }
    ensures constant { only_constant 1 0 adds_zero.blocks ≡ true }
{}
