//! What small functions come to that choose freely, and those that call a routine of the runtime.

ghost use Rattle.std.specs.Prelude.{ℕ, suc, [], ◌∷◌};
ghost use Rattle.gi_mir.specs.declared.operand.Operand.TheVariants.{ImplicitUse};
ghost use Rattle.gi_meaning.specs.State.{Returned};
ghost use Rattle.gi_refine.specs.Examples.{counting, names, world_of, one_block};
ghost use Rattle.gi_refine.specs.Outcomes.{ComesTo, ReturnsAny, has_low_bits};
ghost use Rattle.gi_refine_cases.specs.TargetExamples.{extends_anyhow, takes_anything, adds_without_wrapping, shifts, copies_low_half, adds_low_halves, takes_upper_half, divides_by_routine};

/// Each of these functions returns any word of those that are told, and comes to nothing else.
pub fn free_choices_come_to()
    // The low byte is that of x10.
    ensures extension { (n : ℕ) → ReturnsAny 32 names (one_block extends_anyhow) (world_of 258 0 0 []) (suc n) (has_low_bits 8 32 2) counting 0 }
    ensures anything { (n : ℕ) → ReturnsAny 32 names (one_block takes_anything) (world_of 0 0 0 []) (suc n) (has_low_bits 0 32 0) counting 0 }
    // A sum that wraps and promised not to, and one that doesn't.
    ensures broken { (n : ℕ) → ReturnsAny 32 names (one_block adds_without_wrapping) (world_of 4294967295 2 0 []) (suc n) (has_low_bits 0 32 0) counting 0 }
    ensures kept { (n : ℕ) → ComesTo 32 names (one_block adds_without_wrapping) (world_of 3 2 0 []) (suc n) (Returned (5 ∷ []) counting 0) }
    ensures shift_too_far { (n : ℕ) → ReturnsAny 32 names (one_block shifts) (world_of 1 32 0 []) (suc n) (has_low_bits 0 32 0) counting 0 }
    // On RV64 the upper half of a word that a register of 32 bits is copied to is free.
    ensures low_half { (n : ℕ) → ReturnsAny 64 names (one_block copies_low_half) (world_of 7 0 0 []) (suc n) (has_low_bits 32 64 7) counting 0 }
    // A machine instruction reads such a register as any word with these low bits: the sum of low halves is one, an
    // upper half is any.
    ensures low_sum { (n : ℕ) → ComesTo 64 names (one_block adds_low_halves) (world_of 2147483647 1 0 []) (suc n) (Returned (18446744071562067968 ∷ []) counting 0) }
    ensures upper_half { (n : ℕ) → ReturnsAny 64 names (one_block takes_upper_half) (world_of 7 0 0 []) (suc n) (has_low_bits 0 32 0) counting 0 }
{}

/// The routine that divides gives its quotient in x10 and x11, any words where the divisor is zero, any word in a register
/// that a call leaves free, and leaves the others as they are.
pub fn routines_come_to()
    ensures quotient { (n : ℕ) → ComesTo 32 names (one_block (divides_by_routine (ImplicitUse 10 ∷ ImplicitUse 11 ∷ []))) (world_of 7 1 2 []) (suc n)
        (Returned (2147483651 ∷ 0 ∷ []) counting 0) }
    ensures by_zero { (n : ℕ) → ReturnsAny 32 names (one_block (divides_by_routine (ImplicitUse 10 ∷ []))) (world_of 7 1 0 []) (suc n) (has_low_bits 0 32 0) counting 0 }
    ensures left_free { (n : ℕ) → ReturnsAny 32 names (one_block (divides_by_routine (ImplicitUse 12 ∷ []))) (world_of 7 1 2 []) (suc n) (has_low_bits 0 32 0) counting 0 }
    ensures stays { (n : ℕ) → ComesTo 32 names (one_block (divides_by_routine (ImplicitUse 8 ∷ []))) (world_of 7 1 2 []) (suc n) (Returned (0 ∷ []) counting 0) }
{}
