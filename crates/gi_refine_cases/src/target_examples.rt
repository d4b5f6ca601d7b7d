//! What more small functions come to: generic instructions with one result, and RISC-V's.

ghost use Rattle.std.specs.Prelude.{ℕ, suc, [], ◌∷◌};
ghost use Rattle.gi_meaning.specs.Memory.{stored};
ghost use Rattle.gi_meaning.specs.State.{Returned, Going, Undefined};
ghost use Rattle.gi_refine_cases.specs.Examples.{chooses};
ghost use Rattle.gi_refine.specs.Examples.{counting, names, world_of};
ghost use Rattle.gi_refine.specs.Outcomes.{ComesTo};
ghost use Rattle.gi_refine_cases.specs.TargetExamples.{adds, multiplies, is_seven, divides_signed, reads_nothing, counts_down, returns_two, adds_words, adds_minus_one, is_below_five, upper_half, adds_low_words, extends_low_word, address_of_g, world_with_globals, stores_and_loads_words, loads_word, loads_double, compares};

/// Each of these functions of generic instructions has the outcome that is told and no other.
pub fn generic_examples_come_to()
    ensures sum { (n : ℕ) → ComesTo 32 names adds (world_of 4294967295 2 0 []) (suc n) (Returned (1 ∷ []) counting 0) }
    ensures product { (n : ℕ) → ComesTo 32 names multiplies (world_of 65536 65537 0 []) (suc n) (Returned (65536 ∷ []) counting 0) }
    ensures constant { (n : ℕ) → ComesTo 32 names is_seven (world_of 0 0 0 []) (suc n) (Returned (7 ∷ []) counting 0) }
    // With no block entry, and where another block would be entered.
    ensures at_once { ComesTo 32 names adds (world_of 1 2 0 []) 0 (Going counting 0) }
    ensures before_another { ComesTo 32 names chooses (world_of 1 20 30 []) 1 (Going counting 0) }
    // The least value by -1, and a register without a value.
    ensures signed_overflow { (n : ℕ) → ComesTo 32 names divides_signed (world_of 2147483648 4294967295 0 []) (suc n) Undefined }
    ensures no_value { (n : ℕ) → ComesTo 32 names reads_nothing (world_of 1 2 0 []) (suc n) Undefined }
    // A loop that goes around three times.
    ensures around { ComesTo 32 names counts_down (world_of 3 0 0 []) 4 (Going counting 0) }
    ensures counted_down { (n : ℕ) → ComesTo 32 names counts_down (world_of 3 0 0 []) (suc (suc (suc (suc (suc n))))) (Returned (0 ∷ []) counting 0) }
    ensures two_words { (n : ℕ) → ComesTo 32 names returns_two (world_of 5 6 0 []) (suc n) (Returned (5 ∷ 6 ∷ []) counting 0) }
{}

/// Each of these functions of RISC-V's instructions has the outcome that is told and no other.
pub fn target_examples_come_to()
    ensures sum { (n : ℕ) → ComesTo 32 names adds_words (world_of 4294967295 2 0 []) (suc n) (Returned (1 ∷ []) counting 0) }
    ensures immediate { (n : ℕ) → ComesTo 32 names adds_minus_one (world_of 0 0 0 []) (suc n) (Returned (4294967295 ∷ []) counting 0) }
    ensures below { (n : ℕ) → ComesTo 32 names is_below_five (world_of 4 0 0 []) (suc n) (Returned (1 ∷ []) counting 0) }
    ensures upper { (n : ℕ) → ComesTo 32 names upper_half (world_of 0 0 0 []) (suc n) (Returned (2147483648 ∷ []) counting 0) }
    ensures upper_64 { (n : ℕ) → ComesTo 64 names upper_half (world_of 0 0 0 []) (suc n) (Returned (18446744071562067968 ∷ []) counting 0) }
    ensures low_words { (n : ℕ) → ComesTo 64 names adds_low_words (world_of 4294967297 2147483647 0 []) (suc n) (Returned (18446744071562067968 ∷ []) counting 0) }
    ensures low_word { (n : ℕ) → ComesTo 64 names extends_low_word (world_of 4294967295 0 0 []) (suc n) (Returned (18446744073709551615 ∷ []) counting 0) }
    // RV32 has neither.
    ensures no_low_words { (n : ℕ) → ComesTo 32 names adds_low_words (world_of 1 2 0 []) (suc n) Undefined }
    ensures no_double { (n : ℕ) → ComesTo 32 names loads_double (world_of 8 0 0 []) (suc n) Undefined }
    ensures address { (n : ℕ) → ComesTo 32 names address_of_g (world_with_globals 7000) (suc n) (Returned (7000 ∷ []) counting 0) }
    // The word that was stored at 12 is loaded; a load of a word from 6; the bytes 8 to 15.
    ensures store_and_load { (n : ℕ) → ComesTo 32 names stores_and_loads_words (world_of 8 258 0 []) (suc n) (Returned (258 ∷ []) (stored 32 4 counting 12 258) 0) }
    ensures misaligned { (n : ℕ) → ComesTo 32 names loads_word (world_of 6 0 0 []) (suc n) Undefined }
    ensures double { (n : ℕ) → ComesTo 64 names loads_double (world_of 8 0 0 []) (suc n) (Returned (1084818905618843912 ∷ []) counting 0) }
    ensures taken { (n : ℕ) → ComesTo 32 names compares (world_of 7 7 9 []) (suc (suc n)) (Returned (9 ∷ []) counting 0) }
    ensures not_taken { (n : ℕ) → ComesTo 32 names compares (world_of 7 8 9 []) (suc (suc n)) (Returned (7 ∷ []) counting 0) }
{}
