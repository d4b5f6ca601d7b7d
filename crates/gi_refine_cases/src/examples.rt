//! What small functions come to, one for each kind of instruction: the meaning of Machine IR isn't empty.

ghost use Rattle.std.specs.Prelude.{ℕ, suc, [], ◌∷◌, codes};
ghost use Rattle.gi_meaning.specs.Memory.{stored};
ghost use Rattle.gi_meaning.specs.State.{Returned, Asking, Undefined};
ghost use Rattle.gi_refine_cases.specs.Examples.{answered, calls, chooses, divides, loads_misaligned, stores_and_loads};
ghost use Rattle.gi_refine.specs.Examples.{counting, names, world_of};
ghost use Rattle.gi_refine.specs.Outcomes.{ComesTo};

/// Each of these functions has the outcome that is told, within any number of block entries that suffices, and
/// no other.
pub fn examples_come_to()
    // The low byte of what was stored is loaded, and memory has the two bytes.
    ensures store_and_load { (n : ℕ) → ComesTo 32 names stores_and_loads (world_of 8 258 0 []) (suc n) (Returned (2 ∷ []) (stored 32 2 counting 8 258) 0) }
    // A load of four bytes from address 6.
    ensures misaligned { (n : ℕ) → ComesTo 32 names loads_misaligned (world_of 6 0 0 []) (suc n) Undefined }
    ensures division_by_zero { (n : ℕ) → ComesTo 32 names divides (world_of 9 0 0 []) (suc n) Undefined }
    // A branch that is taken, one that isn't, and the phi where the ways meet.
    ensures taken { (n : ℕ) → ComesTo 32 names chooses (world_of 1 20 30 []) (suc (suc n)) (Returned (20 ∷ []) counting 0) }
    ensures not_taken { (n : ℕ) → ComesTo 32 names chooses (world_of 0 20 30 []) (suc (suc (suc n))) (Returned (30 ∷ []) counting 0) }
    // A call that an event answers, and one that none does.
    ensures answered { (n : ℕ) → ComesTo 32 names calls (world_of 5 0 0 answered) (suc n) (Returned (7 ∷ []) counting 1) }
    ensures unanswered { (n : ℕ) → ComesTo 32 names calls (world_of 5 0 0 []) (suc n) (Asking (codes "g") (5 ∷ []) counting 0) }
{}
