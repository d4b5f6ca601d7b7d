//! The laws for the end of instruction selection, where registers become words.

ghost use Rattle.std.specs.Prelude.{◌≡◌, ◌≤◌, ◌∷◌, [], true, ℕ, Bool, List};
ghost use Rattle.gi_mir.specs.Data.{FunctionData, InstrData};
ghost use Rattle.gi_meaning.specs.Meaning.{meaning_of};
ghost use Rattle.gi_meaning.specs.Runs.{setting_of, written_places};
ghost use Rattle.gi_meaning.specs.State.{World, IsWorld, Place};
ghost use Rattle.gi_refine.specs.Agreement.{all_shown, setting};
ghost use Rattle.gi_refine.specs.Kept.{IsKept};
ghost use Rattle.gi_refine.specs.Refinement.{RefinesUnchecked};
ghost use Rattle.gi_refine.specs.Simulation.{IsFollowed};
ghost use Rattle.gi_refine.specs.Worded.{AgreeInWords, AreBlocksWorded, AreWorded, classed, is_worded};

/// An instruction of words is followed by itself where its registers, of at most a word's bits each, become words: the
/// old one may read the very words that the new one holds, and writes their low bits.
pub fn words_follow()
    ensures { (x : ℕ) (names : List (List ℕ)) (old new : ℕ → ℕ) (world : World) (hidden : Place → Bool) (i j : ℕ × InstrData)
        → 32 ≤ x → IsWorld x world → IsKept (λ r. r) i.1 j.1 → is_worded i.1 ≡ true
        → AreWorded (setting x names old) (setting x names new) hidden i.1.operands
        → IsFollowed (setting x names old) (setting x names new) world (AgreeInWords (setting x names old) (setting x names new) hidden)
        (AgreeInWords (setting x names old) (setting x names new) (all_shown hidden (written_places (meaning_of i.1.flags i.1.op) i.1.operands)))
        (λ b. AgreeInWords (setting x names old) (setting x names new) hidden) (i ∷ []) (j ∷ []) }
{}

/// A function each of whose instructions is of words, and none of whose registers is of more bits than a word, may have
/// class `gpr` at each definition.
pub fn classed_function_refines()
    ensures { (x : ℕ) (names : List (List ℕ)) (f : FunctionData) → 32 ≤ x → AreBlocksWorded (setting_of x names f) f.blocks → RefinesUnchecked x names f (classed f) }
{}
