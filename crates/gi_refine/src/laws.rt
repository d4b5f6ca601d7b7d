//! The laws of refinement: it composes, and whole runs follow where blocks do.

ghost use Rattle.std.specs.Prelude.{◌≡◌, ◌↔◌, ◌⊎◌, ◌++◌, ◌∷◌, [], ℕ, Bool, List, Option, None, true};
ghost use Rattle.gi_mir.specs.Data.{BlockData, FunctionData, InstrData};
ghost use Rattle.gi_meaning.specs.Meaning.{meaning_of};
ghost use Rattle.gi_meaning.specs.InRow.{are_in_rows};
ghost use Rattle.gi_meaning.specs.Runs.{Allows, MayBeUndefined, Over, Progress, Runs, Setting, setting_of, written_places};
ghost use Rattle.gi_meaning.specs.State.{World, IsWorld, Undefined, Outcome, Place, State, start};
ghost use Rattle.gi_refine.specs.Agreement.{Agree, AgreeAt, AgreeEntering, AreAlike, AreSeen, all_shown, read_places, setting};
ghost use Rattle.gi_refine.specs.Refinement.{RefinesUnchecked};
ghost use Rattle.gi_refine.specs.Simulation.{AreFollowed, IsBlockFollowed, IsFollowed, RunsThrough, Stands};

/// A function may be undefined exactly where it runs to what is undefined: no prefix of the trace and no smaller number
/// of block entries adds anything.
pub fn may_be_undefined_is_undefined()
    ensures { (x : ℕ) (names : List (List ℕ)) (f : FunctionData) (world : World) (n : ℕ) → MayBeUndefined x names f world n ↔ Runs x names f world n Undefined }
{}

/// A function refines itself.
pub fn refinement_is_reflexive()
    ensures { (x : ℕ) (names : List (List ℕ)) (f : FunctionData) → RefinesUnchecked x names f f }
{}

/// What refines a refinement refines: also where the function between isn't valid.
pub fn refinement_is_transitive()
    ensures { (x : ℕ) (names : List (List ℕ)) (f g h : FunctionData) → RefinesUnchecked x names f g → RefinesUnchecked x names g h → RefinesUnchecked x names f h }
{}

/// Of two functions whose instructions all stand in their rows, each run of one that refines the other is one that the other
/// allows: to look at rows changes nothing.
pub fn refinement_in_rows_is_allowed()
    ensures { (x : ℕ) (names : List (List ℕ)) (f g : FunctionData) → are_in_rows x f ≡ true → are_in_rows x g ≡ true → RefinesUnchecked x names f g
        → (world : World) → IsWorld x world → (n : ℕ) (outcome : Outcome) → Runs x names g world n outcome → Allows x names f world n outcome }
{}

/// Two pieces of a block that follow, follow one after the other. What is hidden may vary from point to point.
pub fn pieces_follow()
    ensures { (s t : Setting) (world : World) (before middle after : Place → Bool) (out : ℕ → Place → Bool) (a b c d : List (ℕ × InstrData))
        → IsFollowed s t world (Agree s t before) (Agree s t middle) (AgreeAt s t out) a b
        → IsFollowed s t world (Agree s t middle) (Agree s t after) (AgreeAt s t out) c d
        → IsFollowed s t world (Agree s t before) (Agree s t after) (AgreeAt s t out) (a ++ c) (b ++ d) }
{}

/// An instruction that reads nothing hidden is followed by itself, and shows what it writes.
pub fn same_instruction_follows()
    ensures { (x : ℕ) (names : List (List ℕ)) (old new : ℕ → ℕ) (world : World) (hidden : Place → Bool) (i j : ℕ × InstrData)
        → j.1 ≡ i.1
        → AreSeen hidden old new (read_places i.1.operands)
        → AreAlike old new (written_places (meaning_of i.1.flags i.1.op) i.1.operands)
        → IsFollowed (setting x names old) (setting x names new) world (Agree (setting x names old) (setting x names new) hidden)
        (Agree (setting x names old) (setting x names new) (all_shown hidden (written_places (meaning_of i.1.flags i.1.op) i.1.operands)))
        (AgreeAt (setting x names old) (setting x names new) (λ b. hidden)) (i ∷ []) (j ∷ []) }
{}

/// A block follows another where its phis and its body do: whatever the new block does from a state, the old does
/// from each state that it agrees with at its entry, or it is undefined.
pub fn block_follows()
    ensures { (s t : Setting) (world : World) (entry : ℕ → Place → Bool) (middle after : Place → Bool) (out : ℕ → Place → Bool) (b : ℕ) (old new : BlockData)
        → IsBlockFollowed s t world (AgreeEntering s t entry) (Agree s t middle) (Agree s t after) (AgreeAt s t out) b old new
        → (from : Option ℕ) (state other : State) → Agree s t (entry b) state other → (end : Progress) → RunsThrough t world new from other end
        → ((old_end : Progress) × RunsThrough s world old from state old_end × Stands (Agree s t after) (AgreeAt s t out) old_end end)
        ⊎ RunsThrough s world old from state (Over Undefined) }
{}

/// Where each block follows, from states that agree at its entry to states that agree at the entry of the next,
/// the new function refines the old one: for every number of block entries, loops included.
pub fn whole_runs_follow()
    ensures { (x : ℕ) (names : List (List ℕ)) (old new : FunctionData) (entry middle after : ℕ → Place → Bool) (out : ℕ → ℕ → Place → Bool)
        → ((world : World) → IsWorld x world
        → AreFollowed (setting_of x names old) (setting_of x names new) world (AgreeEntering (setting_of x names old) (setting_of x names new) entry)
        (AgreeAt (setting_of x names old) (setting_of x names new) middle) (AgreeAt (setting_of x names old) (setting_of x names new) after)
        (λ b. AgreeAt (setting_of x names old) (setting_of x names new) (out b)) old.blocks new.blocks)
        → RefinesUnchecked x names old new }
{}
