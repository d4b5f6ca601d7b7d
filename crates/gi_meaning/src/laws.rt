//! Laws about runs.

ghost use Rattle.std.specs.Prelude.{ℕ, List, Option};
ghost use Rattle.gi_mir.specs.Data.{BlockData, FunctionData};
ghost use Rattle.gi_mir.specs.Renaming.{IsInjective, renamed};
ghost use Rattle.gi_meaning.specs.Runs.{Enters, Runs, Setting};
ghost use Rattle.gi_meaning.specs.State.{World, Outcome, State};

/// The numbers of virtual registers don't matter to a run: where different registers get different numbers,
/// what the renamed function comes to, the function comes to.
pub fn renaming_keeps_runs()
    ensures { (number : ℕ → ℕ) → IsInjective number
        → (x : ℕ) (names : List (List ℕ)) (f : FunctionData) (world : World) (n : ℕ) (outcome : Outcome)
        → Runs x names (renamed number f) world n outcome → Runs x names f world n outcome }
{}

/// No run is stuck: in every world, from every state at the entry of every block and for every number of block entries, there
/// is not no outcome. Whether an event answers a call compares memories, which can't be decided; so the outcome isn't named.
pub fn no_run_is_stuck()
    ensures from_each_state { (s : Setting) (world : World) (blocks : List BlockData) (n : ℕ) (from : Option ℕ) (b : ℕ) (state : State)
        → ((outcome : Outcome) → Enters s world blocks n from b state outcome → ⊥) → ⊥ }
    ensures from_the_start { (x : ℕ) (names : List (List ℕ)) (f : FunctionData) (world : World) (n : ℕ)
        → ((outcome : Outcome) → Runs x names f world n outcome → ⊥) → ⊥ }
{}
