//! What is promised of functions that are the same.

ghost use Rattle.std.specs.Prelude.{ℕ, List};
ghost use Rattle.std.specs.List.{AllZip};
ghost use Rattle.gi_mir.specs.Data.{FunctionData, ModuleData};
ghost use Rattle.gi_meaning.specs.Runs.{Runs};
ghost use Rattle.gi_meaning.specs.State.{World, Outcome};
ghost use Rattle.gi_spelling.specs.Same.{IsSameFunction};
ghost use Rattle.gi_spelling.specs.Spelling.{Spells};
ghost use Rattle.gi_answer.specs.Promise.{Refines};

/// Functions that are the same come to the same outcomes.
pub fn same_functions_run_alike()
    ensures there { (x : ℕ) (names others : List (List ℕ)) (f g : FunctionData) → IsSameFunction names others f g → (world : World) (n : ℕ) (outcome : Outcome) → Runs x names f world n outcome → Runs x others g world n outcome }
    ensures back { (x : ℕ) (names others : List (List ℕ)) (f g : FunctionData) → IsSameFunction names others f g → (world : World) (n : ℕ) (outcome : Outcome) → Runs x others g world n outcome → Runs x names f world n outcome }
{}

/// What is promised of the modules that two texts spell holds of whatever modules they spell.
pub fn any_spelled_modules_refine()
    ensures { (x : ℕ) (read written : List ℕ) (old new m n : ModuleData) → Spells read old → Spells written new → AllZip (Refines x old.names new.names) old.functions new.functions
        → Spells read m → Spells written n → AllZip (Refines x m.names n.names) m.functions n.functions }
{}
