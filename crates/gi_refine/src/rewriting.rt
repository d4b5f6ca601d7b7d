//! The laws of rewriting at a place.

ghost use Rattle.std.specs.Prelude.{ℕ, List};
ghost use Rattle.gi_mir.specs.Data.{FunctionData};
ghost use Rattle.gi_refine.specs.OnePlace.{OnePlace, RewritesOnePlace};
ghost use Rattle.gi_refine.specs.Refinement.{RefinesUnchecked};
ghost use Rattle.gi_refine.specs.Replacing.{AreSameBlocks, IsReplaced, Replacement};
ghost use Rattle.gi_refine.specs.Rewriting.{IsRewritten};

/// A function with one place rewritten refines the old one: where the place follows from the states that runs of the
/// old function reach there, nothing outside it reads what is hidden, and each register that is replaced outside
/// it holds the value of its replacement wherever it is used.
pub fn one_place_follows()
    ensures { (x : ℕ) (names : List (List ℕ)) (f g : FunctionData) (p : OnePlace) → RewritesOnePlace x names f g p → RefinesUnchecked x names f g }
{}

/// Instructions replaced in one block, and nothing else changed: where the place follows from the states that runs of the
/// old function reach there, and nothing outside it touches what is hidden, the new function refines the old one.
pub fn replacement_follows()
    ensures { (x : ℕ) (names : List (List ℕ)) (f g : FunctionData) (r : Replacement) → IsReplaced x names f g r → RefinesUnchecked x names f g }
{}

/// A function that is rewritten piece by piece, where each piece owes its part from the states that runs of the old
/// function reach there, refines the old one. What is hidden may differ from point to point.
pub fn rewriting_follows()
    ensures { (x : ℕ) (names : List (List ℕ)) (f g : FunctionData) → IsRewritten x names f g → RefinesUnchecked x names f g }
{}

/// The ids of instructions, the keys and the next numbers of a function change no run.
pub fn same_blocks_follow()
    ensures { (x : ℕ) (names : List (List ℕ)) (f g : FunctionData) → AreSameBlocks f g → RefinesUnchecked x names f g }
{}
