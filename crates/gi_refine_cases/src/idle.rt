//! No premise of the laws of rewriting is idle.

ghost use Rattle.std.specs.Prelude.{ℕ, None};
ghost use Rattle.gi_mir.specs.Data.{FunctionData};
ghost use Rattle.gi_refine.specs.Examples.{names};
ghost use Rattle.gi_refine_cases.specs.Idle.{IsByReach, IsNotIdle, IsPieceNotIdle, IsRewrittenBut, OwesAllBut, PiecePremise, Premise};
ghost use Rattle.gi_refine.specs.OnePlace.{OnePlace, RewritesOnePlace};
ghost use Rattle.gi_refine.specs.Rewriting.{IsRewritten};

/// For each premise of `one_place_follows`, and for each of `rewriting_follows`, there is a case in
/// which all others hold and the new function doesn't refine the old one. The first law asks the same
/// of the phis of the block, of what stands before the place and of what stands behind it: the three
/// count as one premise.
pub fn no_premise_is_idle()
    ensures place { (x : ℕ) (f g : FunctionData) (p : OnePlace) → OwesAllBut None x f g p → RewritesOnePlace x names f g p }
    ensures of_place { (dropped : Premise) → IsNotIdle dropped }
    ensures pieces { (x : ℕ) (f g : FunctionData) → IsRewrittenBut None x f g → IsRewritten x names f g }
    ensures of_pieces { (dropped : PiecePremise) → IsPieceNotIdle dropped }
    // A copy of a copy is replaced by one of the value itself: the states that runs reach alone allow it.
    ensures reach { IsByReach }
{}
