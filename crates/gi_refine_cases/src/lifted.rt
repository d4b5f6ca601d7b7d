//! Trial rules that the laws lift to whole functions.

ghost use Rattle.std.specs.Prelude.{[], ◌∷◌};
ghost use Rattle.gi_meaning.specs.State.{Returned};
ghost use Rattle.gi_refine_cases.specs.CallTrial.{multiplies, multiplies_by_call};
ghost use Rattle.gi_refine.specs.Examples.{counting, names, world_of};
ghost use Rattle.gi_refine.specs.Outcomes.{ComesTo};
ghost use Rattle.gi_refine.specs.Refinement.{RefinesUnchecked};
ghost use Rattle.gi_refine_cases.specs.Trials.{narrow_phi, sums_low, wide_phi};
ghost use Rattle.gi_refine.specs.Worded.{classed};

/// Trial rules, each with a run of the old function that isn't undefined.
pub fn lifted_rules_hold()
    // A phi of 16 bits becomes one of 32, with an extension before the first terminator of each predecessor and a
    // truncation behind the last phi.
    ensures phi { RefinesUnchecked 32 names narrow_phi wide_phi }
    ensures phi_returns { ComesTo 32 names narrow_phi (world_of 65537 131074 0 []) 3 (Returned (1 ∷ []) counting 0) }
    // A product of 64 bits becomes a call of the runtime, which clobbers registers.
    ensures call { RefinesUnchecked 32 names multiplies multiplies_by_call }
    ensures call_returns { ComesTo 32 names multiplies (world_of 3 0 5 []) 1 (Returned (15 ∷ 0 ∷ []) counting 0) }
    // Registers of 32 bits become words on RV64.
    ensures words { RefinesUnchecked 64 names sums_low (classed sums_low) }
{}
