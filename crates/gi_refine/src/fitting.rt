//! Premises of rules on values, from tests: that values fit the widths of their registers wherever runs reach, and that
//! constants hold.

ghost use Rattle.std.specs.Prelude.{◌≡◌, ◌++◌, ◌∷◌, [], true, ℕ, Bool, List, Some, slice_get};
ghost use Rattle.gi_mir.specs.Data.{BlockData, FunctionData, InstrData};
ghost use Rattle.gi_meaning.specs.Runs.{Setting, after_phis, setting_of};
ghost use Rattle.gi_meaning.specs.State.{IsWorld, Place, State, World, outside_of};
ghost use Rattle.gi_refine.specs.Constants.{HoldsOnly, only_constant};
ghost use Rattle.gi_refine.specs.Fitting.{IsFit, blocks_fit};
ghost use Rattle.gi_refine.specs.Lifting.{AreSized, Placing, Reads};
ghost use Rattle.gi_refine.specs.Reached.{IsReached};
ghost use Rattle.gi_refine.specs.RuleUse.{IsRuleUse};
ghost use Rattle.gi_refine.specs.TestedUse.{IsTestedUse};
ghost use Rattle.gi_refine.specs.ValueRules.{constant};
ghost use Rattle.gi_refine.specs.Values.{Defines, Environment, Holds, Rule};

/// In a function that passes the test, values fit wherever runs reach behind instructions at the front of a block, and so
/// inputs of a rule are of their sizes.
pub fn values_fit()
    ensures { (x : ℕ) (names : List (List ℕ)) (f : FunctionData) (w : World) → IsWorld x w → blocks_fit (setting_of x names f) f.blocks ≡ true
        → (b : ℕ) (block : BlockData) (before back : List (ℕ × InstrData)) → slice_get f.blocks b ≡ Some block → after_phis block.instrs ≡ before ++ back
        → (state : State) → IsReached (setting_of x names f) w f.blocks b before state
        → IsFit (setting_of x names f) state
        × ((registers : List ℕ) (env : Environment) → Reads (setting_of x names f).width state.values registers env → AreSized env) }
{}

/// Where nothing but one constant defines a register, it has no value or the constant wherever runs reach, and so a rule's
/// fact of that constant holds.
pub fn constants_hold()
    ensures { (s : Setting) (w : World) (blocks : List BlockData) (r value : ℕ) → only_constant r value blocks ≡ true
        → (b : ℕ) (block : BlockData) (before back : List (ℕ × InstrData)) → slice_get blocks b ≡ Some block → after_phis block.instrs ≡ before ++ back
        → (state : State) → IsReached s w blocks b before state
        → HoldsOnly r value state
        × ((registers : List ℕ) (k : ℕ) → slice_get registers k ≡ Some r → (env : Environment) → Reads s.width state.values registers env
        → Holds s.x w (outside_of state) env (Defines (constant (s.width r) value) (k ∷ []))) }
{}

/// A use of a rule whose first old operation takes each input and whose facts are of constants, in a function whose
/// values fit: all that it owes of reached states follows from tests.
pub fn tested_rules_are_used()
    ensures { (x : ℕ) (names : List (List ℕ)) (f g : FunctionData) (now next : Place → Bool) (rule : Rule) (placing : Placing) (block : ℕ) (before old new : List (ℕ × InstrData))
        → IsTestedUse x names f g now next rule placing block before old new → IsRuleUse x names f g now next (λ w. rule) placing block before old new }
{}
