//! The law that lifts a rule on values to instructions over registers, and rules that are sound.

ghost use Rattle.std.specs.Prelude.{ℕ, ◌++◌, Bool, List};
ghost use Rattle.gi_mir.specs.Data.{FunctionData, InstrData, no_flags};
ghost use Rattle.gi_mir.specs.declared.operand.Flags.{Flags};
ghost use Rattle.gi_meaning.specs.Runs.{setting_of};
ghost use Rattle.gi_meaning.specs.State.{IsWorld, Place, State, World};
ghost use Rattle.gi_refine.specs.Agreement.{Agree, AgreeAt, setting};
ghost use Rattle.gi_refine.specs.Lifting.{AgreeKnown, AgreeReady, AllSame, IsPlaced, Placing, all_grown};
ghost use Rattle.gi_refine.specs.Reached.{IsReached, WhereReached};
ghost use Rattle.gi_refine.specs.RuleUse.{IsCertainUse, IsRuleUse};
ghost use Rattle.gi_refine.specs.Simulation.{IsFollowed};
ghost use Rattle.gi_refine.specs.ValueRules.{add_zero, remainder_to_mask, subtract_self};
ghost use Rattle.gi_refine.specs.Values.{IsCertain, IsSound, Rule};

/// A rule that is sound on values lifts to instructions that show its operations on registers: from states that
/// agree, where the old one has values of which the facts of the rule hold, what the new instructions do, the old
/// do too, or are undefined; and then the states agree but for what is hidden after.
pub fn values_follow()
    ensures { (x : ℕ) (names : List (List ℕ)) (old new : ℕ → ℕ) (world : World) (rule : Rule) (placing : Placing)
        (before after : Place → Bool) (out : ℕ → Place → Bool) (a b : List (ℕ × InstrData))
        → IsSound x world rule
        → IsPlaced x names old new world rule placing before after a b
        → IsFollowed (setting x names old) (setting x names new) world
        (AgreeReady (setting x names old) (setting x names new) world rule placing.inputs before)
        (Agree (setting x names old) (setting x names new) after)
        (AgreeAt (setting x names old) (setting x names new) out) a b }
{}

/// The same where the inputs that the first old instruction takes may have no value: then it is undefined.
pub fn known_values_follow()
    ensures { (x : ℕ) (names : List (List ℕ)) (old new : ℕ → ℕ) (world : World) (rule : Rule) (placing : Placing)
        (before after : Place → Bool) (out : ℕ → Place → Bool) (a b : List (ℕ × InstrData))
        → IsSound x world rule
        → IsPlaced x names old new world rule placing before after a b
        → IsFollowed (setting x names old) (setting x names new) world
        (AgreeKnown (setting x names old) (setting x names new) world rule placing.inputs before)
        (Agree (setting x names old) (setting x names new) after)
        (AgreeAt (setting x names old) (setting x names new) out) a b }
{}

/// A use of a rule in a function follows from the states that runs of the old function reach there: what the laws of
/// rewriting ask of a place.
pub fn rule_use_follows()
    ensures { (x : ℕ) (names : List (List ℕ)) (f g : FunctionData) (now next : Place → Bool) (out : ℕ → Place → Bool) (rule : World → Rule)
        (placing : Placing) (block : ℕ) (before old new : List (ℕ × InstrData))
        → IsRuleUse x names f g now next rule placing block before old new
        → (w : World) → IsWorld x w
        → IsFollowed (setting_of x names f) (setting_of x names g) w
        (WhereReached (setting_of x names f) w f.blocks block before (Agree (setting_of x names f) (setting_of x names g) now))
        (Agree (setting_of x names f) (setting_of x names g) next)
        (AgreeAt (setting_of x names f) (setting_of x names g) out) old new }
{}

/// Registers that a rule keeps with certainty have one value wherever runs reach behind its old instructions: what the
/// law of a rewritten place asks of uses that are replaced.
pub fn replaced_uses_hold()
    ensures { (x : ℕ) (names : List (List ℕ)) (f : FunctionData) (rule : World → Rule) (placing : Placing) (block : ℕ) (before old : List (ℕ × InstrData))
        → IsCertainUse x names f rule placing block before old
        → (w : World) → IsWorld x w
        → (state : State) → IsReached (setting_of x names f) w f.blocks block (before ++ old) state
        → AllSame state.values (all_grown placing.inputs placing.old) (rule w).kept }
{}

/// Rules that are sound at every width: a difference with itself is zero, a sum with zero is its
/// first summand, also wherever it is used, and a remainder by a power of two is a mask.
pub fn value_rules_are_sound()
    ensures subtract_self { (x : ℕ) (w : World) (flags : Flags) (n : ℕ)
        → IsSound x w (subtract_self flags n) }
    ensures add_zero { (x : ℕ) (w : World) (flags : Flags) (n : ℕ)
        → IsSound x w (add_zero flags n) }
    ensures add_zero_is_certain { (x : ℕ) (w : World) (n : ℕ) → IsCertain x w (add_zero no_flags n) }
    ensures remainder_to_mask { (x : ℕ) (w : World) (n k : ℕ) → IsSound x w (remainder_to_mask n k) }
{}
