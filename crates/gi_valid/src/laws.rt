//! The laws of valid functions.

ghost use Rattle.std.specs.Prelude.{◌≡◌, ◌++◌, ◌∷◌, ◌⊎◌, ℕ, List, Some, true, slice_get};
ghost use Rattle.gi_llt.specs.Llt.{width_of};
ghost use Rattle.gi_mir.specs.Data.{BlockData, FunctionData, InstrData};
ghost use Rattle.gi_mir.specs.Edit.{uses};
ghost use Rattle.gi_mir.specs.Formed.{is_formed};
ghost use Rattle.gi_mir.specs.declared.opcode.Opcode.TheVariants.{GenericZeroExtendLoad};
ghost use Rattle.gi_mir.specs.declared.operand.MemOp.{MemOp};
ghost use Rattle.gi_meaning.specs.InRow.{are_in_rows};
ghost use Rattle.gi_meaning.specs.Runs.{after_phis, phis_of, setting_of};
ghost use Rattle.gi_meaning.specs.State.{IsWorld, State, World};
ghost use Rattle.gi_refine.specs.Reached.{IsReached};
ghost use Rattle.gi_valid.specs.Available.{IsAvailable};
ghost use Rattle.gi_valid.specs.Definitions.{definition, is_pure};
ghost use Rattle.gi_valid.specs.Facts.{HoldsBelow, HoldsDefinition, IsReachedInRuns};
ghost use Rattle.gi_valid.specs.declared.invalid.Fault.{Fault};
ghost use Rattle.gi_valid.specs.Typing.{Phase};
ghost use Rattle.gi_valid.specs.Valid.{IsInvalid, IsValid};

/// In every run of a valid function, at every moment: each available register with a pure definition holds what that
/// definition may give of the present values of its operands, and one that a zero-extending load of so many bits defines
/// holds a value of so many bits. The moment is behind the phis of a block and some of its other instructions. A run is
/// undefined where it comes to an instruction that doesn't stand in its row. The definition is formed, as each instruction in a text is.
pub fn definitions_hold()
    ensures computed { (x : ℕ) (phase : Phase) (names : List (List ℕ)) (f : FunctionData) (w : World) → IsWorld x w → IsValid x phase f
        → (b : ℕ) (block : BlockData) (before back : List (ℕ × InstrData)) → slice_get f.blocks b ≡ Some block → after_phis block.instrs ≡ before ++ back
        → (r : ℕ) (d : ℕ × InstrData) → IsAvailable f b (phis_of block.instrs ++ before) r → definition f r ≡ Some d → is_pure d.1 ≡ true → is_formed d.1 ≡ true
        → (state : State) → IsReachedInRuns x names f w b before state → HoldsDefinition (setting_of x names f) w d.1 state }
    ensures extended { (x : ℕ) (phase : Phase) (names : List (List ℕ)) (f : FunctionData) (w : World) → IsWorld x w → IsValid x phase f
        → (b : ℕ) (block : BlockData) (before back : List (ℕ × InstrData)) → slice_get f.blocks b ≡ Some block → after_phis block.instrs ≡ before ++ back
        → (r : ℕ) (d : ℕ × InstrData) → IsAvailable f b (phis_of block.instrs ++ before) r → definition f r ≡ Some d
        → (m : MemOp) → d.1.op ≡ GenericZeroExtendLoad → d.1.mem ≡ Some m
        → (state : State) → IsReachedInRuns x names f w b before state → HoldsBelow r (width_of x m.ty) state }
{}

/// The same in runs in which rows aren't looked at, the first fact where the function's instructions stand in their rows.
pub fn unchecked_definitions_hold()
    ensures computed { (x : ℕ) (phase : Phase) (names : List (List ℕ)) (f : FunctionData) (w : World) → IsWorld x w → IsValid x phase f → are_in_rows x f ≡ true
        → (b : ℕ) (block : BlockData) (before back : List (ℕ × InstrData)) → slice_get f.blocks b ≡ Some block → after_phis block.instrs ≡ before ++ back
        → (r : ℕ) (d : ℕ × InstrData) → IsAvailable f b (phis_of block.instrs ++ before) r → definition f r ≡ Some d → is_pure d.1 ≡ true
        → (state : State) → IsReached (setting_of x names f) w f.blocks b before state → HoldsDefinition (setting_of x names f) w d.1 state }
    ensures extended { (x : ℕ) (phase : Phase) (names : List (List ℕ)) (f : FunctionData) (w : World) → IsWorld x w → IsValid x phase f
        → (b : ℕ) (block : BlockData) (before back : List (ℕ × InstrData)) → slice_get f.blocks b ≡ Some block → after_phis block.instrs ≡ before ++ back
        → (r : ℕ) (d : ℕ × InstrData) → IsAvailable f b (phis_of block.instrs ++ before) r → definition f r ≡ Some d
        → (m : MemOp) → d.1.op ≡ GenericZeroExtendLoad → d.1.mem ≡ Some m
        → (state : State) → IsReached (setting_of x names f) w f.blocks b before state → HoldsBelow r (width_of x m.ty) state }
{}

/// In a valid function each register that an instruction behind the phis of its block uses is available there.
pub fn uses_are_available()
    ensures { (x : ℕ) (phase : Phase) (f : FunctionData) → IsValid x phase f
        → (b : ℕ) (block : BlockData) (before : List (ℕ × InstrData)) (i : ℕ × InstrData) (after : List (ℕ × InstrData))
        → slice_get f.blocks b ≡ Some block → after_phis block.instrs ≡ before ++ i ∷ after
        → (r : ℕ) → uses r i ≡ true → IsAvailable f b (phis_of block.instrs ++ before) r }
{}

/// A valid function isn't invalid by any fault, and so what is told of a function is one thing or the other.
pub fn valid_is_not_invalid()
    ensures { (x : ℕ) (phase : Phase) (f : FunctionData) (fault : Fault) → IsValid x phase f → IsInvalid x phase f fault → ⊥ }
{}

/// Each function is valid or invalid by a fault: each of its registers has greatest sets.
pub fn each_function_is_one()
    ensures { (x : ℕ) (phase : Phase) (f : FunctionData) → IsValid x phase f ⊎ ((fault : Fault) × IsInvalid x phase f fault) }
{}
