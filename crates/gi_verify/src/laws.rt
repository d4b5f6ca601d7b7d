//! What a refusal says is the one thing that may be said.

ghost use Rattle.std.specs.Prelude.{◌≡◌, ℕ};
ghost use Rattle.gi_mir.specs.Data.{FunctionData};
ghost use Rattle.gi_valid.specs.Typing.{Phase};
ghost use Rattle.gi_valid.specs.Valid.{IsInvalid};
ghost use Rattle.gi_valid.specs.declared.invalid.Fault.{Fault};

/// One fault at most is told of a function.
pub fn one_fault_is_told()
    ensures { (x : ℕ) (phase : Phase) (f : FunctionData) (one other : Fault) → IsInvalid x phase f one → IsInvalid x phase f other → one ≡ other }
{}
