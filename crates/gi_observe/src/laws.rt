//! What is promised of changes that were told.

ghost use Rattle.std.specs.Prelude.{◌++◌, List};
ghost use Rattle.gi_mir.specs.Data.{FunctionData};
ghost use Rattle.gi_observe.specs.Replay.{IsReplay};
ghost use Rattle.gi_observe.specs.declared.change.Change.{Change};

/// What was told of one edit and then of another tells both.
pub fn replays_compose()
    ensures { (first more : List Change) (f g h : FunctionData) → IsReplay first f g → IsReplay more g h → IsReplay (first ++ more) f h }
{}
