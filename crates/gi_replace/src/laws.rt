//! What is promised of the blocks.

ghost use Rattle.std.specs.Prelude.{◌≡◌, ℕ, List};
ghost use Rattle.gi_mir.specs.Data.{FunctionData, InstrData};
ghost use Rattle.gi_mir.specs.Edit.{IsLive};
ghost use Rattle.gi_mir.specs.Ids.{AreOwnIds};
ghost use Rattle.gi_replace.specs.Applying.{root_replaced};
ghost use Rattle.gi_replace.specs.InPlace.{blocks_with};

/// The instructions that are created stand in the root's place, in order, and nothing else of the blocks is changed.
pub fn root_is_replaced_in_place()
    ensures { (f : FunctionData) (id : ℕ) (made : List InstrData) → AreOwnIds f.blocks f.next_id → IsLive f id → (root_replaced id made f).blocks ≡ blocks_with f id made }
{}
