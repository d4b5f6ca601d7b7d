//! Instructions in the place of another.

ghost use Rattle.std.specs.Prelude.{◌≡◌, ◌<◌, ◌++◌, IsTrue, length, Contains, IfSome, OnOk, true};
ghost use Rattle.std.specs.List.{list_all};
ghost use Rattle.gi_mir.specs.Edit.{IsLive, block_at, ids_of};
ghost use Rattle.gi_mir.specs.Formed.{is_formed};
ghost use Rattle.gi_observe.specs.Replay.{IsReplay};
ghost use Rattle.gi_replace.specs.Applying.{all_created, creations_told, root_replaced, root_told};

use gi_llt::Memory;
use gi_mir::block::InstrId;
use gi_mir::instr::Instr;
use gi_observe::{ChangeObserver, Editor};
use std::collections::VecDeque;

/// Creates these instructions in a block, in order, each before the one that is named or last.
fn create_all<O: ChangeObserver>(
    edit: &mut Editor<'_, O>,
    block: u32,
    before: Option<InstrId>,
    made: &mut VecDeque<Instr>,
) -> Result<(), Memory>
    requires within { block < length edit.old.function.now.blocks }
    requires stands { IfSome before (λ id. Contains (ids_of (block_at edit.old.function.now block)) id.0) }
    requires formed { list_all is_formed made.old.items ≡ true }
    ensures same_function { edit.new.function.ghost_name ≡ edit.old.function.ghost_name }
    ensures same_observer { edit.new.observer.ghost_name ≡ edit.old.observer.ghost_name }
    ensures pass { edit.new.pass ≡ edit.old.pass }
    ensures ok { OnOk result (edit.new.function.now ≡ all_created block before made.old.items edit.old.function.now) }
    ensures tells_stays { O.tells edit.new.observer.now ≡ O.tells edit.old.observer.now }
    ensures told { OnOk result (IsTrue (O.tells edit.old.observer.now) → O.seen edit.new.observer.now ≡ O.seen edit.old.observer.now ++ creations_told block before made.old.items edit.old.pass edit.old.function.now) }
    ensures replay { OnOk result (IsReplay (creations_told block before made.old.items edit.old.pass edit.old.function.now) edit.old.function.now edit.new.function.now) }
{
    match made.pop_front() {
        None => Ok(()),
        Some(instr) => {
            edit.create(block, before, instr)?;
            create_all(edit, block, before, made)
        }
    }
}

/// Erases an instruction, and creates these in its place. Where memory runs out the function may be between two of these.
pub fn replace_root<O: ChangeObserver>(
    edit: &mut Editor<'_, O>,
    at: InstrId,
    made: &mut VecDeque<Instr>,
) -> Result<(), Memory>
    requires live { IsLive edit.old.function.now at.0 }
    requires formed { list_all is_formed made.old.items ≡ true }
    ensures same_function { edit.new.function.ghost_name ≡ edit.old.function.ghost_name }
    ensures same_observer { edit.new.observer.ghost_name ≡ edit.old.observer.ghost_name }
    ensures pass { edit.new.pass ≡ edit.old.pass }
    ensures ok { OnOk result (edit.new.function.now ≡ root_replaced at.0 made.old.items edit.old.function.now) }
    ensures tells_stays { O.tells edit.new.observer.now ≡ O.tells edit.old.observer.now }
    ensures told { OnOk result (IsTrue (O.tells edit.old.observer.now) → O.seen edit.new.observer.now ≡ O.seen edit.old.observer.now ++ root_told at.0 made.old.items edit.old.pass edit.old.function.now) }
    ensures replay { OnOk result (IsReplay (root_told at.0 made.old.items edit.old.pass edit.old.function.now) edit.old.function.now edit.new.function.now) }
{
    let block = edit.function().block_of(at);
    let before = edit.function().following(at);
    edit.erase(at)?;
    create_all(edit, block, before, made)
}
