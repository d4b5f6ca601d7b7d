//! Who is told the changes of a function.

ghost use Rattle.std.specs.Prelude.{◌≡◌, [], ◌∷◌, ◌++◌, Bool, true, false, IsTrue, List, OnOk, OnErr};
ghost use Rattle.gi_observe.specs.declared.change.Change.{Change};

use crate::change::Change;
use gi_llt::Memory;
use std::alloc::Global;

/// Who is told each change, once and in order.
pub trait ChangeObserver: Drop {
    // Whether it tells what it was told. Where this is false `seen` means nothing.
    ghost tells: { Self → Bool };

    // The changes that it was told.
    ghost seen: { Self → List Change };

    /// Tells it a change.
    fn told(&mut self, change: &Change) -> Result<(), Memory>
        ensures tells_stays { tells self.new ≡ tells self.old }
        ensures appended { OnOk result (IsTrue (tells self.old) → seen self.new ≡ seen self.old ++ change.now ∷ []) }
        ensures failed_leaves { OnErr result (IsTrue (tells self.old) → seen self.new ≡ seen self.old) };
}

/// Keeps all changes.
#[derive(Drop)]
pub struct Journal {
    pub changes: Vec<Change>,
}

impl Journal {
    /// A journal of no change.
    pub fn new(alloc: Global) -> Journal
        ensures { result.changes.items ≡ [] }
    {
        Journal {
            changes: Vec::new(alloc),
        }
    }
}

impl ChangeObserver for Journal {
    ghost tells = { λ journal. true };

    ghost seen = { λ journal. journal.changes.items };

    fn told(&mut self, change: &Change) -> Result<(), Memory> {
        let copied = change.copy()?;
        self.changes.push(copied).map_err(|_| Memory)
    }
}

/// Keeps nothing.
#[derive(Drop)]
pub struct Silent;

impl ChangeObserver for Silent {
    ghost tells = { λ silent. false };

    ghost seen = { λ silent. [] };

    fn told(&mut self, _change: &Change) -> Result<(), Memory> {
        Ok(())
    }
}
