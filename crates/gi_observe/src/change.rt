//! Changes of a function.

ghost use Rattle.std.specs.Prelude.{◌≡◌, IfOk};

use crate::pass::Pass;
use gi_llt::Memory;
use gi_mir::block::InstrId;
use gi_mir::instr::Instr;

/// What was done to an instruction.
#[derive(Drop)]
pub enum ChangeKind {
    /// It was put into this block, before the one that is named or last.
    Created {
        id: InstrId,
        block: u32,
        before: Option<InstrId>,
        instr: Instr,
    },
    /// It was taken out.
    Erased {
        id: InstrId,
        instr: Instr,
    },
    /// It became another, in its place.
    Changed {
        id: InstrId,
        old: Instr,
        new: Instr,
    },
}

impl ChangeKind {
    /// An equal one.
    pub fn copy(&self) -> Result<ChangeKind, Memory>
        ensures { IfOk result (λ copied. copied ≡ self.now) }
    {
        match self {
            ChangeKind::Created {
                id,
                block,
                before,
                instr,
            } => Ok(ChangeKind::Created {
                id: *id,
                block: *block,
                before: *before,
                instr: instr.copy()?,
            }),
            ChangeKind::Erased { id, instr } => Ok(ChangeKind::Erased {
                id: *id,
                instr: instr.copy()?,
            }),
            ChangeKind::Changed { id, old, new } => Ok(ChangeKind::Changed {
                id: *id,
                old: old.copy()?,
                new: new.copy()?,
            }),
        }
    }
}

/// A change of a function, which is told by the number of its name, in a pass.
#[derive(Drop)]
pub struct Change {
    pub function: u32,
    pub pass: Pass,
    pub kind: ChangeKind,
}

impl Change {
    /// An equal change.
    pub fn copy(&self) -> Result<Change, Memory>
        ensures { IfOk result (λ copied. copied ≡ self.now) }
    {
        Ok(Change {
            function: self.function,
            pass: self.pass,
            kind: self.kind.copy()?,
        })
    }
}
