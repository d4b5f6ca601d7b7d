//! The stages of a function, and what stands in each.

ghost use Rattle.std.specs.Prelude.{◌≡◌};
ghost use Rattle.gi_mir.specs.Row.{is_generic_op, standing_of};
ghost use Rattle.gi_mir.specs.Stages.{is_opcode_of, is_kind_of, is_before_selection};

use crate::entry::Standing;
use crate::opcode::Opcode;
use crate::operand::Kind;

/// A stage: before legalisation, legalised, with banks, and selected.
#[derive(Clone, Copy, Debug, PartialEq, Eq)]
pub enum Stage {
    Before,
    Legalized,
    Banked,
    Selected,
}

impl Stage {
    /// Whether an opcode stands in this stage.
    pub fn has_opcode(self, op: Opcode) -> bool
        ensures { result ≡ is_opcode_of self op }
    {
        match op.standing() {
            Standing::Both => true,
            Standing::Generic => !matches!(self, Stage::Selected),
            Standing::Target => matches!(self, Stage::Selected),
        }
    }

    /// Whether a register is of this kind in this stage.
    pub fn has_kind(self, kind: Kind) -> bool
        ensures { result ≡ is_kind_of self kind }
    {
        match self {
            Stage::Before | Stage::Legalized => matches!(kind, Kind::Generic(_)),
            Stage::Banked => matches!(kind, Kind::Banked(_)),
            Stage::Selected => matches!(kind, Kind::Class),
        }
    }
}

/// The opcodes that stand before selection alone are those whose word begins with `G_`.
#[tactic(auto, using(crate::proofs::Words::generic_by_word))]
pub fn generic_by_word(op: Opcode)
    ensures { is_generic_op op ≡ is_before_selection (standing_of op) }
{
    let _ = op;
}
