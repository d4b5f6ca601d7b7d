//! What a row of a table answers at a place: the root and its definitions as it saw them, and what is made.

use gi_llt::Llt;
use gi_mir::opcode::Opcode;
use gi_mir::operand::{Flags, Operand};
use smallvec::SmallVec;
use std::alloc::Global;
use std::marker::Model;

/// What an operation takes. Places number values: first the inputs, and then the results of what is made, in order.
#[derive(Clone, Copy, Debug, PartialEq, Eq)]
pub enum Slot {
    /// The value at this place.
    At(u8),
    /// An operand that is no virtual register: a number, a predicate, `$x0`, a stack object or a symbol.
    Stands(Operand),
}

impl Default for Slot {
    ghost use Rattle.std.specs.Prelude.{◌≡◌};
    ghost use Rattle.gi_rule_values.specs.declared.rewrite.Slot.TheVariants.{At};

    ghost is_default = { λ slot. slot ≡ At 0 };

    fn default() -> Slot {
        Slot::At(0)
    }
}

/// An instruction without its registers: each result has a type.
#[derive(Drop)]
pub struct Operation {
    pub op: Opcode,
    pub flags: Flags,
    pub slots: SmallVec<Slot, 4, Global>,
    pub types: SmallVec<Llt, 2, Global>,
}

impl Model for Operation {
    ghost use Rattle.gi_rule_values.specs.Data.{OperationData};

    ghost Value = { OperationData };

    ghost view = { λ a. record { op = a.op; flags = a.flags; slots = a.slots.items; types = a.types.items } };
}

/// A definition that was looked at: its results stand at these places.
#[derive(Drop)]
pub struct Definition {
    pub operation: Operation,
    pub results: Vec<u8>,
}

impl Model for Definition {
    ghost use Rattle.gi_rule_values.specs.Data.{DefinitionData};

    ghost Value = { DefinitionData };

    ghost view = { λ a. record { operation = a.operation; results = a.results.items } };
}

/// What a row answers: the types of the inputs, the definitions of some of them, the root, what is made in its place, and
/// for each result of the root the place that has its value.
#[derive(Drop)]
pub struct Rewrite {
    pub inputs: Vec<Llt>,
    pub definitions: Vec<Definition>,
    pub root: Operation,
    pub made: Vec<Operation>,
    pub results: Vec<u8>,
}

impl Model for Rewrite {
    ghost use Rattle.gi_rule_values.specs.Data.{RewriteData};

    ghost Value = { RewriteData };

    ghost view = { λ a. record { inputs = a.inputs.items; definitions = a.definitions.items; root = a.root; made = a.made.items; results = a.results.items } };
}
