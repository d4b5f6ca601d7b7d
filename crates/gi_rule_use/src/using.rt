//! A rewrite at a place.

use gi_mir::operand::Reg;
use gi_rule_values::Rewrite;
use std::marker::Model;

/// A rewrite, with the registers of its inputs and of its root's results.
#[derive(Drop)]
pub struct Use {
    pub rewrite: Rewrite,
    pub inputs: Vec<Reg>,
    pub results: Vec<Reg>,
}

impl Model for Use {
    ghost use Rattle.gi_rule_use.specs.Making.{numbers_of};
    ghost use Rattle.gi_rule_valid.specs.Using.{UseData};

    ghost Value = { UseData };

    ghost view = { λ a. record { rewrite = a.rewrite; inputs = numbers_of a.inputs.items; results = numbers_of a.results.items } };
}
