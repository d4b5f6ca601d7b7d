//! Whether the instructions of a module fit their stage, and what is said where one doesn't.

ghost use Rattle.std.specs.Prelude.{◌≡◌, ◌⊎◌, [], IfErr, OnOk};
ghost use Rattle.gi_rules.specs.Fitting.{IsTold};
ghost use Rattle.gi_answer.specs.Legality.{SaysIllegalOf, illegal_among, illegal_for, message_of_illegal};
ghost use Rattle.gi_answer.specs.Messages.{Tells};

use crate::messages::{Refused, not_legal};
use crate::validity::stage_after;
use gi_llt::Target;
use gi_mir::function::Function;
use gi_mir::opcode::Opcode;
use gi_mir::stage::Stage;
use gi_observe::Pass;
use gi_options::machine::Machine;
use gi_rules::fitting::{first_illegal, of_lower_line};
use std::alloc::Global;

/// The instruction of the lowest line of all functions that doesn't fit, and of one line the first.
fn lowest_illegal(target: Target, stage: Stage, functions: &[Function]) -> Option<(u32, Opcode)>
    requires { (target.xlen ≡ 32) ⊎ (target.xlen ≡ 64) }
    ensures { IsTold (illegal_among target.xlen stage functions.now) result }
{
    let mut told = None;
    for function in functions {
        told = of_lower_line(told, first_illegal(function, target, stage));
    }
    told
}

/// What is said of an instruction that doesn't fit.
fn refused(alloc: Global, line: u32, op: Opcode) -> Refused
    ensures { Tells result (λ message. message ≡ message_of_illegal (line, op)) }
{
    match not_legal(alloc, line, op.word()) {
        Ok(message) => Refused::Message(message),
        Err(_) => Refused::Memory,
    }
}

/// Refuses functions of which an instruction doesn't fit the stage behind the start.
pub fn check_legal(
    alloc: Global,
    machine: Machine,
    start: Pass,
    functions: &[Function],
) -> Result<(), Refused>
    ensures right { OnOk result (illegal_for machine start functions.now ≡ []) }
    ensures refused { IfErr result (λ why. Tells why (SaysIllegalOf machine start functions.now)) }
{
    match lowest_illegal(machine.target(), stage_after(start), functions) {
        Some((line, op)) => Err(refused(alloc, line, op)),
        None => Ok(()),
    }
}
