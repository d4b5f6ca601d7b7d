//! Which runs are built: selection on RV32, and runs that end with their start, in which no pass is run.

ghost use Rattle.std.specs.Prelude.{◌≡◌, IfErr, None, OnOk, Some};
ghost use Rattle.gi_observe.specs.Passes.{word_of};
ghost use Rattle.gi_answer.specs.Messages.{Tells, not_built, unbuilt_line};
ghost use Rattle.gi_answer.specs.Unrun.{selects, unbuilt, unrun};
ghost use Rattle.gi_answer.specs.Unselected.{blank_message, unselected};

use crate::messages::{Refused, not_built, not_built_at};
use crate::unselected::{any_blank, unselected_in};
use gi_mir::function::Function;
use gi_mir::opcode::Opcode;
use gi_observe::Pass;
use gi_options::machine::Machine;
use std::alloc::Global;

/// Whether the passes are built that are asked for: selection on RV32.
pub fn selects(start: Pass, stop: Pass, machine: Machine) -> bool
    ensures { result ≡ selects start stop machine }
{
    match start {
        Pass::RegBankSelect => match stop {
            Pass::Select => matches!(machine, Machine::Riscv32),
            _ => false,
        },
        _ => false,
    }
}

/// What is said of a pass that isn't built.
fn refused_pass(alloc: Global, pass: Pass) -> Refused
    ensures { Tells result (λ message. message ≡ not_built (word_of pass)) }
{
    match not_built(alloc, pass.word()) {
        Ok(message) => Refused::Message(message),
        Err(_) => Refused::Memory,
    }
}

/// What is said of an instruction that isn't built.
fn refused_line(alloc: Global, line: u32, op: Opcode) -> Refused
    ensures { Tells result (λ message. message ≡ unbuilt_line (line, op)) }
{
    match not_built_at(alloc, line, op.word()) {
        Ok(message) => Refused::Message(message),
        Err(_) => Refused::Memory,
    }
}

/// Refuses a run of a pass that isn't built.
fn check_run(alloc: Global, start: Pass, stop: Pass) -> Result<(), Refused>
    ensures built { OnOk result (unrun start stop ≡ None) }
    ensures refused { IfErr result (λ why. Tells why (λ message. unrun start stop ≡ Some message)) }
{
    if stop.place() == start.place() {
        Ok(())
    } else {
        Err(refused_pass(alloc, start.next()))
    }
}

/// What is said of a function of several blocks without an instruction.
fn refused_blank(alloc: Global) -> Refused
    ensures { Tells result (λ message. message ≡ blank_message) }
{
    match not_built_at(alloc, 1, Pass::Select.word()) {
        Ok(message) => Refused::Message(message),
        Err(_) => Refused::Memory,
    }
}

/// Refuses functions that aren't selected.
fn check_selected(alloc: Global, functions: &[Function]) -> Result<(), Refused>
    ensures built { OnOk result (unselected functions.now ≡ None) }
    ensures refused { IfErr result (λ why. Tells why (λ message. unselected functions.now ≡ Some message)) }
{
    if any_blank(functions) {
        return Err(refused_blank(alloc));
    }
    match unselected_in(functions) {
        Some((line, op)) => Err(refused_line(alloc, line, op)),
        None => Ok(()),
    }
}

/// Refuses functions for which something isn't built.
pub fn check_built(
    alloc: Global,
    start: Pass,
    stop: Pass,
    machine: Machine,
    functions: &[Function],
) -> Result<(), Refused>
    ensures built { OnOk result (unbuilt start stop machine functions.now ≡ None) }
    ensures refused { IfErr result (λ why. Tells why (λ message. unbuilt start stop machine functions.now ≡ Some message)) }
{
    match functions {
        [] => Ok(()),
        [_, ..] if selects(start, stop, machine) => check_selected(alloc, functions),
        [_, ..] => check_run(alloc, start, stop),
    }
}
