//! Whether the functions of a module are valid, and what is said where one isn't.

ghost use Rattle.std.specs.Prelude.{◌≡◌, ◌⊎◌, IfErr, IfOk, OnOk, string_bytes};
ghost use Rattle.gi_valid.specs.Typing.{phase_of};
ghost use Rattle.gi_answer.specs.Messages.{Tells, at_line};
ghost use Rattle.gi_answer.specs.Validity.{AreValidFor, IsFaultAmong, IsFaultOf, SaysFaultOf, invalid_words, message_of_invalid, of_lower_line, physical_word, register_word, stage_after, used_word};

use crate::messages::Refused;
use gi_llt::{Memory, Target};
use gi_mir::function::Function;
use gi_mir::operand::Operand;
use gi_mir::stage::Stage;
use gi_observe::Pass;
use gi_options::machine::Machine;
use gi_spelling::written::FIRST_OF_NO_BLOCK;
use gi_valid::{Fault, Invalid};
use gi_verify::{VerifyError, verify};
use std::alloc::Global;

/// The stage behind a pass.
pub fn stage_after(pass: Pass) -> Stage
    ensures { result ≡ stage_after pass }
{
    match pass {
        Pass::IrTranslator | Pass::PreCombiner => Stage::Before,
        Pass::Legalizer | Pass::PostCombiner => Stage::Legalized,
        Pass::RegBankSelect => Stage::Banked,
        Pass::Select => Stage::Selected,
    }
}

/// Words about a line.
fn at_line(alloc: Global, line: u32, words: &str) -> Result<Vec<u8>, Memory>
    ensures { IfOk result (λ message. message.items ≡ at_line line words.now) }
{
    let text = format!(in alloc; "gisel: line {line}: {words}").map_err(|_| Memory)?;
    Ok(text.into_bytes())
}

/// A virtual register, as it is written.
fn register_word(alloc: Global, number: u32) -> Result<String, Memory>
    ensures { IfOk result (λ word. string_bytes word ≡ register_word number) }
{
    format!(in alloc; "%{number}").map_err(|_| Memory)
}

/// A physical register, as it is written.
fn physical_word(alloc: Global, number: u8) -> Result<String, Memory>
    ensures { IfOk result (λ word. string_bytes word ≡ physical_word number) }
{
    format!(in alloc; "$x{number}").map_err(|_| Memory)
}

/// The register of an operand that uses one, as it is written.
fn used_word(alloc: Global, operand: Operand) -> Result<String, Memory>
    ensures { IfOk result (λ word. string_bytes word ≡ used_word operand) }
{
    match operand {
        Operand::Use(reg) => register_word(alloc, reg.0),
        Operand::Phys(number) | Operand::ImplicitUse(number) => physical_word(alloc, number),
        _ => Ok(String::new(alloc)),
    }
}

/// What is wrong, in words.
fn invalid_words(alloc: Global, what: Invalid) -> Result<String, Memory>
    ensures { IfOk result (λ words. string_bytes words ≡ invalid_words what) }
{
    match what {
        Invalid::DoubleDefinition(reg) => {
            let word = register_word(alloc, reg.0)?;
            format!(in alloc; "double definition {word}").map_err(|_| Memory)
        }
        Invalid::NotAvailable(operand) => {
            let word = used_word(alloc, operand)?;
            format!(in alloc; "not available {word}").map_err(|_| Memory)
        }
        Invalid::TypeMismatch(reg) => {
            let word = register_word(alloc, reg.0)?;
            format!(in alloc; "type mismatch {word}").map_err(|_| Memory)
        }
        Invalid::UnknownBlock(block) => {
            let number = block.saturating_sub(FIRST_OF_NO_BLOCK);
            format!(in alloc; "unknown block {number}").map_err(|_| Memory)
        }
        Invalid::PhiEntries => String::from_str(alloc, "phi entries").map_err(|_| Memory),
        Invalid::PhysicalAcross(number) => {
            let word = physical_word(alloc, number)?;
            format!(in alloc; "physical across {word}").map_err(|_| Memory)
        }
        Invalid::Terminator => String::from_str(alloc, "terminator").map_err(|_| Memory),
    }
}

/// What is said of a fault.
fn message_of(alloc: Global, fault: Fault) -> Result<Vec<u8>, Memory>
    ensures { IfOk result (λ message. message.items ≡ message_of_invalid fault) }
{
    let words = invalid_words(alloc, fault.what)?;
    at_line(alloc, fault.line, words.as_str())
}

/// The fault that is told of a function, and none of a valid one.
fn fault_of(
    alloc: Global,
    target: Target,
    stage: Stage,
    function: &Function,
) -> Result<Option<Fault>, Memory>
    requires { (target.xlen ≡ 32) ⊎ (target.xlen ≡ 64) }
    ensures { IfOk result (λ fault. IsFaultOf target.xlen (phase_of stage) function.now fault) }
{
    match verify(alloc, function, target, stage) {
        Ok(()) => Ok(None),
        Err(VerifyError::Invalid { line, what }) => Ok(Some(Fault { line, what })),
        Err(VerifyError::Memory) => Err(Memory),
    }
}

/// Of two faults that of the lower line, and of one line the first.
fn of_lower_line(first: Option<Fault>, later: Option<Fault>) -> Option<Fault>
    ensures { result ≡ of_lower_line first later }
{
    let Some(later) = later else {
        return first;
    };
    match first {
        Some(first) if first.line <= later.line => Some(first),
        _ => Some(later),
    }
}

/// The fault of the lowest line of all functions, and of one line that of the first, where one isn't valid.
fn lowest_fault(
    alloc: Global,
    target: Target,
    stage: Stage,
    functions: &[Function],
) -> Result<Option<Fault>, Memory>
    requires { (target.xlen ≡ 32) ⊎ (target.xlen ≡ 64) }
    ensures { IfOk result (λ fault. IsFaultAmong target.xlen (phase_of stage) functions.now fault) }
{
    let mut lowest = None;
    for function in functions {
        let told = fault_of(alloc, target, stage, function)?;
        lowest = of_lower_line(lowest, told);
    }
    Ok(lowest)
}

/// Why functions with this fault are refused.
fn refused(alloc: Global, fault: Fault) -> Refused
    ensures { Tells result (λ message. message ≡ message_of_invalid fault) }
{
    match message_of(alloc, fault) {
        Ok(message) => Refused::Message(message),
        Err(Memory) => Refused::Memory,
    }
}

/// Refuses functions of which one isn't valid.
pub fn check_valid(
    alloc: Global,
    machine: Machine,
    start: Pass,
    functions: &[Function],
) -> Result<(), Refused>
    ensures right { OnOk result (AreValidFor machine start functions.now) }
    ensures refused { IfErr result (λ why. Tells why (SaysFaultOf machine start functions.now)) }
{
    match lowest_fault(alloc, machine.target(), stage_after(start), functions) {
        Ok(None) => Ok(()),
        Ok(Some(fault)) => Err(refused(alloc, fault)),
        Err(Memory) => Err(Refused::Memory),
    }
}
