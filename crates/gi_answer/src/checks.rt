//! What is asked of a module that was read: a target that is known, the keys that the start asks for, and sizes that
//! are handled.

ghost use Rattle.std.specs.Prelude.{◌≡◌, ◌-◌, ◌^◌, ◌<◌, IfOk, IfErr, Ok, Err, Some, drop, length, take};
ghost use Rattle.gi_text.specs.Cutting.{slice};
ghost use Rattle.gi_answer.specs.Checks.{check_of, checked, ir_line, keyed, named_target, sized, target_of, told_target, unquoted};
ghost use Rattle.gi_answer.specs.Keys.{wrong_in};
ghost use Rattle.gi_answer.specs.Messages.{Tells, message_of_size};

use crate::keys::wrong_in;
use crate::messages::{Refused, limit, property, unknown, width};
use gi_mir::module::Module;
use gi_mir_read::{check_sizes, ir_number, triple};
use gi_observe::Pass;
use gi_options::machine::Machine;
use gi_text::{SizeError, Token};
use std::alloc::Global;

/// The bytes from a place on.
fn bytes_from(bytes: &[u8], start: usize) -> &[u8]
    ensures { result.now ≡ drop start bytes.now }
{
    if start < bytes.len() {
        &bytes[start..]
    } else {
        &[]
    }
}

/// So many bytes, or all.
fn bytes_to(bytes: &[u8], count: usize) -> &[u8]
    ensures { result.now ≡ take count bytes.now }
{
    if count < bytes.len() {
        &bytes[..count]
    } else {
        bytes
    }
}

/// The bytes from one place up to another, as far as they are there.
pub fn slice(bytes: &[u8], start: usize, end: usize) -> &[u8]
    ensures { result.now ≡ slice start end bytes.now }
{
    bytes_to(bytes_from(bytes, start), end.saturating_sub(start))
}

/// The bytes of a quoted token less its quotes.
fn unquoted(line: &[u8], token: Token) -> &[u8]
    ensures { result.now ≡ unquoted line.now token }
{
    bytes_from(slice(line, token.start, token.end.saturating_sub(1)), 1)
}

/// A line of the IR block.
fn ir_line(m: &Module, place: usize) -> &[u8]
    ensures { result.now ≡ ir_line m.now place }
{
    match &m.ir {
        Some(lines) => match lines.get(place) {
            Some(line) => line.as_bytes(),
            None => &[],
        },
        None => &[],
    }
}

/// The machine that the IR block tells.
fn told_target(
    alloc: Global,
    text: &[u8],
    m: &Module,
    place: u32,
    token: Token,
) -> Result<Machine, Refused>
    requires { length text.now < 2 ^ 32 - 1 }
    ensures known { IfOk result (λ machine. told_target text.now m.now (Some (place, token)) ≡ Ok machine) }
    ensures refused { IfErr result (λ why. Tells why (λ message. told_target text.now m.now (Some (place, token)) ≡ Err message)) }
{
    let name = unquoted(ir_line(m, place as usize), token);
    if let Some(machine) = Machine::from_triple(name) {
        return Ok(machine);
    }
    let Ok(line) = ir_number(alloc, text, place as usize) else {
        return Err(Refused::Memory);
    };
    match unknown(alloc, line, name) {
        Ok(message) => Err(Refused::Message(message)),
        Err(_) => Err(Refused::Memory),
    }
}

/// The machine: what a word sets, or else what the IR block tells, or else RISC-V of 64 bits.
fn target(alloc: Global, word: Option<Machine>, text: &[u8], m: &Module) -> Result<Machine, Refused>
    requires { length text.now < 2 ^ 32 - 1 }
    ensures known { IfOk result (λ machine. target_of word text.now m.now ≡ Ok machine) }
    ensures refused { IfErr result (λ why. Tells why (λ message. target_of word text.now m.now ≡ Err message)) }
{
    match word {
        Some(machine) => Ok(machine),
        None => match triple(m) {
            Some((place, token)) => told_target(alloc, text, m, place, token),
            None => Ok(Machine::Riscv64),
        },
    }
}

/// Refuses a module in which a function hasn't the keys that the start asks for.
fn check_keys(alloc: Global, start: Pass, m: &Module, machine: Machine) -> Result<Machine, Refused>
    ensures right { IfOk result (λ found. keyed (wrong_in start m.now) machine ≡ Ok found) }
    ensures refused { IfErr result (λ why. Tells why (λ message. keyed (wrong_in start m.now) machine ≡ Err message)) }
{
    match wrong_in(start, m) {
        Some((name, key)) => match property(alloc, name, key) {
            Ok(message) => Err(Refused::Message(message)),
            Err(_) => Err(Refused::Memory),
        },
        None => Ok(machine),
    }
}

/// What is said of a size that isn't handled.
fn wrong_size(alloc: Global, error: SizeError) -> Refused
    ensures { Tells result (λ message. message ≡ message_of_size error) }
{
    let message = match error {
        SizeError::Width { line, bits } => width(alloc, line, bits),
        SizeError::Limit { line, number } => limit(alloc, line, number),
    };
    match message {
        Ok(message) => Refused::Message(message),
        Err(_) => Refused::Memory,
    }
}

/// Refuses a module with a size that isn't handled.
fn check_sizes_for(alloc: Global, m: &Module, machine: Machine) -> Result<Machine, Refused>
    ensures right { IfOk result (λ found. sized m.now (Ok machine) ≡ Ok found) }
    ensures refused { IfErr result (λ why. Tells why (λ message. sized m.now (Ok machine) ≡ Err message)) }
{
    match check_sizes(alloc, m, machine.target()) {
        Ok(None) => Ok(machine),
        Ok(Some(error)) => Err(wrong_size(alloc, error)),
        Err(_) => Err(Refused::Memory),
    }
}

/// The machine of a module whose target is known and whose keys are right.
fn check_head(
    alloc: Global,
    word: Option<Machine>,
    start: Pass,
    text: &[u8],
    m: &Module,
) -> Result<Machine, Refused>
    requires { length text.now < 2 ^ 32 - 1 }
    ensures right { IfOk result (λ machine. checked start m.now (target_of word text.now m.now) ≡ Ok machine) }
    ensures refused { IfErr result (λ why. Tells why (λ message. checked start m.now (target_of word text.now m.now) ≡ Err message)) }
{
    match target(alloc, word, text, m) {
        Ok(machine) => check_keys(alloc, start, m, machine),
        Err(why) => Err(why),
    }
}

/// The machine of a module that passes, or why it is refused.
pub fn check(
    alloc: Global,
    word: Option<Machine>,
    start: Pass,
    text: &[u8],
    m: &Module,
) -> Result<Machine, Refused>
    requires { length text.now < 2 ^ 32 - 1 }
    ensures right { IfOk result (λ machine. check_of word start text.now m.now ≡ Ok machine) }
    ensures refused { IfErr result (λ why. Tells why (λ message. check_of word start text.now m.now ≡ Err message)) }
{
    match check_head(alloc, word, start, text, m) {
        Ok(machine) => check_sizes_for(alloc, m, machine),
        Err(why) => Err(why),
    }
}
