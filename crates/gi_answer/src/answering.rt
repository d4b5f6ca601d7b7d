//! From the options and an input to the text that is written.

ghost use Rattle.std.specs.Prelude.{◌≡◌, ◌≤◌, ◌-◌, ◌^◌, ◌<◌, IfOk, IfErr, None, Some, length, true};
ghost use Rattle.gi_spelling.specs.Documents.{wrong_in};
ghost use Rattle.gi_spelling.specs.Read.{IsReadModule, IsRefusal};
ghost use Rattle.gi_mir.specs.Numbering.{numbered_module};
ghost use Rattle.gi_spelling.specs.Printed.{printed};
ghost use Rattle.gi_answer.specs.Answers.{limit, IsChecked, IsAnswer, IsWrongLine, IsNotBuilt, IsRefusedText, IsSelectedText, IsTextOf};
ghost use Rattle.gi_answer.specs.Messages.{Tells, not_built};
ghost use Rattle.gi_answer.specs.Promise.{IsCompiled};
ghost use Rattle.gi_answer.specs.Selectable.{AllSelectable};
ghost use Rattle.gi_observe.specs.Passes.{word_of};

use crate::checks::{check, slice};
use crate::legality::check_legal;
use crate::messages::{Refused, not_built, syntax, unknown};
use crate::select::select_module;
use crate::unrun::{check_built, selects};
use crate::validity::check_valid;
use gi_mir::module::Module;
use gi_mir_print::print;
use gi_mir_read::read_mir;
use gi_observe::Pass;
use gi_options::machine::Machine;
use gi_options::options::Options;
use gi_text::TextError;
use std::alloc::Global;

/// What is said of a text with a line that spells nothing.
fn wrong_text(alloc: Global, text: &[u8], why: TextError) -> Refused
    requires { IsRefusal (wrong_in text.now) why }
    ensures { Tells result (IsWrongLine text.now) }
{
    let message = match why {
        TextError::Syntax { line } => syntax(alloc, line),
        TextError::Unknown { line, start, end } => unknown(alloc, line, slice(text, start, end)),
        TextError::Memory => return Refused::Memory,
    };
    match message {
        Ok(message) => Refused::Message(message),
        Err(_) => Refused::Memory,
    }
}

/// The text of a module as it was read, with its registers numbered by first appearance.
fn printed(alloc: Global, m: &Module) -> Result<Vec<u8>, Refused>
    ensures text { IfOk result (λ text. text.items ≡ printed (numbered_module m.now)) }
    ensures memory { IfErr result (λ why. why ≡ Refused.Memory) }
{
    let mut text = Vec::new(alloc);
    match print(m, &mut text) {
        Ok(()) => Ok(text),
        Err(_) => Err(Refused::Memory),
    }
}

/// The text of what is selected.
fn selected(alloc: Global, m: Module) -> Result<Vec<u8>, Refused>
    requires { AllSelectable m.functions }
    ensures text { IfOk result (λ text. IsSelectedText m text.items) }
    ensures memory { IfErr result (λ why. why ≡ Refused.Memory) }
{
    match select_module(alloc, m) {
        Ok(selected) => printed(alloc, &selected),
        Err(_) => Err(Refused::Memory),
    }
}

/// The text of a module where selection is run, or where no pass is.
fn text_of(alloc: Global, is_selected: bool, m: Module) -> Result<Vec<u8>, Refused>
    requires { is_selected ≡ true → AllSelectable m.functions }
    ensures text { IfOk result (λ text. IsTextOf is_selected m text.items) }
    ensures memory { IfErr result (λ why. why ≡ Refused.Memory) }
{
    if is_selected {
        selected(alloc, m)
    } else {
        printed(alloc, &m)
    }
}

/// The text of a module that passes the checks.
fn passed(
    alloc: Global,
    options: &Options<'_>,
    start: Pass,
    machine: Machine,
    text: &[u8],
    m: Module,
) -> Result<Vec<u8>, Refused>
    requires within { length text.now ≤ limit }
    requires passes { IsChecked options.now text.now start machine m }
    ensures compiled { IfOk result (λ written. IsCompiled options.now text.now written.items) }
    ensures answer { IfOk result (λ written. IsAnswer options.now text.now written.items) }
    ensures refused { IfErr result (λ why. Tells why (IsNotBuilt options.now text.now)) }
{
    check_built(alloc, start, options.stop, machine, m.functions.as_slice())?;
    text_of(alloc, selects(start, options.stop, machine), m)
}

/// The machine that a module is for, where the module passes the checks.
fn checked(
    alloc: Global,
    options: &Options<'_>,
    start: Pass,
    text: &[u8],
    m: &Module,
) -> Result<Machine, Refused>
    requires within { length text.now ≤ limit }
    requires started { options.now.start ≡ Some start }
    requires reads { IsReadModule text.now m.now }
    ensures passes { IfOk result (λ machine. IsChecked options.now text.now start machine m.now) }
    ensures refused { IfErr result (λ why. Tells why (IsRefusedText options.now text.now)) }
{
    let machine = check(alloc, options.target, start, text, m)?;
    check_valid(alloc, machine, start, m.functions.as_slice())?;
    check_legal(alloc, machine, start, m.functions.as_slice())?;
    Ok(machine)
}

/// The text for a module that was read.
fn answered(
    alloc: Global,
    options: &Options<'_>,
    start: Pass,
    text: &[u8],
    m: Module,
) -> Result<Vec<u8>, Refused>
    requires within { length text.now ≤ limit }
    requires started { options.now.start ≡ Some start }
    requires reads { IsReadModule text.now m }
    ensures compiled { IfOk result (λ written. IsCompiled options.now text.now written.items) }
    ensures answer { IfOk result (λ written. IsAnswer options.now text.now written.items) }
    ensures refused { IfErr result (λ why. Tells why (IsRefusedText options.now text.now)) }
{
    match checked(alloc, options, start, text, &m) {
        Ok(machine) => passed(alloc, options, start, machine, text, m),
        Err(why) => Err(why),
    }
}

/// What is said of an input that would have to be translated.
fn untranslated(alloc: Global) -> Refused
    ensures { Tells result (λ message. message ≡ not_built (word_of Pass.IrTranslator)) }
{
    match not_built(alloc, Pass::IrTranslator.word()) {
        Ok(message) => Refused::Message(message),
        Err(_) => Refused::Memory,
    }
}

/// The text that the options ask for of an input, or why it is refused.
pub fn answer(alloc: Global, options: &Options<'_>, text: &[u8]) -> Result<Vec<u8>, Refused>
    requires within { length text.now ≤ limit }
    ensures compiled { IfOk result (λ written. IsCompiled options.now text.now written.items) }
    ensures answer { IfOk result (λ written. IsAnswer options.now text.now written.items) }
    ensures refused { IfErr result (λ why. Tells why (IsRefusedText options.now text.now)) }
{
    let Some(start) = options.start else {
        return Err(untranslated(alloc));
    };
    match read_mir(alloc, text) {
        Ok(m) => answered(alloc, options, start, text, m),
        Err(why) => Err(wrong_text(alloc, text, why)),
    }
}
