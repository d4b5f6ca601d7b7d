//! Operands that are no definitions.

ghost use Rattle.std.specs.Prelude.{◌≡◌, ℕ, Ok};
ghost use Rattle.gi_spelling.specs.Reading.{predicate_by, read_constant, read_flagged, read_flag_closed, read_flag_opened, read_operand, read_physical, read_predicate, read_predicate_opened, read_symbol, read_use, symbol_by, symbol_flag_by, then_read, word_operand, operand_by};
ghost use Rattle.gi_spelling.specs.declared.written.Source.{Source};

use crate::line::definition::read_bracketed;
use crate::line::faults::{at_end, closed, unknown};
use gi_mir::operand::{Pred, Reg, SymbolFlag};
use gi_spelling::token::{Item, What, Word};
use gi_spelling::written::{Fault, Source};

/// `$x10` and nothing more.
fn read_physical(items: &[Item]) -> Result<u8, Fault>
    ensures { (make : ℕ → Source) → read_physical make items.now ≡ then_read result (λ number. Ok (make number)) }
{
    match items {
        [] => Err(Fault::Syntax),
        [first, rest @ ..] => match first.what {
            What::Physical(number) => at_end(number, rest),
            _ => Err(Fault::Syntax),
        },
    }
}

/// `-5`, `true` or `false` behind the type of a constant.
fn read_constant(bits: u16, items: &[Item]) -> Result<Source, Fault>
    ensures { result ≡ read_constant bits items.now }
{
    match items {
        [] => Err(Fault::Syntax),
        [first, rest @ ..] => match first.what {
            What::Number(number, plain) => at_end(Source::Constant(bits, number, plain), rest),
            What::Word(Word::True) => at_end(Source::Truth(bits, true), rest),
            What::Word(Word::False) => at_end(Source::Truth(bits, false), rest),
            _ => Err(Fault::Syntax),
        },
    }
}

/// A predicate.
fn predicate(item: Item) -> Result<Pred, Fault>
    ensures { result ≡ predicate_by item.what item }
{
    match item.what {
        What::Word(Word::Predicate(pred)) => Ok(pred),
        What::Word(_) => Err(unknown(item)),
        _ => Err(Fault::Syntax),
    }
}

/// `eq)` behind `intpred(`.
fn read_predicate_opened(items: &[Item]) -> Result<Source, Fault>
    ensures { result ≡ read_predicate_opened items.now }
{
    match items {
        [] => Err(Fault::Syntax),
        [first, rest @ ..] => closed(Source::Predicate(predicate(*first)?), rest),
    }
}

/// `(eq)` behind `intpred`.
fn read_predicate(items: &[Item]) -> Result<Source, Fault>
    ensures { result ≡ read_predicate items.now }
{
    match items {
        [] => Err(Fault::Syntax),
        [open, rest @ ..] => match open.what {
            What::Open => read_predicate_opened(rest),
            _ => Err(Fault::Syntax),
        },
    }
}

/// A symbol, and nothing more.
fn symbol(flag: SymbolFlag, item: Item, rest: &[Item]) -> Result<Source, Fault>
    ensures { result ≡ symbol_by flag item.what item rest.now }
{
    match item.what {
        What::Global => at_end(Source::Global(flag, item.start), rest),
        What::Routine(place) => at_end(Source::Routine(flag, place), rest),
        What::UnknownRoutine => Err(unknown(item)),
        _ => Err(Fault::Syntax),
    }
}

/// `@name` or `&name` behind its flag.
fn read_symbol(flag: SymbolFlag, items: &[Item]) -> Result<Source, Fault>
    ensures { result ≡ read_symbol flag items.now }
{
    match items {
        [] => Err(Fault::Syntax),
        [first, rest @ ..] => symbol(flag, *first, rest),
    }
}

/// `) @name` behind a flag.
fn read_flag_closed(flag: SymbolFlag, items: &[Item]) -> Result<Source, Fault>
    ensures { result ≡ read_flag_closed flag items.now }
{
    match items {
        [] => Err(Fault::Syntax),
        [close, rest @ ..] => match close.what {
            What::Close => read_symbol(flag, rest),
            _ => Err(Fault::Syntax),
        },
    }
}

/// `riscv-hi) @name` behind `target-flags(`.
fn read_flag_opened(items: &[Item]) -> Result<Source, Fault>
    ensures { result ≡ read_flag_opened items.now }
{
    match items {
        [] => Err(Fault::Syntax),
        [first, rest @ ..] => match first.what {
            What::Word(Word::SymbolFlag(SymbolFlag::Plain)) => Err(Fault::Syntax),
            What::Word(Word::SymbolFlag(flag)) => read_flag_closed(flag, rest),
            _ => Err(Fault::Syntax),
        },
    }
}

/// `(riscv-hi) @name` behind `target-flags`.
fn read_flagged(items: &[Item]) -> Result<Source, Fault>
    ensures { result ≡ read_flagged items.now }
{
    match items {
        [] => Err(Fault::Syntax),
        [open, rest @ ..] => match open.what {
            What::Open => read_flag_opened(rest),
            _ => Err(Fault::Syntax),
        },
    }
}

/// What stands behind a register that is read: nothing, or its type.
fn read_use(number: u32, items: &[Item]) -> Result<Source, Fault>
    ensures { result ≡ read_use number items.now }
{
    match items {
        [] => Ok(Source::Use(Reg(number))),
        _ => Ok(Source::TypedUse(Reg(number), read_bracketed(items)?)),
    }
}

/// An operand that begins with a word. `typed` says that the type of a constant has to stand there.
fn word_operand(typed: bool, word: Word, item: Item, rest: &[Item]) -> Result<Source, Fault>
    ensures { result ≡ word_operand typed word item rest.now }
{
    match word {
        Word::Implicit => Ok(Source::ImplicitUse(read_physical(rest)?)),
        Word::ImplicitDef => Ok(Source::ImplicitDef(read_physical(rest)?)),
        Word::Integer(bits) => read_constant(bits, rest),
        Word::Comparison => read_predicate(rest),
        Word::TargetFlags => read_flagged(rest),
        Word::SavedMask => at_end(Source::SavedMask, rest),
        _ if typed => Err(unknown(item)),
        _ => Err(Fault::Syntax),
    }
}

/// An operand by its first token and those behind it.
fn operand(typed: bool, item: Item, rest: &[Item]) -> Result<Source, Fault>
    ensures { result ≡ operand_by typed item.what item rest.now }
{
    match item.what {
        What::Word(word) => word_operand(typed, word, item, rest),
        What::Number(number, true) => at_end(Source::Int(number), rest),
        What::Register(number) => read_use(number, rest),
        What::Block(number) => at_end(Source::Block(number), rest),
        What::Frame(number) => at_end(Source::Frame(number), rest),
        What::Physical(number) => at_end(Source::Physical(number), rest),
        What::Global | What::Routine(_) | What::UnknownRoutine => {
            symbol(SymbolFlag::Plain, item, rest)
        }
        _ => Err(Fault::Syntax),
    }
}

/// An operand, from all tokens up to the next comma.
pub(crate) fn read_operand(typed: bool, items: &[Item]) -> Result<Source, Fault>
    ensures { result ≡ read_operand typed items.now }
{
    match items {
        [] => Err(Fault::Syntax),
        [first, rest @ ..] => operand(typed, *first, rest),
    }
}
