//! Types and definitions.

ghost use Rattle.std.specs.Prelude.{◌≡◌};
ghost use Rattle.gi_spelling.specs.Reading.{class_by, kind_by, read_bracketed, read_defined, read_definition, read_kind, read_opened, read_type};

use crate::line::faults::{at_end, closed, unknown};
use gi_llt::Llt;
use gi_mir::operand::{Kind, Reg};
use gi_spelling::token::{Item, RegisterClass, What, Word};
use gi_spelling::written::{Definition, Fault};

/// A type.
pub(crate) fn read_type(item: Item) -> Result<Llt, Fault>
    ensures { result ≡ read_type item }
{
    match item.what {
        What::Word(Word::Type(ty)) => Ok(ty),
        What::Word(_) => Err(unknown(item)),
        _ => Err(Fault::Syntax),
    }
}

/// `T)` behind an opening bracket, and nothing more.
fn read_opened(items: &[Item]) -> Result<Llt, Fault>
    ensures { result ≡ read_opened items.now }
{
    match items {
        [] => Err(Fault::Syntax),
        [first, rest @ ..] => closed(read_type(*first)?, rest),
    }
}

/// `(T)` and nothing more.
pub(crate) fn read_bracketed(items: &[Item]) -> Result<Llt, Fault>
    ensures { result ≡ read_bracketed items.now }
{
    match items {
        [] => Err(Fault::Syntax),
        [open, rest @ ..] => match open.what {
            What::Open => read_opened(rest),
            _ => Err(Fault::Syntax),
        },
    }
}

/// The class of a register.
pub(crate) fn read_class(item: Item) -> Result<RegisterClass, Fault>
    ensures { result ≡ class_by item.what item }
{
    match item.what {
        What::Word(Word::Class(class)) => Ok(class),
        What::Word(_) => Err(unknown(item)),
        _ => Err(Fault::Syntax),
    }
}

/// The kind of a class: a type stands behind `_` and `gprb`.
fn kind_of(class: RegisterClass, rest: &[Item]) -> Result<Kind, Fault>
    ensures { result ≡ kind_by class rest.now }
{
    match class {
        RegisterClass::Generic => Ok(Kind::Generic(read_bracketed(rest)?)),
        RegisterClass::Banked => Ok(Kind::Banked(read_bracketed(rest)?)),
        RegisterClass::General => at_end(Kind::Class, rest),
    }
}

/// A class, and its type where it wants one.
fn read_kind(items: &[Item]) -> Result<Kind, Fault>
    ensures { result ≡ read_kind items.now }
{
    match items {
        [] => Err(Fault::Syntax),
        [first, rest @ ..] => kind_of(read_class(*first)?, rest),
    }
}

/// What stands behind a register that is defined: nothing, a type, or its class.
fn read_defined(number: u32, items: &[Item]) -> Result<Definition, Fault>
    ensures { result ≡ read_defined number items.now }
{
    match items {
        [] => Ok(Definition::Bare(Reg(number))),
        [first, rest @ ..] => match first.what {
            What::Open => Ok(Definition::Typed(Reg(number), read_opened(rest)?)),
            What::Colon => Ok(Definition::Full(Reg(number), read_kind(rest)?)),
            _ => Err(Fault::Syntax),
        },
    }
}

/// A definition, from all tokens up to the next comma.
pub(crate) fn read_definition(items: &[Item]) -> Result<Definition, Fault>
    ensures { result ≡ read_definition items.now }
{
    match items {
        [] => Err(Fault::Syntax),
        [first, rest @ ..] => match first.what {
            What::Register(number) => read_defined(number, rest),
            What::Physical(number) => at_end(Definition::Physical(number), rest),
            _ => Err(Fault::Syntax),
        },
    }
}
