//! Memory operands.

ghost use Rattle.std.specs.Prelude.{◌≡◌};
ghost use Rattle.gi_spelling.specs.Reading.{access_by, align_word_by, read_access, read_align, read_align_end, read_align_number, read_memory, read_memory_closed, read_memory_end, read_memory_opened, read_memory_type, read_passed_word, size_by, wrong_memory_word};

use crate::line::definition::read_type;
use crate::line::faults::{at_end, unknown};
use gi_spelling::token::{Item, What, Word};
use gi_spelling::written::{Fault, Memory};

/// A word of memory in the place of another, or a word that is none.
fn wrong_word<X: Copy>(word: Word, item: Item) -> Result<X, Fault>
    ensures { result ≡ wrong_memory_word word item }
{
    match word {
        Word::Load | Word::Store | Word::Align => Err(Fault::Syntax),
        _ => Err(unknown(item)),
    }
}

/// Whether `load` stands there, or else `store`.
fn access(item: Item) -> Result<bool, Fault>
    ensures { result ≡ access_by item.what item }
{
    match item.what {
        What::Word(Word::Load) => Ok(true),
        What::Word(Word::Store) => Ok(false),
        What::Word(word) => wrong_word(word, item),
        _ => Err(Fault::Syntax),
    }
}

/// The word `align`.
fn align_word(item: Item) -> Result<Word, Fault>
    ensures { result ≡ align_word_by item.what item }
{
    match item.what {
        What::Word(Word::Align) => Ok(Word::Align),
        What::Word(word) => wrong_word(word, item),
        _ => Err(Fault::Syntax),
    }
}

/// A number without a sign, as it is printed.
pub(crate) fn size(what: What) -> Result<u128, Fault>
    ensures { result ≡ size_by what }
{
    match what {
        What::Number(number, true) => {
            if number.negative {
                Err(Fault::Syntax)
            } else {
                Ok(number.size)
            }
        }
        _ => Err(Fault::Syntax),
    }
}

/// A token behind the comma of something that is passed over.
fn passed_word(items: &[Item]) -> Result<Memory, Fault>
    ensures { result ≡ read_passed_word items.now }
{
    match items {
        [] => Err(Fault::Syntax),
        [first, ..] => match first.what {
            What::Word(word) => wrong_word(word, *first),
            _ => Err(Fault::Syntax),
        },
    }
}

/// `)` behind the alignment.
fn read_align_end(memory: Memory, items: &[Item]) -> Result<Memory, Fault>
    ensures { result ≡ read_align_end memory items.now }
{
    match items {
        [] => Err(Fault::Syntax),
        [first, rest @ ..] => match first.what {
            What::Close => at_end(memory, rest),
            What::Comma => passed_word(rest),
            What::Word(word) => wrong_word(word, *first),
            _ => Err(Fault::Syntax),
        },
    }
}

/// `2)` behind `align`.
fn read_align_number(memory: Memory, items: &[Item]) -> Result<Memory, Fault>
    ensures { result ≡ read_align_number memory items.now }
{
    match items {
        [] => Err(Fault::Syntax),
        [first, rest @ ..] => {
            let align = Some(size(first.what)?);
            read_align_end(Memory { align, ..memory }, rest)
        }
    }
}

/// `align 2)` behind the comma.
fn read_align(memory: Memory, items: &[Item]) -> Result<Memory, Fault>
    ensures { result ≡ read_align memory items.now }
{
    match items {
        [] => Err(Fault::Syntax),
        [first, rest @ ..] => {
            let _align = align_word(*first)?;
            read_align_number(memory, rest)
        }
    }
}

/// `)` or `, align 2)` behind the type.
fn read_end(memory: Memory, items: &[Item]) -> Result<Memory, Fault>
    ensures { result ≡ read_memory_end memory items.now }
{
    match items {
        [] => Err(Fault::Syntax),
        [first, rest @ ..] => match first.what {
            What::Close => at_end(memory, rest),
            What::Comma => read_align(memory, rest),
            What::Word(word) => wrong_word(word, *first),
            _ => Err(Fault::Syntax),
        },
    }
}

/// The bracket behind the type, and what follows.
fn read_closed(memory: Memory, items: &[Item]) -> Result<Memory, Fault>
    ensures { result ≡ read_memory_closed memory items.now }
{
    match items {
        [] => Err(Fault::Syntax),
        [close, rest @ ..] => match close.what {
            What::Close => read_end(memory, rest),
            _ => Err(Fault::Syntax),
        },
    }
}

/// `s32))` behind `(load (`.
fn read_accessed(load: bool, items: &[Item]) -> Result<Memory, Fault>
    ensures { result ≡ read_memory_type load items.now }
{
    match items {
        [] => Err(Fault::Syntax),
        [first, rest @ ..] => {
            let ty = read_type(*first)?;
            let align = None;
            read_closed(Memory { load, ty, align }, rest)
        }
    }
}

/// `(s32))` behind `(load`.
fn read_opened(load: bool, items: &[Item]) -> Result<Memory, Fault>
    ensures { result ≡ read_memory_opened load items.now }
{
    match items {
        [] => Err(Fault::Syntax),
        [open, rest @ ..] => match open.what {
            What::Open => read_accessed(load, rest),
            What::Word(word) => wrong_word(word, *open),
            _ => Err(Fault::Syntax),
        },
    }
}

/// `load (s32))` behind the first bracket.
fn read_access(items: &[Item]) -> Result<Memory, Fault>
    ensures { result ≡ read_access items.now }
{
    match items {
        [] => Err(Fault::Syntax),
        [first, rest @ ..] => read_opened(access(*first)?, rest),
    }
}

/// `(load (s32), align 2)`, from all tokens behind `::`.
pub(crate) fn read_memory(items: &[Item]) -> Result<Memory, Fault>
    ensures { result ≡ read_memory items.now }
{
    match items {
        [] => Err(Fault::Syntax),
        [open, rest @ ..] => match open.what {
            What::Open => read_access(rest),
            _ => Err(Fault::Syntax),
        },
    }
}
