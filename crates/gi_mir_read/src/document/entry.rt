//! Entries of `registers` and `stack`.

ghost use Rattle.std.specs.Prelude.{◌≡◌, ◌+◌, ◌-◌, ◌^◌, ◌<◌, ◌≤◌, Ok, IfOk, length};
ghost use Rattle.gi_spelling.specs.Entries.{brace_by, colon_by, counts, dash_by, entry, has_all, has_field, is_at_end, key_by, no_fields, passing_by, read_entry, separator_by, step, steps, value_by, whole_entry};
ghost use Rattle.gi_spelling.specs.Documents.{entry_front};
ghost use Rattle.gi_spelling.specs.Reading.{then_read};
ghost use Rattle.gi_spelling.specs.declared.written.EntryState.TheVariants.{AtSeparator};
ghost use Rattle.gi_mir_read.specs.Documents.Depths.{depth_of};

use crate::line::definition::read_class;
use crate::line::memory::size;
use gi_spelling::token::{Item, What, Word};
use gi_spelling::written::{Entry, EntryKind, EntryState, Fault, Fields};

/// No fields.
fn no_fields() -> Fields
    ensures { result ≡ no_fields }
{
    Fields {
        id: None,
        class: None,
        size: None,
        alignment: None,
    }
}

/// An entry of these fields, at this state.
fn at(state: EntryState, fields: Fields) -> Entry
    ensures { result ≡ entry state fields }
{
    Entry { state, fields }
}

/// Whether a field counts.
fn counts(kind: EntryKind, word: Word) -> bool
    ensures { result ≡ counts kind word }
{
    match word {
        Word::Id => true,
        Word::ClassField => matches!(kind, EntryKind::Register),
        Word::Size | Word::Alignment => matches!(kind, EntryKind::Object),
        _ => false,
    }
}

/// Whether a field is there.
fn has_field(fields: Fields, word: Word) -> bool
    ensures { result ≡ has_field fields word }
{
    match word {
        Word::Id => fields.id.is_some(),
        Word::ClassField => fields.class.is_some(),
        Word::Size => fields.size.is_some(),
        Word::Alignment => fields.alignment.is_some(),
        _ => false,
    }
}

/// The dash at the front.
fn dash(fields: Fields, what: What) -> Result<Entry, Fault>
    ensures { result ≡ dash_by fields what }
{
    match what {
        What::Minus => Ok(at(EntryState::AtBrace, fields)),
        _ => Err(Fault::Syntax),
    }
}

/// The brace behind the dash.
fn brace(fields: Fields, what: What) -> Result<Entry, Fault>
    ensures { result ≡ brace_by fields what }
{
    match what {
        What::OpenBrace => Ok(at(EntryState::AtKey, fields)),
        _ => Err(Fault::Syntax),
    }
}

/// The name of a field. One that counts stands once.
fn key(kind: EntryKind, fields: Fields, what: What) -> Result<Entry, Fault>
    ensures { result ≡ key_by kind fields what }
{
    match what {
        What::Word(word) => {
            if counts(kind, word) && has_field(fields, word) {
                Err(Fault::Syntax)
            } else {
                Ok(at(EntryState::AtColon(word), fields))
            }
        }
        _ => Err(Fault::Syntax),
    }
}

/// The colon behind the name of a field.
fn colon(kind: EntryKind, fields: Fields, word: Word, what: What) -> Result<Entry, Fault>
    ensures { result ≡ colon_by kind fields word what }
{
    match what {
        What::Colon => {
            if counts(kind, word) {
                Ok(at(EntryState::AtValue(word), fields))
            } else {
                Ok(at(EntryState::Passing(0), fields))
            }
        }
        _ => Err(Fault::Syntax),
    }
}

/// The fields with the value of one more.
fn with_value(fields: Fields, word: Word, item: Item) -> Result<Fields, Fault>
    ensures { then_read result (λ more. Ok (entry AtSeparator more)) ≡ value_by fields word item }
{
    match word {
        Word::Id => Ok(Fields {
            id: Some(size(item.what)?),
            ..fields
        }),
        Word::ClassField => Ok(Fields {
            class: Some(read_class(item)?),
            ..fields
        }),
        Word::Size => Ok(Fields {
            size: Some(size(item.what)?),
            ..fields
        }),
        Word::Alignment => Ok(Fields {
            alignment: Some(size(item.what)?),
            ..fields
        }),
        _ => Err(Fault::Syntax),
    }
}

/// The value of a field.
fn value(fields: Fields, word: Word, item: Item) -> Result<Entry, Fault>
    ensures { result ≡ value_by fields word item }
{
    Ok(at(EntryState::AtSeparator, with_value(fields, word, item)?))
}

/// What stands behind the value of a field.
fn separator(fields: Fields, what: What) -> Result<Entry, Fault>
    ensures { result ≡ separator_by fields what }
{
    match what {
        What::Comma => Ok(at(EntryState::AtKey, fields)),
        What::CloseBrace => Ok(at(EntryState::AtEnd, fields)),
        _ => Err(Fault::Syntax),
    }
}

/// A token of a value that is passed over: brackets nest.
fn passing(fields: Fields, depth: u128, what: What) -> Result<Entry, Fault>
    requires { depth < 2 ^ 128 - 1 }
    ensures value { result ≡ passing_by fields depth what }
    ensures depth { IfOk result (λ next. depth_of next.state ≤ depth + 1) }
{
    match what {
        What::Open | What::OpenBrace | What::OpenSquare => {
            Ok(at(EntryState::Passing(depth + 1), fields))
        }
        What::CloseBrace if depth == 0 => Ok(at(EntryState::AtEnd, fields)),
        What::Close | What::CloseSquare if depth == 0 => Err(Fault::Syntax),
        What::Close | What::CloseBrace | What::CloseSquare => {
            Ok(at(EntryState::Passing(depth - 1), fields))
        }
        What::Comma if depth == 0 => Ok(at(EntryState::AtKey, fields)),
        _ => Ok(at(EntryState::Passing(depth), fields)),
    }
}

/// The next token.
fn step(kind: EntryKind, entry: Entry, item: Item) -> Result<Entry, Fault>
    requires { depth_of entry.state < 2 ^ 128 - 1 }
    ensures value { result ≡ step kind entry.state entry.fields item }
    ensures depth { IfOk result (λ next. depth_of next.state ≤ depth_of entry.state + 1) }
{
    let fields = entry.fields;
    match entry.state {
        EntryState::AtDash => dash(fields, item.what),
        EntryState::AtBrace => brace(fields, item.what),
        EntryState::AtKey => key(kind, fields, item.what),
        EntryState::AtColon(word) => colon(kind, fields, word, item.what),
        EntryState::AtValue(word) => value(fields, word, item),
        EntryState::AtSeparator => separator(fields, item.what),
        EntryState::Passing(depth) => passing(fields, depth, item.what),
        EntryState::AtEnd => Err(Fault::Syntax),
    }
}

/// Whether all fields are there that count.
pub(crate) fn has_all(kind: EntryKind, fields: Fields) -> bool
    ensures { result ≡ has_all kind fields }
{
    match kind {
        EntryKind::Register => fields.id.is_some() && fields.class.is_some(),
        EntryKind::Object => {
            fields.id.is_some() && fields.size.is_some() && fields.alignment.is_some()
        }
    }
}

/// Whether an entry has ended.
pub(crate) fn is_at_end(state: EntryState) -> bool
    ensures { result ≡ is_at_end state }
{
    matches!(state, EntryState::AtEnd)
}

/// The fields of an entry that has ended, if they are all there.
fn whole(kind: EntryKind, entry: Entry) -> Result<Fields, Fault>
    ensures { result ≡ whole_entry kind entry }
{
    if is_at_end(entry.state) && has_all(kind, entry.fields) {
        Ok(entry.fields)
    } else {
        Err(Fault::Syntax)
    }
}

/// An entry of which nothing is read.
pub(crate) fn front() -> Entry
    ensures { result ≡ entry_front }
{
    at(EntryState::AtDash, no_fields())
}

/// Where an entry stands behind more tokens.
pub(crate) fn steps(kind: EntryKind, entry: Entry, items: &[Item]) -> Result<Entry, Fault>
    requires { depth_of entry.state + length items.now < 2 ^ 128 }
    ensures value { result ≡ steps kind entry items.now }
    ensures depth { IfOk result (λ next. depth_of next.state ≤ depth_of entry.state + length items.now) }
{
    let mut next = entry;
    for item in items {
        next = step(kind, next, *item)?;
    }
    Ok(next)
}

/// An entry, from its tokens.
pub(crate) fn read_entry(kind: EntryKind, items: &[Item]) -> Result<Fields, Fault>
    ensures { result ≡ read_entry kind items.now }
{
    whole(kind, steps(kind, front(), items)?)
}
