//! What stands behind the key of a line.

ghost use Rattle.std.specs.Prelude.{◌≡◌, ◌≤◌, ◌<◌, ◌-◌, ◌^◌, IfOk, Some, length, option_map};
ghost use Rattle.std.specs.List.{list_all};
ghost use Rattle.gi_llt.specs.Tokens.{is_word_byte};
ghost use Rattle.gi_spelling.specs.Documents.{is_bar, is_name, is_true, list_value, truth_fault};
ghost use Rattle.gi_spelling.specs.Items.{items_of_line, value_items};
ghost use Rattle.gi_mir_read.specs.Texts.Placed.{IsLineIn, line_at};

use crate::line::items::items;
use crate::text::line_bytes::behind_colon;
use crate::text::lines::Line;
use gi_llt::Memory;
use gi_spelling::token::{Item, What, Word};
use gi_spelling::written::{Fault, ListValue};
use gi_text::is_word_byte;
use std::alloc::Global;

/// The tokens of a line, and none where it has none.
pub(crate) fn items_of_line(
    alloc: Global,
    text: &[u8],
    line: Line,
) -> Result<Option<Vec<Item>>, Memory>
    requires line { IsLineIn text.now line }
    requires short { length text.now < 2 ^ 32 - 1 }
    ensures { IfOk result (λ found. option_map (λ items. items.items) found ≡ items_of_line text.now (line_at text.now line)) }
{
    items(alloc, text, line.start as usize, line.end as usize)
}

/// The tokens behind the colon of a line.
pub(crate) fn value_items(
    alloc: Global,
    text: &[u8],
    line: Line,
) -> Result<Option<Vec<Item>>, Memory>
    requires line { IsLineIn text.now line }
    requires short { length text.now < 2 ^ 32 - 1 }
    ensures { IfOk result (λ found. option_map (λ items. items.items) found ≡ value_items text.now (line_at text.now line)) }
{
    let value = behind_colon(line.bytes(text));
    let end = line.end as usize;
    items(alloc, text, end - value.len(), end)
}

/// Whether the word `true` stands first.
pub(crate) fn is_true(items: &[Item]) -> bool
    ensures { result ≡ is_true (Some items.now) }
{
    match items {
        [] => false,
        [first, ..] => matches!(first.what, What::Word(Word::True)),
    }
}

/// Why this isn't `true` or `false`.
pub(crate) fn truth_fault(items: &[Item]) -> Option<Fault>
    ensures { result ≡ truth_fault (Some items.now) }
{
    match items {
        [] => Some(Fault::Syntax),
        [first, rest @ ..] => match first.what {
            What::Word(Word::True | Word::False) if rest.is_empty() => None,
            What::Word(Word::True | Word::False) => Some(Fault::Syntax),
            What::Word(_) => Some(Fault::Unknown {
                start: first.start,
                end: first.end,
            }),
            _ => Some(Fault::Syntax),
        },
    }
}

/// Nothing, `[]` or something else.
pub(crate) fn list_value(items: &[Item]) -> ListValue
    ensures { result ≡ list_value (Some items.now) }
{
    match items {
        [] => ListValue::Entries,
        [first, second] => match first.what {
            What::OpenSquare => match second.what {
                What::CloseSquare => ListValue::NoEntries,
                _ => ListValue::NoList,
            },
            _ => ListValue::NoList,
        },
        _ => ListValue::NoList,
    }
}

/// Whether a bar stands here alone.
pub(crate) fn is_bar(items: &[Item]) -> bool
    ensures { result ≡ is_bar (Some items.now) }
{
    match items {
        [item] => matches!(item.what, What::Bar),
        _ => false,
    }
}

fn are_word_bytes(bytes: &[u8]) -> bool
    ensures { result ≡ list_all is_word_byte bytes.now }
{
    bytes.iter().all(|byte| is_word_byte(*byte))
}

/// One or more letters, digits, `_`, `.`, `-` and `$`.
pub(crate) fn is_name(bytes: &[u8]) -> bool
    ensures { result ≡ is_name bytes.now }
{
    match bytes {
        [] => false,
        [first, more @ ..] => is_word_byte(*first) && are_word_bytes(more),
    }
}
