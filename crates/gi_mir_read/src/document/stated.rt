//! What the entries of a document state.

ghost use Rattle.std.specs.Prelude.{◌≡◌, ◌-◌, ◌<◌, ◌^◌, List, ℕ, All, IfOk, fold, length};
ghost use Rattle.gi_spelling.specs.Documents.{is_key_true, is_missing, is_true, key_word, list_under, lower, missing_wrongs};
ghost use Rattle.gi_spelling.specs.Items.{value_items};
ghost use Rattle.gi_spelling.specs.Lines as spelled;
ghost use Rattle.gi_mir_read.specs.Documents.Keyed.{AreFirsts, AreFirstsIn, under_bar, value_stated};
ghost use Rattle.gi_mir_read.specs.Texts.Placed.{IsLineIn, line_at, lines_at};

use crate::document::entries::{has_bar, list_of, name_value};
use crate::document::keys::Firsts;
use crate::document::values::{is_true, value_items};
use crate::text::lines::Line;
use crate::text::wrongs::Lowest;
use gi_llt::Memory;
use gi_spelling::written::{Fault, Key, ListValue};
use std::alloc::Global;

/// The value behind a key, and nothing where the key is missing.
pub(crate) fn value_of<'a>(text: &'a [u8], firsts: &Firsts<'_>, key: Key) -> &'a [u8]
    requires { AreFirstsIn text.now firsts.now }
    ensures { (sections : List spelled.Section) → AreFirsts text.now sections firsts.now → result.now ≡ value_stated (key_word key) sections }
{
    match firsts.first(key) {
        Some(section) => name_value(text, section.head),
        None => &[],
    }
}

/// Whether the value of a line is `true`.
fn truth_of(alloc: Global, text: &[u8], line: Line) -> Result<bool, Memory>
    requires line { IsLineIn text.now line }
    requires short { length text.now < 2 ^ 32 - 1 }
    ensures { IfOk result (λ truth. truth ≡ is_true (value_items text.now (line_at text.now line))) }
{
    match value_items(alloc, text, line)? {
        Some(items) => Ok(is_true(items.as_slice())),
        None => Ok(false),
    }
}

/// Whether a document states that a key is true.
pub(crate) fn is_key_true(
    alloc: Global,
    text: &[u8],
    firsts: &Firsts<'_>,
    key: Key,
) -> Result<bool, Memory>
    requires within { AreFirstsIn text.now firsts.now }
    requires short { length text.now < 2 ^ 32 - 1 }
    ensures { IfOk result (λ truth. (sections : List spelled.Section) → AreFirsts text.now sections firsts.now → truth ≡ is_key_true text.now (key_word key) sections) }
{
    match firsts.first(key) {
        Some(section) => truth_of(alloc, text, section.head),
        None => Ok(false),
    }
}

/// The lines of a list under a key.
pub(crate) fn list_under<'a>(
    alloc: Global,
    text: &[u8],
    firsts: &Firsts<'a>,
    key: Key,
) -> Result<&'a [Line], Memory>
    requires within { AreFirstsIn text.now firsts.now }
    requires short { length text.now < 2 ^ 32 - 1 }
    ensures lines { IfOk result (λ lines. (sections : List spelled.Section) → AreFirsts text.now sections firsts.now → lines_at text.now lines.now ≡ list_under text.now (key_word key) sections) }
    ensures within { IfOk result (λ lines. All (IsLineIn text.now) lines.now) }
{
    match firsts.first(key) {
        Some(section) => match list_of(alloc, text, section.head)? {
            ListValue::Entries => Ok(section.under),
            _ => Ok(&[]),
        },
        None => Ok(&[]),
    }
}

/// The lines under a key with a bar behind it.
pub(crate) fn lines_under_bar<'a>(
    alloc: Global,
    text: &[u8],
    firsts: &Firsts<'a>,
    key: Key,
) -> Result<&'a [Line], Memory>
    requires within { AreFirstsIn text.now firsts.now }
    requires short { length text.now < 2 ^ 32 - 1 }
    ensures lines { IfOk result (λ lines. (sections : List spelled.Section) → AreFirsts text.now sections firsts.now → lines_at text.now lines.now ≡ under_bar text.now (key_word key) sections) }
    ensures within { IfOk result (λ lines. All (IsLineIn text.now) lines.now) }
{
    match firsts.first(key) {
        Some(section) => {
            if has_bar(alloc, text, section.head)? {
                Ok(section.under)
            } else {
                Ok(&[])
            }
        }
        None => Ok(&[]),
    }
}

/// Whether a key is missing.
fn is_missing(firsts: &Firsts<'_>, key: Key) -> bool
    ensures { (text : List ℕ) (sections : List spelled.Section) → AreFirsts text sections firsts.now → result ≡ is_missing (key_word key) sections }
{
    match firsts.first(key) {
        Some(_) => false,
        None => true,
    }
}

/// Notes that a name or blocks are missing from a document that ends at a line.
pub(crate) fn note_missing(firsts: &Firsts<'_>, end: u32, lowest: &mut Lowest)
    ensures { (text : List ℕ) (sections : List spelled.Section) → AreFirsts text sections firsts.now → lowest.new ≡ fold lower lowest.old (missing_wrongs end sections) }
{
    let name_missing = is_missing(firsts, Key::Name);
    let body_missing = is_missing(firsts, Key::Body);
    if name_missing || body_missing {
        lowest.note(end, Fault::Syntax);
    }
}
