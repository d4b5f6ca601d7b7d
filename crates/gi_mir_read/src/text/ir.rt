//! The lines of an IR block.

ghost use Rattle.std.specs.Prelude.{◌≡◌, All, IfOk, OnOk, [], ◌∷◌, ◌++◌, filter, fold, map, option_map, string_bytes};
ghost use Rattle.gi_spelling.specs.Documents.{is_no_text, line_wrongs, lower};
ghost use Rattle.gi_mir_read.specs.Texts.Placed.{IsLineIn, line_at, lines_at};
ghost use Rattle.gi_mir_read.specs.Texts.LineTexts.{text_of, texts_of};

use crate::text::lines::Line;
use crate::text::wrongs::Lowest;
use gi_llt::Memory;
use gi_spelling::written::Fault;
use std::alloc::Global;

/// The bytes as text, if they are UTF-8.
fn text_of(alloc: Global, bytes: &[u8]) -> Result<Option<String>, Memory>
    ensures { IfOk result (λ found. option_map string_bytes found ≡ text_of bytes.now) }
{
    match str::from_utf8(bytes) {
        Ok(text) => match String::from_str(alloc, text) {
            Ok(owned) => Ok(Some(owned)),
            Err(_) => Err(Memory),
        },
        Err(_) => Ok(None),
    }
}

/// Adds one more text.
fn push_text(texts: &mut Vec<String>, text: String) -> Result<(), Memory>
    ensures { OnOk result (map string_bytes texts.new.items ≡ map string_bytes texts.old.items ++ string_bytes text ∷ []) }
{
    match texts.push(text) {
        Ok(()) => Ok(()),
        Err(_) => Err(Memory),
    }
}

/// The lines of an IR block as texts. One that isn't UTF-8 is left out, and noted.
pub(crate) fn ir_texts(
    alloc: Global,
    text: &[u8],
    lines: &[Line],
    lowest: &mut Lowest,
) -> Result<Vec<String>, Memory>
    requires { All (IsLineIn text.now) lines.now }
    ensures texts { IfOk result (λ texts. map string_bytes texts.items ≡ texts_of (lines_at text.now lines.now)) }
    ensures wrongs { OnOk result (lowest.new ≡ fold lower lowest.old (line_wrongs (filter is_no_text (lines_at text.now lines.now)))) }
{
    let mut texts = Vec::new(alloc);
    for line in lines {
        match text_of(alloc, line.bytes(text))? {
            Some(owned) => push_text(&mut texts, owned)?,
            None => lowest.note(line.number, Fault::Syntax),
        }
    }
    Ok(texts)
}
