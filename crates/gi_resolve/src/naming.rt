//! The names of globals.

ghost use Rattle.std.specs.Prelude.{◌≡◌, ◌≤◌, ◌<◌, IfOk, drop, length, suc};
ghost use Rattle.gi_llt.specs.Tokens.{is_word_byte, run_of};
ghost use Rattle.gi_spelling.specs.Named.{Extends, IsNamedGlobal, name_of_token};

use gi_llt::Memory;
use gi_mir::names::Names;
use gi_mir::operand::{Operand, SymbolFlag};
use gi_text::word_length;

/// The word bytes at the front.
fn front_word(bytes: &[u8]) -> &[u8]
    ensures { result.now ≡ run_of is_word_byte bytes.now }
{
    let (word, _) = bytes.split_at(word_length(bytes));
    word
}

/// What stands behind a place.
fn behind_place(bytes: &[u8], place: usize) -> &[u8]
    ensures { result.now ≡ drop (suc place) bytes.now }
{
    if place < bytes.len() {
        let (_, behind) = bytes.split_at(place + 1);
        behind
    } else {
        let (_, nothing) = bytes.split_at(bytes.len());
        nothing
    }
}

/// The name of the token `@name` at a place.
fn name_of_token(bytes: &[u8], place: usize) -> &str
    ensures { result.now ≡ name_of_token bytes.now place }
{
    match str::from_utf8(front_word(behind_place(bytes, place))) {
        Ok(name) => name,
        Err(_) => "",
    }
}

/// The symbol whose token stands at a place, by the number of its name.
pub(crate) fn global(
    bytes: &[u8],
    names: &mut Names,
    flag: SymbolFlag,
    place: usize,
) -> Result<Operand, Memory>
    ensures named { IfOk result (IsNamedGlobal bytes.now names.new flag place) }
    ensures grown { Extends names.old names.new }
{
    if names.count() == u32::MAX {
        return Err(Memory);
    }
    let number = names.number(name_of_token(bytes, place))?;
    Ok(Operand::Global(flag, number))
}
