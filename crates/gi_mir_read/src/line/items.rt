//! The tokens of a range of a text, each by what it is and where it stands.

ghost use Rattle.std.specs.Prelude.{◌≡◌, ◌<◌, ◌≤◌, ◌-◌, ◌^◌, All, IfOk, length, map, option_map};
ghost use Rattle.gi_text.specs.Cutting.{IsSized, IsSlice};
ghost use Rattle.gi_spelling.specs.Items.{item_of, items_in, what_in};
ghost use Rattle.gi_spelling.specs.Kept.{kept};

use crate::line::kept::keep;
use crate::line::what::what;
use crate::list::push;
use gi_llt::Memory;
use gi_spelling::token::Item;
use gi_text::{LineError, Token, tokens};
use std::alloc::Global;

/// A token by what it is and where it stands.
fn item(bytes: &[u8], token: Token) -> Item
    requires slice { IsSlice bytes.now token }
    requires sized { IsSized bytes.now token }
    ensures { result ≡ item_of bytes.now token }
{
    Item {
        what: what(bytes, token),
        start: token.start,
        end: token.end,
    }
}

/// Tokens by what they are and where they stand.
fn items_of(alloc: Global, bytes: &[u8], tokens: &[Token]) -> Result<Vec<Item>, Memory>
    requires slices { All (IsSlice bytes.now) tokens.now }
    requires sized { All (IsSized bytes.now) tokens.now }
    ensures { IfOk result (λ items. items.items ≡ map (item_of bytes.now) tokens.now) }
{
    let mut items = Vec::with_capacity(alloc, tokens.len()).map_err(|_| Memory)?;
    for token in tokens {
        push(&mut items, item(bytes, *token))?;
    }
    Ok(items)
}

/// The tokens of the bytes from `start` up to `end`, and none where a byte begins no token or a number is too great.
pub(crate) fn items(
    alloc: Global,
    bytes: &[u8],
    start: usize,
    end: usize,
) -> Result<Option<Vec<Item>>, Memory>
    requires ordered { start ≤ end }
    requires within { end ≤ length bytes.now }
    requires short { end < 2 ^ 32 - 1 }
    ensures { IfOk result (λ found. option_map (λ items. items.items) found ≡ items_in bytes.now start end) }
{
    match tokens(alloc, bytes, 0, start, end) {
        Ok(found) => Ok(Some(items_of(alloc, bytes, found.as_slice())?)),
        Err(LineError::Memory) => Err(Memory),
        Err(_) => Ok(None),
    }
}

/// The tokens that count of the line of a block from `start` up to `end`.
pub(crate) fn kept_items(
    alloc: Global,
    bytes: &[u8],
    start: usize,
    end: usize,
) -> Result<Option<Vec<Item>>, Memory>
    requires ordered { start ≤ end }
    requires within { end ≤ length bytes.now }
    requires short { end < 2 ^ 32 - 1 }
    ensures { IfOk result (λ found. option_map (λ items. items.items) found ≡ option_map (kept what_in) (items_in bytes.now start end)) }
{
    match items(alloc, bytes, start, end)? {
        Some(mut found) => {
            keep(&mut found);
            Ok(Some(found))
        }
        None => Ok(None),
    }
}
