//! Where the tokens of a line are split.

ghost use Rattle.std.specs.Prelude.{◌≡◌, ◌≤◌, drop, length, slice_get, take, true};
ghost use Rattle.std.specs.Option.{option_copied};
ghost use Rattle.gi_spelling.specs.Reading.{begins, parts_of, split_at, width_of};

use crate::line::kept::from_place;
use gi_spelling::token::{Item, What};
use gi_spelling::written::Separator;
use std::marker::Model;

/// Tokens up to a separator, and those behind it, if there is one.
#[derive(Drop)]
pub(crate) struct Split<'a> {
    pub(crate) before: &'a [Item],
    pub(crate) after: Option<&'a [Item]>,
}

impl<'a> Model for Split<'a> {
    ghost use Rattle.std.specs.Option.{option_copied};
    ghost use Rattle.gi_spelling.specs.Reading.{Split};

    ghost Value = { Split };

    ghost view = { λ a. record { before = a.before.now; after = option_copied a.after } };
}

/// How many tokens a separator has.
fn width(separator: Separator) -> usize
    ensures { result ≡ width_of separator }
{
    match separator {
        Separator::Comma | Separator::Equals => 1,
        Separator::Colons => 2,
    }
}

/// Whether the tokens begin with a separator.
fn begins(separator: Separator, items: &[Item]) -> bool
    ensures value { result ≡ begins separator items.now }
    ensures within { result ≡ true → width_of separator ≤ length items.now }
{
    match items {
        [] => false,
        [first] => match separator {
            Separator::Comma => matches!(first.what, What::Comma),
            Separator::Equals => matches!(first.what, What::Equals),
            Separator::Colons => false,
        },
        [first, second, ..] => match separator {
            Separator::Comma => matches!(first.what, What::Comma),
            Separator::Equals => matches!(first.what, What::Equals),
            Separator::Colons => {
                matches!(first.what, What::Colon) && matches!(second.what, What::Colon)
            }
        },
    }
}

/// The tokens up to a place.
fn up_to(items: &[Item], place: usize) -> &[Item]
    requires { place ≤ length items.now }
    ensures { result.now ≡ take place items.now }
{
    let (front, _) = items.split_at(place);
    front
}

/// The tokens up to the first such separator, and those behind it, if there is one.
pub(crate) fn split_at(separator: Separator, items: &[Item]) -> Split<'_>
    ensures { result ≡ split_at separator items.now }
{
    for place in 0..items.len() {
        let rest = from_place(items, place);
        if begins(separator, rest) {
            return Split {
                before: up_to(items, place),
                after: Some(from_place(rest, width(separator))),
            };
        }
    }
    Split {
        before: items,
        after: None,
    }
}

/// The parts of a line between commas, one after the other.
#[derive(Drop)]
pub(crate) struct Parts<'a> {
    left: Option<&'a [Item]>,
}

impl<'a> Model for Parts<'a> {
    ghost use Rattle.std.specs.Prelude.{List};
    ghost use Rattle.std.specs.Option.{option_copied};
    ghost use Rattle.gi_spelling.specs.declared.token.Item.{Item};
    ghost use Rattle.gi_mir_read.specs.Lines.Splits.{parts_left};

    ghost Value = { List (List Item) };

    ghost view = { λ a. parts_left (option_copied a.left) };
}

impl<'a> Parts<'a> {
    /// The parts of these tokens.
    pub(crate) fn of(items: &'a [Item]) -> Parts<'a>
        ensures { result ≡ parts_of items.now }
    {
        Parts { left: Some(items) }
    }

    /// The next part, if one is left.
    pub(crate) fn next(&mut self) -> Option<&'a [Item]>
        ensures next { option_copied result ≡ slice_get self.old 0 }
        ensures left { self.new ≡ drop 1 self.old }
    {
        let items = self.left?;
        let split = split_at(Separator::Comma, items);
        self.left = split.after;
        Some(split.before)
    }
}
