//! What counts of a line of a block.

ghost use Rattle.std.specs.Prelude.{◌≡◌, ◌≤◌, drop, length, take};
ghost use Rattle.gi_spelling.specs.Items.{what_in};
ghost use Rattle.gi_spelling.specs.Kept.{is_note, is_probable, kept, turn, turn_alone, turn_of_two, turn_of_three};
ghost use Rattle.gi_spelling.specs.declared.kept.Next.TheVariants.{Past};
ghost use Rattle.gi_mir_read.specs.Lines.Turns.{first_turn, turn_after};

use gi_spelling::kept::{Next, Turn};
use gi_spelling::token::{Item, What, Word};

/// The token is kept or not, and so many that follow are passed over.
fn past(keeps: bool, count: usize) -> Turn
    ensures { result ≡ turn keeps (Past count) }
{
    Turn {
        keeps,
        next: Next::Past(count),
    }
}

/// Two tokens that say nothing together.
fn is_note(first: What, second: What) -> bool
    ensures { result ≡ is_note first second }
{
    match first {
        What::Word(Word::DebugLocation) | What::Metadata(_) => {
            matches!(second, What::Metadata(true))
        }
        What::Word(Word::Counted) => matches!(second, What::Number(_, _)),
        _ => false,
    }
}

/// A block and its probability.
fn is_probable(first: What, second: What, third: What, fourth: What) -> bool
    ensures { result ≡ is_probable first second third fourth }
{
    matches!(first, What::Block(_))
        && matches!(second, What::Open)
        && matches!(third, What::Number(_, _))
        && matches!(fourth, What::Close)
}

/// A token by itself.
fn turn_alone(first: What) -> Turn
    ensures { result ≡ turn_alone first }
{
    match first {
        What::Word(Word::Passed) => past(false, 0),
        What::Word(Word::Origin) => Turn {
            keeps: false,
            next: Next::PastOrigin,
        },
        _ => past(true, 0),
    }
}

/// A token before another.
fn turn_of_two(first: What, second: What) -> Turn
    ensures { result ≡ turn_of_two first second }
{
    if is_note(first, second) {
        past(false, 1)
    } else {
        turn_alone(first)
    }
}

/// A token before two others.
fn turn_of_three(first: What, second: What, third: What) -> Turn
    ensures { result ≡ turn_of_three first second third }
{
    if matches!(first, What::Comma) && is_note(second, third) {
        past(false, 2)
    } else {
        turn_of_two(first, second)
    }
}

/// The first of these tokens, by what follows it.
fn first_turn(items: &[Item]) -> Turn
    ensures { result ≡ first_turn items.now }
{
    match items {
        [] => past(true, 0),
        [first] => turn_alone(first.what),
        [first, second] => turn_of_two(first.what, second.what),
        [first, second, third] => turn_of_three(first.what, second.what, third.what),
        [first, second, third, fourth, ..] => {
            if is_probable(first.what, second.what, third.what, fourth.what) {
                past(true, 3)
            } else {
                turn_of_three(first.what, second.what, third.what)
            }
        }
    }
}

/// The first of these tokens, where an earlier one says what follows it.
fn turn_after(next: Next, items: &[Item]) -> Turn
    ensures { result ≡ turn_after next items.now }
{
    match next {
        Next::Past(0) => first_turn(items),
        Next::Past(count) => past(false, count - 1),
        Next::PastOrigin => match items {
            [] => first_turn(items),
            [first, ..] => match first.what {
                What::Comma | What::Close => first_turn(items),
                _ => Turn {
                    keeps: false,
                    next: Next::PastOrigin,
                },
            },
        },
    }
}

/// The tokens from a place on.
pub(crate) fn from_place(items: &[Item], place: usize) -> &[Item]
    requires { place ≤ length items.now }
    ensures { result.now ≡ drop place items.now }
{
    let (_, rest) = items.split_at(place);
    rest
}

/// Moves the tokens that count to the front, in their order, and answers how many they are.
fn gather(items: &mut [Item]) -> usize
    ensures within { result ≤ length items.new }
    ensures kept { take result items.new ≡ kept what_in items.old }
{
    let mut count = 0;
    let mut next = Next::Past(0);
    for place in 0..items.len() {
        let turn = turn_after(next, from_place(items, place));
        if turn.keeps {
            items[count] = items[place];
            count += 1;
        }
        next = turn.next;
    }
    count
}

/// Keeps the tokens that count of a line of a block.
pub(crate) fn keep(items: &mut Vec<Item>)
    ensures { items.new.items ≡ kept what_in items.old.items }
{
    let count = gather(items.as_mut_slice());
    items.truncate(count);
}
