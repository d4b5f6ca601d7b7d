//! What stands at the front of the bytes that are left of a line.

ghost use Rattle.std.specs.Prelude.{◌≡◌, ◌≤◌, ◌∷◌, length};
ghost use Rattle.gi_llt.specs.Tokens.{is_digit, is_word_byte, run_of, through, found_some, found_minus, found_number, found_quoted};
ghost use Rattle.gi_text.specs.Kinds.{lexeme_kind};
ghost use Rattle.gi_text.specs.Steps.{step_at, step_of, taken_by};

use crate::bytes::{Begin, begin_of, digit_length, hexadecimal_length, place_of, word_length};
use crate::token::TokenKind;

/// What stands at the front: a blank, the end of the tokens, a token of a kind with so many bytes after
/// its first, or a byte that begins none.
#[derive(Clone, Copy, Debug, PartialEq, Eq)]
pub enum Step {
    Blank,
    End,
    Token(TokenKind, usize),
    Nothing,
}

/// A token of one byte and word bytes, of which there has to be one.
fn name_step(kind: TokenKind, rest: &[u8]) -> Step
    ensures { result ≡ step_of (found_some (lexeme_kind kind) (run_of is_word_byte rest.now)) }
{
    match word_length(rest) {
        0 => Step::Nothing,
        count => Step::Token(kind, count),
    }
}

/// A minus, and the number behind it if there is one.
fn minus_step(rest: &[u8]) -> Step
    ensures { result ≡ step_of (found_minus (run_of is_digit rest.now)) }
{
    match digit_length(rest) {
        0 => Step::Token(TokenKind::Mark, 0),
        count => Step::Token(TokenKind::Number, count),
    }
}

/// A number that begins with a digit.
fn number_step(first: u8, rest: &[u8]) -> Step
    ensures { result ≡ step_of (found_number first rest.now) }
{
    if let [b'x', more @ ..] = rest
        && first == b'0'
    {
        match hexadecimal_length(more) {
            0 => Step::Token(TokenKind::Number, 0),
            count => Step::Token(TokenKind::Number, count + 1),
        }
    } else {
        Step::Token(TokenKind::Number, digit_length(rest))
    }
}

/// From a quotation mark to the next one.
fn quoted_step(first: u8, rest: &[u8]) -> Step
    ensures { result ≡ step_of (found_quoted (through first rest.now)) }
{
    match place_of(first, rest) {
        Some(place) => Step::Token(TokenKind::Quoted, place + 1),
        None => Step::Nothing,
    }
}

/// What the first byte begins.
fn step_from(first: u8, rest: &[u8]) -> Step
    ensures { result ≡ step_at (first ∷ rest.now) }
{
    match begin_of(first) {
        Begin::Blank => Step::Blank,
        Begin::Comment => Step::End,
        Begin::Word => Step::Token(TokenKind::Word, word_length(rest)),
        Begin::Number => number_step(first, rest),
        Begin::Minus => minus_step(rest),
        Begin::Register => name_step(TokenKind::Register, rest),
        Begin::Physical => name_step(TokenKind::Physical, rest),
        Begin::Global => name_step(TokenKind::Global, rest),
        Begin::Routine => name_step(TokenKind::Routine, rest),
        Begin::Quoted => quoted_step(first, rest),
        Begin::Metadata => Step::Token(TokenKind::Metadata, word_length(rest)),
        Begin::Mark => Step::Token(TokenKind::Mark, 0),
        Begin::Nothing => Step::Nothing,
    }
}

/// What stands at the front of these bytes.
pub fn next_step(bytes: &[u8]) -> Step
    ensures step { result ≡ step_at bytes.now }
    ensures within { taken_by result ≤ length bytes.now }
{
    match bytes {
        [] => Step::End,
        [first, rest @ ..] => step_from(*first, rest),
    }
}
