//! The numbers that tokens write.

ghost use Rattle.std.specs.Prelude.{◌≡◌, ◌+◌, ◌*◌, ◌<◌, ◌≤◌, ◌∷◌, length};
ghost use Rattle.gi_text.specs.Cutting.{slice};
ghost use Rattle.gi_text.specs.Kinds.{lexeme_kind};
ghost use Rattle.gi_text.specs.Numbers.{bounded, digit_value, is_negative, is_too_great, number_spelled, size_spelled, unsigned_size, value_after};

use crate::token::{Number, Token, TokenKind};

/// The value of a digit.
pub fn digit_value(byte: u8) -> u8
    ensures value { result ≡ digit_value byte }
{
    match byte {
        b'0'..=b'9' => byte - 48,
        b'A'..=b'F' => byte - 55,
        b'a'..=b'f' => byte - 87,
        _ => 0,
    }
}

/// The value with one digit more, unless 128 bits don't hold it.
fn extended(size: u128, base: u128, digit: u8) -> Option<u128>
    ensures { result ≡ bounded (size * base + digit_value digit) }
{
    size.checked_mul(base)?
        .checked_add(u128::from(digit_value(digit)))
}

/// The value of digits, unless 128 bits don't hold it.
fn value(base: u128, digits: &[u8]) -> Option<u128>
    requires { 0 < base }
    ensures { result ≡ bounded (value_after base 0 digits.now) }
{
    let mut size: u128 = 0;
    for digit in digits {
        size = extended(size, base, *digit)?;
    }
    Some(size)
}

/// The size of a number without a minus.
fn unsigned_size(first: u8, rest: &[u8], spelling: &[u8]) -> Option<u128>
    requires { spelling.now ≡ first ∷ rest.now }
    ensures { result ≡ bounded (unsigned_size first rest.now) }
{
    if let [b'x', digits @ ..] = rest
        && first == b'0'
    {
        value(16, digits)
    } else {
        value(10, spelling)
    }
}

/// The size of the number that the bytes spell, unless 128 bits don't hold it.
fn size_spelled(spelling: &[u8]) -> Option<u128>
    ensures { result ≡ bounded (size_spelled spelling.now) }
{
    match spelling {
        [] => Some(0),
        [b'-', digits @ ..] => value(10, digits),
        [first, rest @ ..] => unsigned_size(*first, rest, spelling),
    }
}

/// Whether a token is a number whose size 128 bits don't hold.
pub fn is_too_great(kind: TokenKind, spelling: &[u8]) -> bool
    ensures { result ≡ is_too_great (lexeme_kind kind) spelling.now }
{
    match kind {
        TokenKind::Number => size_spelled(spelling).is_none(),
        _ => false,
    }
}

/// Whether a minus stands at the front.
fn is_negative(spelling: &[u8]) -> bool
    ensures { result ≡ is_negative spelling.now }
{
    match spelling {
        [] => false,
        [first, ..] => *first == b'-',
    }
}

/// The number that the bytes spell, unless 128 bits don't hold its size.
fn number_spelled(spelling: &[u8]) -> Option<Number>
    ensures { result ≡ number_spelled spelling.now }
{
    let size = size_spelled(spelling)?;
    let negative = is_negative(spelling);
    Some(Number { negative, size })
}

/// The number that a token writes, unless its size passes 2^128 - 1.
pub fn number(bytes: &[u8], token: Token) -> Option<Number>
    requires ordered { token.start ≤ token.end }
    requires within { token.end ≤ length bytes.now }
    ensures { result ≡ number_spelled (slice token.start token.end bytes.now) }
{
    number_spelled(&bytes[token.start..token.end])
}
