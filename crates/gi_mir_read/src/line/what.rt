//! What the tokens of a text are.

ghost use Rattle.std.specs.Prelude.{◌≡◌, [], ◌∷◌, None, bytes_eq, codes, drop, map, position};
ghost use Rattle.std.specs.Option.{option_map_or};
ghost use Rattle.gi_text.specs.Cutting.{IsSlice, IsSized, lexeme_in, slice};
ghost use Rattle.gi_text.specs.declared.token.TokenKind.TheVariants.{Number};
ghost use Rattle.gi_mir.specs.Routines.{routine_names};
ghost use Rattle.gi_spelling.specs.Words.{behind, greatest_block, greatest_register, is_numbered, is_plain_signed, mark_token, number_written, numeral, numeral_before_name, physical_token, register_token, routine_token, what_of};
ghost use Rattle.gi_spelling.specs.declared.token.What.TheVariants as what;

use crate::line::number::{are_digits, behind, is_plain_signed, numeral, numeral_before_name};
use crate::line::word::{GREATEST_BLOCK, word};
use gi_spelling::token::What;
use gi_text::{Token, TokenKind, number};

/// The greatest number of a register.
const GREATEST_REGISTER: u32 = 4294967294;

/// What stands behind the first byte.
fn behind_first(bytes: &[u8]) -> &[u8]
    ensures { result.now ≡ drop 1 bytes.now }
{
    match bytes {
        [] => bytes,
        [_, rest @ ..] => rest,
    }
}

/// The number of `bb.7`.
fn block_number(name: &[u8]) -> Option<u32>
    ensures { result ≡ option_map_or (numeral greatest_block) (behind (codes "bb.") name.now) None }
{
    numeral(GREATEST_BLOCK, behind(b"bb.", name)?)
}

/// The number of `stack.7` and `stack.7.name`.
fn frame_number(name: &[u8]) -> Option<u32>
    ensures { result ≡ option_map_or (numeral_before_name greatest_register) (behind (codes "stack.") name.now) None }
{
    numeral_before_name(GREATEST_REGISTER, behind(b"stack.", name)?)
}

/// The number of `x7`, where 32 stands for one that is greater.
fn physical_number(name: &[u8]) -> Option<u32>
    ensures { result ≡ option_map_or (numeral 32) (behind (codes "x") name.now) None }
{
    numeral(32, behind(b"x", name)?)
}

/// A register, a block or a stack object, by what stands behind the `%`.
fn register_token(name: &[u8]) -> What
    ensures { result ≡ register_token name.now }
{
    if let Some(number) = numeral(GREATEST_REGISTER, name) {
        return What::Register(number);
    }
    if let Some(number) = block_number(name) {
        return What::Block(number);
    }
    if let Some(number) = frame_number(name) {
        return What::Frame(number);
    }
    What::Other
}

/// A physical register, by what stands behind the `$`.
fn physical_token(name: &[u8]) -> What
    ensures { result ≡ physical_token name.now }
{
    match physical_number(name) {
        Some(number) if number < 32 => What::Physical(number as u8),
        _ => What::Other,
    }
}

/// The names of the routines.
fn routines() -> &'static [&'static str]
    ensures { map (λ name. name.now) result.now ≡ routine_names }
{
    &[
        "__muldi3",
        "__divdi3",
        "__udivdi3",
        "__moddi3",
        "__umoddi3",
        "__multi3",
        "__divti3",
        "__udivti3",
        "__modti3",
        "__umodti3",
    ]
}

/// The place of a name among others.
fn place_of(name: &[u8], names: &[&str]) -> Option<usize>
    ensures { result ≡ position (λ other. bytes_eq name.now other.now) names.now }
{
    names.iter().position(|other| name == other.as_bytes())
}

/// A routine, by what stands behind the `&`.
fn routine_token(name: &[u8]) -> What
    ensures { result ≡ routine_token name.now }
{
    match place_of(name, routines()) {
        Some(place) => What::Routine(place as u8),
        None => What::UnknownRoutine,
    }
}

/// One or more digits.
fn is_numbered(name: &[u8]) -> bool
    ensures { result ≡ is_numbered name.now }
{
    match name {
        [] => false,
        _ => are_digits(name),
    }
}

/// The mark that a byte is.
fn mark_of(byte: u8) -> What
    ensures { result ≡ mark_token (byte ∷ []) }
{
    match byte {
        b',' => What::Comma,
        b'=' => What::Equals,
        b':' => What::Colon,
        b'(' => What::Open,
        b')' => What::Close,
        b'{' => What::OpenBrace,
        b'}' => What::CloseBrace,
        b'[' => What::OpenSquare,
        b']' => What::CloseSquare,
        b'-' => What::Minus,
        b'|' => What::Bar,
        _ => What::Other,
    }
}

/// A mark.
fn mark_token(spelling: &[u8]) -> What
    ensures { result ≡ mark_token spelling.now }
{
    match spelling {
        [] => What::Other,
        [byte, ..] => mark_of(*byte),
    }
}

/// The bytes of a token.
fn spelling(bytes: &[u8], token: Token) -> &[u8]
    requires { IsSlice bytes.now token }
    ensures { result.now ≡ slice token.start token.end bytes.now }
{
    &bytes[token.start..token.end]
}

/// A number.
fn number_token(bytes: &[u8], token: Token) -> What
    requires kind { token.kind ≡ Number }
    requires slice { IsSlice bytes.now token }
    requires sized { IsSized bytes.now token }
    ensures { result ≡ what.Number (number_written (slice token.start token.end bytes.now)) (is_plain_signed (slice token.start token.end bytes.now)) }
{
    match number(bytes, token) {
        Some(number) => What::Number(number, is_plain_signed(spelling(bytes, token))),
        None => What::Other,
    }
}

/// What a token is.
pub(crate) fn what(bytes: &[u8], token: Token) -> What
    requires slice { IsSlice bytes.now token }
    requires sized { IsSized bytes.now token }
    ensures { result ≡ what_of (lexeme_in bytes.now token) }
{
    let spelled = spelling(bytes, token);
    match token.kind {
        TokenKind::Word => What::Word(word(spelled)),
        TokenKind::Number => number_token(bytes, token),
        TokenKind::Register => register_token(behind_first(spelled)),
        TokenKind::Physical => physical_token(behind_first(spelled)),
        TokenKind::Global => What::Global,
        TokenKind::Routine => routine_token(behind_first(spelled)),
        TokenKind::Quoted => What::Other,
        TokenKind::Metadata => What::Metadata(is_numbered(behind_first(spelled))),
        TokenKind::Mark => mark_token(spelled),
    }
}
