//! The target triple of an IR block.

ghost use Rattle.std.specs.Prelude.{◌≡◌, ◌≤◌, IfSome, length, map, min, string_bytes};
ghost use Rattle.gi_text.specs.Cutting.{IsSlice, cut_past_place};
ghost use Rattle.gi_mir_read.specs.Triples.{IsBehind, greatest_place, is_end, is_quoted, is_spelled, last_quoted, told_by, triple_from, triple_in, triple_of};

use gi_mir::module::Module;
use gi_text::{NextToken, Token, TokenKind, next_token};

/// The greatest place of a line that is told.
const GREATEST_PLACE: usize = 4_294_967_295;

/// Whether a token has this spelling.
fn is_spelled(line: &[u8], spelling: &str, token: Token) -> bool
    requires { IsSlice line.now token }
    ensures { result ≡ is_spelled line.now spelling.now token }
{
    &line[token.start..token.end] == spelling.as_bytes()
}

/// Whether a token is quoted.
fn is_quoted(kind: TokenKind) -> bool
    ensures { result ≡ is_quoted kind }
{
    matches!(kind, TokenKind::Quoted)
}

/// Where the token that comes next has ended, if it has this spelling.
fn behind_spelling(line: &[u8], spelling: &str, place: usize) -> Option<usize>
    requires { place ≤ length line.now }
    ensures behind { IsBehind line.now spelling.now place result }
    ensures within { IfSome result (λ end. end ≤ length line.now) }
{
    match next_token(line, place) {
        NextToken::Found(token) => {
            if is_spelled(line, spelling, token) {
                Some(token.end)
            } else {
                None
            }
        }
        NextToken::End | NextToken::Wrong => None,
    }
}

/// Whether no token is left.
fn is_at_end(line: &[u8], place: usize) -> bool
    requires { place ≤ length line.now }
    ensures { result ≡ is_end (cut_past_place line.now place) }
{
    matches!(next_token(line, place), NextToken::End)
}

/// The token that comes next, if it is quoted and the last.
fn last_quoted(line: &[u8], place: usize) -> Option<Token>
    requires { place ≤ length line.now }
    ensures { result ≡ told_by last_quoted (cut_past_place line.now place) }
{
    match next_token(line, place) {
        NextToken::Found(token) => {
            if is_quoted(token.kind) && is_at_end(line, token.end) {
                Some(token)
            } else {
                None
            }
        }
        NextToken::End | NextToken::Wrong => None,
    }
}

/// The quoted token of a line that tells the triple.
fn triple_in(line: &[u8]) -> Option<Token>
    ensures { result ≡ triple_in line.now }
{
    let target = behind_spelling(line, "target", 0)?;
    let triple = behind_spelling(line, "triple", target)?;
    let equals = behind_spelling(line, "=", triple)?;
    last_quoted(line, equals)
}

/// The place of a line, where one above the greatest counts as that.
fn told_place(place: usize) -> u32
    ensures { result ≡ min place greatest_place }
{
    place.min(GREATEST_PLACE) as u32
}

/// The first of these lines that tells the triple, by its place, and the quoted token.
fn first_triple(lines: &[String]) -> Option<(u32, Token)>
    ensures { result ≡ triple_from 0 (map string_bytes lines.now) }
{
    for (place, line) in lines.iter().enumerate() {
        if let Some(token) = triple_in(line.as_bytes()) {
            return Some((told_place(place), token));
        }
    }
    None
}

/// The target triple of a module's IR block: the place of the line that tells it, counted from 0, and the
/// quoted token of that line.
pub fn triple(module: &Module) -> Option<(u32, Token)>
    ensures { result ≡ triple_of «module».now }
{
    match &module.ir {
        Some(lines) => first_triple(lines.as_slice()),
        None => None,
    }
}
