//! The tokens of a line.

ghost use Rattle.std.specs.Prelude.{◌≡◌, ◌+◌, ◌-◌, ◌<◌, ◌≤◌, ◌^◌, [], ◌∷◌, ◌++◌, Ok, length, take, drop, All, IfOk, IfErr, OnOk};
ghost use Rattle.gi_text.specs.Cutting.{IsFaultOf, IsNext, IsSized, IsSlice, IsSliceFound, cut_of, cut_past_place, slice, told_place};
ghost use Rattle.gi_text.specs.Steps.{step_at};
ghost use Rattle.gi_text.specs.declared.token.LineError.TheVariants.{Memory};

use crate::numbers::is_too_great;
use crate::step::{Step, next_step};
use crate::token::{LineError, NextToken, Place, Token, TokenKind};
use std::alloc::Global;

/// The bytes from a place up to another.
fn slice(bytes: &[u8], start: usize, end: usize) -> &[u8]
    requires ordered { start ≤ end }
    requires within { end ≤ length bytes.now }
    ensures { result.now ≡ slice start end bytes.now }
{
    &bytes[start..end]
}

/// The bytes after the first so many.
fn after(bytes: &[u8], count: usize) -> &[u8]
    requires { count ≤ length bytes.now }
    ensures { result.now ≡ drop count bytes.now }
{
    &bytes[count..]
}

/// The first so many bytes.
fn front(bytes: &[u8], count: usize) -> &[u8]
    requires { count ≤ length bytes.now }
    ensures { result.now ≡ take count bytes.now }
{
    &bytes[..count]
}

/// The column of a place in a line that begins at `start`, with the line.
fn told_place(line: u32, start: usize, place: usize) -> Place
    requires ordered { start ≤ place }
    requires short { place < 2 ^ 32 - 1 }
    ensures { result ≡ told_place line start place }
{
    let column = (place - start + 1) as u32;
    Place { line, column }
}

/// How many tokens most lines have room for in the memory that is first taken.
const USUAL_TOKENS: usize = 16;

/// No tokens yet, with room for those of most lines.
fn room(alloc: Global) -> Result<Vec<Token>, LineError>
    ensures ok { IfOk result (λ tokens. tokens.items ≡ []) }
    ensures err { IfErr result (λ e. e ≡ Memory) }
{
    match Vec::with_capacity(alloc, USUAL_TOKENS) {
        Ok(tokens) => Ok(tokens),
        Err(_) => Err(LineError::Memory),
    }
}

/// Adds a token.
fn append(tokens: &mut Vec<Token>, token: Token) -> Result<(), LineError>
    ensures ok { OnOk result (tokens.new.items ≡ tokens.old.items ++ token ∷ []) }
    ensures err { IfErr result (λ e. e ≡ Memory) }
{
    match tokens.push(token) {
        Ok(_) => Ok(()),
        Err(_) => Err(LineError::Memory),
    }
}

/// The tokens of the bytes from `start` up to `end`, in order, or the leftmost place at which a byte begins
/// no token or a number passes 2^128 - 1. The place is told with the line that is given, and counts the
/// bytes from `start` on from 1.
pub fn tokens(
    alloc: Global,
    bytes: &[u8],
    line: u32,
    start: usize,
    end: usize,
) -> Result<Vec<Token>, LineError>
    requires ordered { start ≤ end }
    requires within { end ≤ length bytes.now }
    requires short { end < 2 ^ 32 - 1 }
    ensures ok { IfOk result (λ tokens. cut_of bytes.now start end ≡ Ok tokens.items) }
    ensures slices { IfOk result (λ tokens. All (IsSlice bytes.now) tokens.items) }
    ensures sized { IfOk result (λ tokens. All (IsSized bytes.now) tokens.items) }
    ensures err { IfErr result (λ error. IsFaultOf (cut_of bytes.now start end) line start error) }
{
    let mut tokens = room(alloc)?;
    let mut rest = slice(bytes, start, end);
    let mut place = start;
    loop {
        match next_step(rest) {
            Step::Blank => {
                rest = after(rest, 1);
                place += 1;
            }
            Step::End => return Ok(tokens),
            Step::Token(kind, more) => {
                let count = more + 1;
                if is_too_great(kind, front(rest, count)) {
                    return Err(LineError::BadNumber(told_place(line, start, place)));
                }
                let token = Token {
                    kind,
                    start: place,
                    end: place + count,
                };
                append(&mut tokens, token)?;
                rest = after(rest, count);
                place += count;
            }
            Step::Nothing => return Err(LineError::BadToken(told_place(line, start, place))),
        }
    }
}

/// The token that begins at a place, with so many bytes after its first, unless it is a number that is too
/// great.
fn found_token(bytes: &[u8], place: usize, kind: TokenKind, more: usize) -> NextToken
    requires within { place + more < length bytes.now }
    requires step { Step.Token kind more ≡ step_at (drop place bytes.now) }
    ensures next { IsNext bytes.now (cut_past_place bytes.now place) result }
    ensures slice { IsSliceFound bytes.now result }
{
    let end = place + more + 1;
    if is_too_great(kind, slice(bytes, place, end)) {
        NextToken::Wrong
    } else {
        NextToken::Found(Token {
            kind,
            start: place,
            end,
        })
    }
}

/// What comes next in a line from a place on.
pub fn next_token(bytes: &[u8], place: usize) -> NextToken
    requires { place ≤ length bytes.now }
    ensures next { IsNext bytes.now (cut_past_place bytes.now place) result }
    ensures slice { IsSliceFound bytes.now result }
{
    let mut start = place;
    loop {
        match next_step(after(bytes, start)) {
            Step::Blank => start += 1,
            Step::End => return NextToken::End,
            Step::Token(kind, more) => return found_token(bytes, start, kind, more),
            Step::Nothing => return NextToken::Wrong,
        }
    }
}
