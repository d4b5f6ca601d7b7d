//! A walk over tokens.

ghost use Rattle.std.specs.Prelude.{◌≡◌, ◌<◌, ◌≤◌, ◌↔◌, All, IsTrue, length, slice_get, MatchBool};
ghost use Rattle.gi_text.specs.Cursors.{IsSpelledWord, IsNextWord, behind_next, cursor_at};
ghost use Rattle.gi_text.specs.Cutting.{IsSlice, slice};

use crate::token::{Token, TokenKind};
use std::marker::Model;

/// Tokens of a text, of which the first is the next.
#[derive(Drop)]
pub struct Cursor<'a> {
    bytes: &'a [u8],
    tokens: &'a [Token],
}

impl<'a> Model for Cursor<'a> {
    ghost use Rattle.gi_text.specs.Cursors.{CursorData};

    ghost Value = { CursorData };

    ghost view = { λ a. record { bytes = a.bytes.now; left = a.tokens.now } };

    ghost use Rattle.std.specs.Prelude.{All};
    ghost use Rattle.gi_text.specs.Cutting.{IsSlice};

    ghost invariant = { λ a. All (IsSlice a.bytes.now) a.tokens.now };
}

/// Whether a token is this word.
fn is_word(bytes: &[u8], token: Token, word: &str) -> bool
    requires { IsSlice bytes.now token }
    ensures { IsTrue result ↔ IsSpelledWord bytes.now token word.now }
{
    match token.kind {
        TokenKind::Word => &bytes[token.start..token.end] == word.as_bytes(),
        _ => false,
    }
}

impl<'a> Cursor<'a> {
    /// Stands at the first of these tokens.
    pub fn new(bytes: &'a [u8], tokens: &'a [Token]) -> Cursor<'a>
        requires { All (IsSlice bytes.now) tokens.now }
        ensures { result ≡ cursor_at bytes.now tokens.now }
    {
        Cursor { bytes, tokens }
    }

    /// The next token, if one is left.
    pub fn peek(&self) -> Option<Token>
        ensures { result ≡ slice_get self.now.left 0 }
    {
        self.tokens.first().copied()
    }

    /// Passes the next token, if one is left.
    pub fn next(&mut self) -> Option<Token>
        ensures next { result ≡ slice_get self.old.left 0 }
        ensures passed { self.new ≡ behind_next self.old }
    {
        match self.tokens {
            [] => None,
            [token, rest @ ..] => {
                self.tokens = rest;
                Some(*token)
            }
        }
    }

    /// Whether the next token is this word.
    fn is_next_word(&self, word: &str) -> bool
        ensures { IsTrue result ↔ IsNextWord self.now word.now }
    {
        match self.tokens {
            [] => false,
            [token, ..] => is_word(self.bytes, *token, word),
        }
    }

    /// Passes the next token if it is this word, and says whether it is.
    pub fn take_word(&mut self, word: &str) -> bool
        ensures word { IsTrue result ↔ IsNextWord self.old word.now }
        ensures passed { MatchBool result (self.new ≡ behind_next self.old) (self.new ≡ self.old) }
    {
        let is_next = self.is_next_word(word);
        if is_next {
            let _passed = self.next();
        }
        is_next
    }
}
