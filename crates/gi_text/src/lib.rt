//! The tokens of a line of text, the numbers that they write, and a cursor over them.
#![tactic(auto)]

mod bytes;
mod cursor;
mod cut;
pub mod laws;
mod numbers;
mod step;
mod token;

pub use bytes::{digit_length, is_digit, is_word_byte, word_length};
pub use cursor::Cursor;
pub use cut::{next_token, tokens};
pub use numbers::{digit_value, number};
pub use token::{LineError, NextToken, Number, Place, SizeError, TextError, Token, TokenKind};
