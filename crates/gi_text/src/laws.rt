//! What is promised of the tokens of a line beyond each call.

ghost use Rattle.std.specs.Prelude.{◌≡◌, ℕ, List, Some, None, Ok, Err, map};
ghost use Rattle.gi_llt.specs.Tokens.{tokens_of};
ghost use Rattle.gi_text.specs.declared.token.Token.{Token};
ghost use Rattle.gi_text.specs.Cutting.{NoToken, cut_of, lexeme_in, slice};

/// The tokens that a line is cut into are those of the table of tokens, each as a slice of the text.
pub fn tokens_are_of_the_table()
    ensures { (text : List ℕ) (start end : ℕ) (tokens : List Token) → cut_of text start end ≡ Ok tokens → tokens_of (slice start end text) ≡ Some (map (lexeme_in text) tokens) }
{}

/// A line has no tokens by the table where it is refused for a byte that begins none.
pub fn refused_is_not_of_the_table()
    ensures { (text : List ℕ) (start end place : ℕ) → cut_of text start end ≡ Err (NoToken place) → tokens_of (slice start end text) ≡ None }
{}
