//! What is promised of the tokens of a line.

ghost use Rattle.std.specs.Prelude.{◌≡◌, List, Some};
ghost use Rattle.gi_llt.specs.Tokens.{Piece, IsApart, piece_bytes, piece_lexemes, tokens_of};

/// A line that is written in pieces that stand apart is read as the tokens of these pieces.
pub fn pieces_are_read()
    ensures { (pieces : List Piece) → IsApart pieces → tokens_of (piece_bytes pieces) ≡ Some (piece_lexemes pieces) }
{}
