ghost use Rattle.std.specs.Prelude.{◌≡◌, ℕ, List, Some, IsUtf8, All};
ghost use Rattle.currency_base.specs.declared.value.Value.{Value};
ghost use Rattle.text_tokens.specs.Lexeme.{Lexeme};
ghost use Rattle.text_grammar.specs.Words.{constant, named, on_line, quoted, value_on_line};
ghost use Rattle.text_write.specs.Pieces.{Piece, piece_of};
ghost use Rattle.text_write.specs.Spelling.{name_piece, string_piece, value_piece};
ghost use Rattle.text_write.specs.Written.{HasTokens, IsPiece};
ghost use Rattle.currency_base.specs.Values.{IsValue};

/// A law: the tokens of the text of whole pieces are just these pieces.
pub fn pieces_are_tokens()
    ensures { (pieces : List Piece) → All IsPiece pieces → HasTokens pieces }
{}

/// A law: a token that is a name's piece is read as this name.
pub fn name_is_read()
    ensures { (bytes : List ℕ) → IsUtf8 bytes → (t : Lexeme) → piece_of t ≡ name_piece bytes → named t ≡ Some
        (on_line t.line bytes) }
{}

/// A law: a token that is a string's piece is read as the string's content.
pub fn string_is_read()
    ensures { (bytes : List ℕ) → IsUtf8 bytes → (t : Lexeme) → piece_of t ≡ string_piece bytes → quoted t ≡ Some
        (on_line t.line bytes) }
{}

/// A law: a token that is a value's piece is read as this value.
pub fn value_is_read()
    ensures { (v : Value) → IsValue v → (t : Lexeme) → piece_of t ≡ value_piece v → constant t ≡ Some (value_on_line t.line v) }
{}

/// A law: the piece of a name is a whole token.
pub fn name_is_piece()
    ensures { (bytes : List ℕ) → IsUtf8 bytes → IsPiece (name_piece bytes) }
{}

/// A law: the piece of a string is a whole token.
pub fn string_is_piece()
    ensures { (bytes : List ℕ) → IsUtf8 bytes → IsPiece (string_piece bytes) }
{}

/// A law: the piece of a value is a whole token.
pub fn value_is_piece()
    ensures { (v : Value) → IsValue v → IsPiece (value_piece v) }
{}
