ghost use Rattle.std.specs.Prelude.{◌≡◌, ℕ, List, IsUtf8};
ghost use Rattle.std.specs.List.{All};
ghost use Rattle.text_tokens.specs.Lexeme.{Lexeme};
ghost use Rattle.text_tokens.specs.Tokens.{HoldsText, TokensOf};

/// A law: a text has one list of tokens.
pub fn one_list_of_tokens()
    ensures { (source : List ℕ) (a b : List Lexeme) → TokensOf source a → TokensOf source b → a ≡ b }
{}

/// A law: each token of a UTF-8 text has at least one byte, and is UTF-8 unless it is a fault.
pub fn tokens_hold_text()
    ensures { (source : List ℕ) (found : List Lexeme) → IsUtf8 source → TokensOf source found → All HoldsText found }
{}
