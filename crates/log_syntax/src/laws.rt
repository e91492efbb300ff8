ghost use Rattle.std.specs.Prelude.{◌≡◌, ℕ, List};
ghost use Rattle.text_tokens.specs.Lexeme.{Lexeme};
ghost use Rattle.text_tokens.specs.declared.token.TextFault.{TextFault};
ghost use Rattle.refutation_log.specs.declared.log.Log.{Log};
ghost use Rattle.log_syntax.specs.Reads.{RefusesLog, SpellsLogOrNothing};

/// A law: tokens spell one log at most, are refused with one fault at most, and not both.
pub fn one_log()
    ensures one_tree { (tokens : List Lexeme) (a b : Log) → SpellsLogOrNothing a tokens → SpellsLogOrNothing b tokens → a ≡ b }
    ensures one_refusal { (tokens : List Lexeme) (end : ℕ) (e f : TextFault) → RefusesLog tokens end e
        → RefusesLog tokens end f → e ≡ f }
    ensures not_both { (tokens : List Lexeme) (end : ℕ) (log : Log) (e : TextFault) → SpellsLogOrNothing log tokens
        → RefusesLog tokens end e → ⊥ }
{}
