use currency_base::NoMemory;
use text_tokens::Token;

/// Why reading stopped. What is left begins with the refused token, and is empty where the text ends
/// too early.
#[derive(Clone, Copy)]
pub enum Refusal<'a> {
    /// No text of the grammar goes on with that token.
    Syntax(&'a [Token<'a>]),
    /// Want of memory.
    NoMemory,
}

impl From<NoMemory> for Refusal<'_> {
    ghost use Rattle.std.specs.Prelude.{◌≡◌};
    ghost use Rattle.text_grammar.specs.declared.refusal.Refusal.TheVariants;

    ghost from_gives = { λ _ e. e ≡ TheVariants.NoMemory };

    fn from(_: NoMemory) -> Self {
        Refusal::NoMemory
    }
}
