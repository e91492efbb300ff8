ghost use Rattle.std.specs.Prelude.{◌≡◌, ℕ, List};
ghost use Rattle.text_tokens.specs.declared.token.TextFault.{TextFault};
ghost use Rattle.script_syntax.specs.Texts.{ReadsScript, RefusesScript};
ghost use Rattle.script_syntax.specs.declared.trees.Entry.{Entry};

/// A law: a text is read as one script at most, is refused as one with one fault at most, and not both.
pub fn one_script()
    ensures one_tree { (source : List ℕ) (a b : List Entry) → ReadsScript source a → ReadsScript source b → a ≡ b }
    ensures one_refusal { (source : List ℕ) (e f : TextFault) → RefusesScript source e → RefusesScript source f → e ≡ f }
    ensures not_both { (source : List ℕ) (entries : List Entry) (e : TextFault) → ReadsScript source entries
        → RefusesScript source e → ⊥ }
{}
