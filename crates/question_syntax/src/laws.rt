ghost use Rattle.std.specs.Prelude.{◌≡◌, ℕ, List};
ghost use Rattle.text_tokens.specs.declared.token.TextFault.{TextFault};
ghost use Rattle.question_syntax.specs.Texts.{ReadsQuestion, RefusesQuestion};
ghost use Rattle.question_syntax.specs.declared.trees.QuestionTree.{QuestionTree};

/// A law: a text is read as one question at most, is refused as one with one fault at most, and not
/// both.
pub fn one_question()
    ensures one_tree { (source : List ℕ) (a b : QuestionTree) → ReadsQuestion source a → ReadsQuestion source b → a ≡ b }
    ensures one_refusal { (source : List ℕ) (e f : TextFault) → RefusesQuestion source e → RefusesQuestion source f → e ≡ f }
    ensures not_both { (source : List ℕ) (tree : QuestionTree) (e : TextFault) → ReadsQuestion source tree
        → RefusesQuestion source e → ⊥ }
{}
