ghost use Rattle.std.specs.Prelude.{◌≡◌, ℕ, List};
ghost use Rattle.text_tokens.specs.declared.token.TextFault.{TextFault};
ghost use Rattle.spec_syntax.specs.Texts.{ReadsOrdering, ReadsSpec, RefusesOrdering, RefusesSpec};
ghost use Rattle.spec_syntax.specs.declared.trees.OrderingTree.{OrderingTree};
ghost use Rattle.spec_syntax.specs.declared.trees.SpecTree.{SpecTree};

/// A law: a text is read as one specification at most, is refused as one with one fault at most, and
/// not both.
pub fn one_specification()
    ensures one_tree { (source : List ℕ) (a b : SpecTree) → ReadsSpec source a → ReadsSpec source b → a ≡ b }
    ensures one_refusal { (source : List ℕ) (e f : TextFault) → RefusesSpec source e → RefusesSpec source f → e ≡ f }
    ensures not_both { (source : List ℕ) (tree : SpecTree) (e : TextFault) → ReadsSpec source tree → RefusesSpec source e → ⊥ }
{}

/// A law: a text is read as one ordering at most, is refused as one with one fault at most, and not
/// both.
pub fn one_ordering()
    ensures one_tree { (source : List ℕ) (a b : OrderingTree) → ReadsOrdering source a → ReadsOrdering source b → a ≡ b }
    ensures one_refusal { (source : List ℕ) (e f : TextFault) → RefusesOrdering source e → RefusesOrdering source f → e ≡ f }
    ensures not_both { (source : List ℕ) (tree : OrderingTree) (e : TextFault) → ReadsOrdering source tree
        → RefusesOrdering source e → ⊥ }
{}
