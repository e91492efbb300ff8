ghost use Rattle.std.specs.Prelude.{◌≡◌, ℕ, List};
ghost use Rattle.text_tokens.specs.declared.token.TextFault.{TextFault};
ghost use Rattle.report_syntax.specs.Reads.{ReadsReportText, RefusesReportText};
ghost use Rattle.report_syntax.specs.declared.tree.ReportTree.{ReportTree};

/// A law: a text is read as one report at most, is refused as one with one fault at most, and not both.
pub fn one_report()
    ensures one_tree { (source : List ℕ) (a b : ReportTree) → ReadsReportText source a → ReadsReportText source b → a ≡ b }
    ensures one_refusal { (source : List ℕ) (e f : TextFault) → RefusesReportText source e → RefusesReportText source f → e ≡ f }
    ensures not_both { (source : List ℕ) (tree : ReportTree) (fault : TextFault) → ReadsReportText source tree
        → RefusesReportText source fault → ⊥ }
{}
