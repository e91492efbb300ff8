ghost use Rattle.part_join.specs.Fits.{CompletionsFit};

/// A law: a completion of a part is one that can be joined.
pub fn completions_fit()
    ensures { CompletionsFit }
{}
