ghost use Rattle.std.specs.Prelude.{◌≡◌, ℕ, List, [], Some, slice_get, slice_index_or};
ghost use Rattle.denial_rules.specs.declared.rule.Rule.{Rule};
ghost use Rattle.spec_model.specs.Spec.{Spec};
ghost use Rattle.spec_model.specs.Facts.{AreRules};
ghost use Rattle.spec_model.specs.Completion.{Rankings, IsCompletion};
ghost use Rattle.spec_model.specs.Satisfies.{SatisfiesRule};
ghost use Rattle.spec_model.specs.declared.relation.Relation.{Relation};
ghost use Rattle.rule_laws.specs.Holds.{InstancesHold};

/// A law: a completion satisfies a rule exactly where every instance of it whose premises hold has a
/// conclusion that holds.
pub fn satisfied_by_instances()
    ensures { (s : Spec) → (c : Rankings) → AreRules s.relations s.rules → IsCompletion s.relations c → (k : ℕ) →
        (rule : Rule) → slice_get s.rules k ≡ Some rule → (r : Relation) → slice_get s.relations rule.relation.0 ≡
        Some r → (SatisfiesRule r.rows (slice_index_or c rule.relation.0 []) rule → InstancesHold r.rows
        (slice_index_or c rule.relation.0 []) rule) ×
        (InstancesHold r.rows (slice_index_or c rule.relation.0 []) rule → SatisfiesRule r.rows
        (slice_index_or c rule.relation.0 []) rule) }
{}
