// Rules that are withdrawn.

ghost use Rattle.std.specs.Prelude.{◌≡◌, IfOk, map};
ghost use Rattle.spec_edits.specs.Edits.{IsEditOf};
ghost use Rattle.spec_names.specs.Names.{all_names_of, place_of};
ghost use Rattle.session_entries.specs.Entries.{withdrawn_at};

use crate::EntryFault;
use currency_base::RuleId;
use spec_edits::Edit;
use spec_model::Specification;
use spec_names::SpecNames;
use text_grammar::Named;

/// The edit by which the rule of a name is withdrawn, if there is one. Takes no memory.
pub fn bind_withdrawn(
    names: &SpecNames,
    spec: &Specification,
    name: &Named,
) -> Result<Edit, EntryFault>
    requires { names.now ≡ all_names_of spec.now }
    ensures value { result ≡ withdrawn_at (place_of (map (λ rule. rule.name) spec.now.rules) name.now.name) }
    ensures there { IfOk result (IsEditOf spec.now) }
{
    // There are fewer than 2^32 rules.
    let _ = spec.rules();
    match names.rules().find(&name.name) {
        Some(rule) => Ok(Edit::WithdrawRule(RuleId(rule as u32))),
        None => Err(EntryFault::NotThere),
    }
}
