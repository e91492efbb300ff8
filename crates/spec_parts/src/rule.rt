ghost use Rattle.std.specs.Prelude.{◌≡◌, [], OnOk};
ghost use Rattle.spec_model.specs.Facts.{AreRules};

use currency_base::NoMemory;
use spec_duplicates::copied_rule;
use spec_model::Specification;
use std::alloc::Global;

/// Puts the rules of the whole into a part that has none.
pub(crate) fn put_rules(
    alloc: Global,
    whole: &Specification,
    part: &mut Specification,
) -> Result<(), NoMemory>
    requires rules { AreRules part.old.relations whole.now.rules }
    requires none { part.old.rules ≡ [] }
    ensures { OnOk result (part.new ≡ record part.old { rules = whole.now.rules }) }
{
    for rule in whole.rules() {
        part.add_rule(copied_rule(alloc, rule)?)?;
    }
    Ok(())
}
